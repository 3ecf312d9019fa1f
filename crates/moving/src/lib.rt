// The pointer of a disk to its first missing reference.
#![tactic(auto)]

ghost use Rattle.std.specs.Prelude.{◌≡◌, ◌≤◌, ◌<◌, length, get_or};
ghost use Rattle.bits.specs.Bits.{Below};
ghost use Rattle.moving.specs.Moving.{Ahead, move_from, moved_on};

use lookup::{Desk, Row, Steps};

// The pointer moves on from `look`, reference by reference of its disk, to the first whose block is missing, or to the end. The row of distances
// from it changes.
#[tactic(auto, using(crate::proofs::Moves::move_missing, crate::proofs::Moves::move_end))]
fn advance(
    refs: &[u16],
    resident: &[bool; 512],
    steps: &Steps,
    later: &mut Row,
    look: usize,
) -> usize
    requires { (length refs.now ≤ 2048) × Below 512 refs.now × Ahead (length refs.now) steps.now.of_disk }
    ensures { (result, later.new)
        ≡ move_from refs.now resident.now steps.now 2048 look later.old }
{
    let mut p = look;
    while p < refs.len() && resident[usize::from(refs[p])] {
        lookup::pass(later, steps, refs, p);
        p = steps.after(p);
    }
    p
}

// The pointer of disk d moves on from where the desk has it, and the desk has it where it stops.
pub fn move_on(d: usize, refs: &[u16], resident: &[bool; 512], steps: &Steps, desk: &mut Desk)
    requires d_bound { (d < 8) × (get_or desk.old.look d 0 ≤ length refs.now) }
    requires refs_len_bound { (length refs.now ≤ 2048) × Below 512 refs.now × Ahead (length refs.now) steps.now.of_disk }
    ensures { desk.new ≡ moved_on refs.now resident.now steps.now d desk.old }
{
    let look = desk.look_of(d);
    let p = advance(refs, resident, steps, &mut desk.later, look);
    desk.point(d, p);
}
