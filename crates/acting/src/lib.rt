// What one disk's action changes: the round's actions, and the desk.
#![tactic(auto)]

ghost use Rattle.std.specs.Prelude.{◌≡◌, ◌≤◌, ◌<◌, length, get_or};
ghost use Rattle.bits.specs.Bits.{Below};
ghost use Rattle.moving.specs.Moving.{Ahead};
ghost use Rattle.acting.specs.Acting.{Small, noted, taken_in};

use choosing::{Choice, Rule};
use lookup::{Desk, Steps};
use writing::Action;

// What is lent to a plan and does not change: the slots of each disk, the references, the steps between them, and the rule.
#[derive(Clone, Copy)]
pub struct Input<'a> {
    pub slots: &'a [u16],
    pub refs: &'a [u16],
    pub steps: &'a Steps,
    pub rule: Rule,
}

// What a disk does in the round, and why, as it is written: the min-block is the resident at the place that was chosen.
pub fn note(c: Choice, desk: &Desk) -> Action
    requires { Small c × Below 512 desk.now.held }
    ensures { result ≡ noted desk.now.held c }
{
    let (fetched, discarded, reason) = match c {
        Choice::IntoEmpty(u, _) => (Some(u as u16), None, 0),
        Choice::OverMinBlock(u, place) => (Some(u as u16), Some(desk.held[place]), 1),
        Choice::MinBlockSooner => (None, None, 2),
        Choice::Waits => (None, None, 3),
        Choice::NoneMissing => (None, None, 4),
    };
    Action {
        fetched,
        discarded,
        reason,
    }
}

// Block u enters the buffer of disk d, at a place among its residents, and the disk's pointer moves on.
pub fn take_in(
    d: usize,
    u: usize,
    place: usize,
    input: Input,
    resident: &[bool; 512],
    desk: &mut Desk,
)
    requires d_bound { (d < 8) × (u < 512) × (place < 512) × (get_or desk.old.look d 0 ≤ length input.refs.now) }
    requires refs_len_bound { (length input.refs.now ≤ 2048) × Below 512 input.refs.now × Ahead (length input.refs.now) input.steps.now.of_disk }
    ensures { desk.new ≡ taken_in input.entry.refs.now resident.now input.entry.steps.now d u place desk.old }
{
    desk.hold(place, u);
    moving::move_on(d, input.refs, resident, input.steps, desk);
}
