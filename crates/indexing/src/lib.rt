// The tables of a job, made once from its reference list: for empty buffers the desk and the steps, in a backward pass; and the residents, which
// come as a job has its blocks, in 16 bits.
#![tactic(auto)]

ghost use Rattle.std.specs.Prelude.{◌≡◌, ◌≤◌, ◌<◌, length, get_or, set};
ghost use Rattle.bits.specs.Bits.{Below};
ghost use Rattle.indexing.specs.Indexing.{opened, stepped};

use lookup::{Desk, Row, StepRow, Steps};

// One reference back: what comes first of its key, a block or a disk, comes again after it, and it is now the first.
fn step_back(key: usize, at: usize, first: &mut Row, again: &mut StepRow)
    requires { (key < 512) × (at < 2048) }
    ensures first_after { first.new ≡ set first.old key at }
    ensures again_after { again.new ≡ set again.old at (get_or first.old key 0) }
{
    again[at] = first[key];
    first[key] = lookup::position(at);
}

// The desk and the steps of a job whose buffers are empty.
#[tactic(auto, using(crate::proofs::Backward::done_first), unfolding(crate::specs::Indexing::opened))]
pub fn open(refs: &[u16], disk_of: &[u16; 512], desk: &mut Desk, steps: &mut Steps)
    requires { (length refs.now ≤ 2048) × Below 512 refs.now × Below 8 disk_of.now }
    ensures desk_after { desk.new ≡ opened disk_of.now refs.now desk.old }
    ensures steps_after { steps.new ≡ stepped disk_of.now refs.now steps.old }
{
    let never = lookup::position(refs.len());
    desk.next = [never; 512];
    desk.look = [never; 512];
    for i in (0..refs.len()).rev() {
        let block = usize::from(refs[i]);
        let disk = usize::from(disk_of[block]);
        step_back(block, i, &mut desk.next, &mut steps.of_block);
        step_back(disk, i, &mut desk.look, &mut steps.of_disk);
    }
    desk.later = desk.next;
}

// Sets the residents of all disks, those of disk d from d * 64 on.
pub fn put_residents(desk: &mut Desk, residents: &Row)
    ensures { desk.new ≡ record desk.old { held = residents.now } }
{
    desk.held = *residents;
}
