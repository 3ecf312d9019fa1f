// What the plans of a job start from, before round 1: the buffers, with the blocks carried in (document 02, L9), their desk, and the steps.
#![tactic(auto)]

ghost use Rattle.std.specs.Prelude.{◌≡◌, suc, ◌≤◌, length};
ghost use Rattle.bits.specs.Bits.{Below};
ghost use Rattle.job.specs.Meaning.{Fits};
ghost use Rattle.moving.specs.Moving.{Ahead};
ghost use Rattle.playing.specs.Playing.{start_buffers};
ghost use Rattle.opening.specs.Opening.{moved_all, passed_all, no_desk, no_steps, start_steps, start_desk};

use job::Job;
use lookup::{Desk, Steps};
use playing::Buffers;

// The pointers of all disks move on, each to its disk's first missing reference.
#[tactic(auto, using(crate::proofs::Sizes::on_the_way), unfolding(crate::specs::Opening::moved_all))]
fn move_all(disks: usize, refs: &[u16], resident: &[bool; 512], steps: &Steps, desk: &mut Desk)
    requires disks_bound { (disks ≤ 8) × Below (suc (length refs.now)) desk.old.look }
    requires refs_len_bound { (length refs.now ≤ 2048) × Below 512 refs.now × Ahead (length refs.now) steps.now.of_disk }
    ensures { desk.new ≡ moved_all refs.now resident.now steps.now disks desk.old }
{
    for d in 0..disks {
        moving::move_on(d, refs, resident, steps, desk);
    }
}

// The first references, `next` of them, are read: each block's distance is then from there on.
#[tactic(auto, using(crate::proofs::Sizes::passed_more), unfolding(crate::specs::Opening::passed_all))]
fn pass_all(next: usize, refs: &[u16], steps: &Steps, desk: &mut Desk)
    requires { (next ≤ length refs.now) × (length refs.now ≤ 2048) × Below 512 refs.now }
    ensures { desk.new ≡ passed_all refs.now steps.now next desk.old }
{
    for i in 0..next {
        desk.read(steps, refs, i);
    }
}

// A job before round 1: its buffers; and its desk and its steps, made of tables of zeros. The desk is first that of empty buffers. The slots do not
// matter.
pub fn open(job: &Job, desk: &mut Desk, steps: &mut Steps) -> Buffers
    requires { Fits job.now × (desk.old ≡ no_desk) × (steps.old ≡ no_steps) }
    ensures { (result ≡ start_buffers job.now) × (desk.new ≡ start_desk job.now) × (steps.new ≡ start_steps job.now) }
{
    let refs = &job.refs[..job.count];
    let b = Buffers::carrying(job.disks, job.held, &job.carried).read_on(&job.refs, job.count);
    indexing::open(refs, &job.disk, desk, steps);
    indexing::put_residents(desk, &job.carried);
    move_all(job.disks, refs, &b.resident, steps, desk);
    pass_all(b.next, refs, steps, desk);
    b
}
