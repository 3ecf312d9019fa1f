// The least slot count of a disk with which the short plan of a job is within the wanted rounds, found by one short plan after another. Document 02,
// L10.
#![tactic(auto)]

ghost use Rattle.std.specs.Prelude.{◌≡◌, cond, ◌^◌, ◌≤◌, ◌<◌, ltb, length, take};
ghost use Rattle.bits.specs.Bits.{bytes_for, over};
ghost use Rattle.job.specs.Meaning.{job_of, Fits};
ghost use Rattle.slot_counts.specs.Slots.{least_slots, with_sheet, slots_after, returned_slots};
ghost use Rattle.returning.specs.Returning.{least_as};
ghost use Rattle.least.specs.Least.{lowest_count, tried_rounds, handed_for};

use acting::Input;
use choosing::Rule;
use driving::{Output, Totals};
use job::Job;
use lookup::{Desk, Steps};
use refusal::Refusal;
use returning::LeastSlots;

// The lowest count that is allowed: 1, and not below the blocks carried in.
fn lowest(carried: usize) -> usize
    ensures { result ≡ lowest_count carried }
{
    carried.max(1)
}

// How many rounds of a plan are driven: one more than wanted, after which it is given up; `count` are enough for the whole plan.
fn rounds_tried(wanted: usize, count: usize) -> usize
    ensures { result ≡ tried_rounds wanted count }
{
    wanted.saturating_add(1).min(count)
}

// What is given for a count, with the plan for it, whose sheet is copied where it fits.
fn hand_out(
    count: usize,
    plan: Totals,
    sheet: &[u8],
    short: &mut [u8],
) -> Result<LeastSlots, Refusal>
    requires { (plan.bits < 2 ^ 32) × (bytes_for plan.bits ≤ length sheet.now) }
    ensures { let m = bytes_for plan.bits in let room = length short.old in
        (result ≡ handed_for count plan m room)
        × (short.new ≡ cond (ltb room m) short.old (over (take m sheet.now) short.old)) }
{
    let m = handing::sheet_length(plan);
    returning::fits(m, short.len(), Refusal::ShortRoom)?;
    bits::copy_front(sheet, m, short);
    Ok(LeastSlots {
        slots: count,
        length: m,
        counts: handing::counted(plan),
    })
}

// The least count for a disk of a job, with the short sheet for it where it fits. The job is opened once; each count has a sheet and a desk of its
// own.
pub fn find(
    job: Job,
    disk: usize,
    wanted: usize,
    short: &mut [u8],
) -> Result<Option<LeastSlots>, Refusal>
    requires { Fits job × (disk < job.disks) }
    ensures { let a = with_sheet (length short.old) disk (job_of job) (least_slots (job_of job) disk wanted) in
        (result ≡ least_as (returned_slots a)) × (short.new ≡ slots_after a short.old) }
{
    let refs = &job.refs[..job.count];
    let most = rounds_tried(wanted, job.count);
    let mut desk = Desk {
        next: [0; 512],
        later: [0; 512],
        held: [0; 512],
        look: [0; 512],
    };
    let mut steps = Steps {
        of_block: [0; 2048],
        of_disk: [0; 2048],
    };
    let b = opening::open(&job, &mut desk, &mut steps);
    for s in lowest(job.held[disk] as usize)..65 {
        let mut slots = job.slots;
        slots[disk] = s as u16;
        let input = Input {
            slots: &slots[..job.disks],
            refs,
            steps: &steps,
            rule: Rule::Short,
        };
        let mut own = desk;
        let mut sheet = [0u8; 40968];
        let mut out = Output {
            sheet: &mut sheet,
            reasons: &mut [],
        };
        let plan = driving::drive(b, most, input, &mut own, &mut out);
        if plan.rounds <= wanted {
            return Ok(Some(hand_out(s, plan, out.sheet, short)?));
        }
    }
    Ok(None)
}
