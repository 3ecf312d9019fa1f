// Planning of a job into lent buffers: both sheets, where both fit. Document 01, planning.
#![tactic(auto)]

ghost use Rattle.std.specs.Prelude.{◌≡◌, ◌^◌, ◌≤◌, ◌<◌, length, take};
ghost use Rattle.bits.specs.Bits.{bytes_for, over};
ghost use Rattle.bits.specs.Reading.{given};
ghost use Rattle.job.specs.Meaning.{job_of, Fits};
ghost use Rattle.model.specs.Calls.{planned_for, short_after, sparing_after, returned};
ghost use Rattle.returning.specs.Returning.{planned_as};
ghost use Rattle.handing.specs.Handing.{total_counts, both_fit, outcome_of};

use driving::{Output, Totals};
use job::Job;
use planning::Plans;
use playing::Counts;
use refusal::Refusal;
use returning::Planned;

// The rounds and fetches of a plan.
pub fn counted(plan: Totals) -> Counts
    ensures { result ≡ total_counts plan }
{
    let Totals {
        rounds,
        fetches,
        ..
    } = plan;
    Counts { rounds, fetches }
}

// How many bytes the sheet of a plan has.
pub fn sheet_length(plan: Totals) -> usize
    requires { plan.bits < 2 ^ 32 }
    ensures { result ≡ bytes_for plan.bits }
{
    (plan.bits + 7) / 8
}

// Whether both sheets fit buffers of so many bytes: 17 where the short one does not, and else 18 where the sparing one does not.
pub fn both_fit(plans: Plans, short: usize, sparing: usize) -> Result<(), Refusal>
    requires { (plans.short.bits < 2 ^ 32) × (plans.sparing.bits < 2 ^ 32) }
    ensures { result ≡ both_fit (bytes_for plans.short.bits) short (bytes_for plans.sparing.bits) sparing }
{
    returning::fits(sheet_length(plans.short), short, Refusal::ShortRoom)?;
    returning::fits(sheet_length(plans.sparing), sparing, Refusal::SparingRoom)
}

// Both sheets copied from where they were made to buffers in which they fit, and what the two plans give.
#[tactic(auto, using(crate::proofs::Rooms::outcome_is))]
pub fn hand_out(
    plans: Plans,
    first: &[u8],
    second: &[u8],
    short: &mut [u8],
    sparing: &mut [u8],
) -> Planned
    requires bits_bound { (plans.short.bits < 2 ^ 32) × (bytes_for plans.short.bits ≤ length first.now) × (bytes_for plans.short.bits ≤ length short.old) }
    requires bits_bound_2 { (plans.sparing.bits < 2 ^ 32) × (bytes_for plans.sparing.bits ≤ length second.now) × (bytes_for plans.sparing.bits ≤ length sparing.old) }
    ensures { let m = bytes_for plans.short.bits in let n = bytes_for plans.sparing.bits in
        (result ≡ outcome_of plans.short m plans.sparing n)
        × (short.new ≡ over (take m first.now) short.old)
        × (sparing.new ≡ over (take n second.now) sparing.old) }
{
    let m = sheet_length(plans.short);
    let n = sheet_length(plans.sparing);
    bits::copy_front(first, m, short);
    bits::copy_front(second, n, sparing);
    let which = returning::which_for(plans.short.rounds, plans.sparing.rounds);
    Planned {
        mark: which.into(),
        length: which.of(m, n),
        short: counted(plans.short),
        sparing: counted(plans.sparing),
    }
}

// Planning of a job: both plans are made in scratch sheets, without their reasons, and copied where both fit.
pub fn plan_job(job: Job, short: &mut [u8], sparing: &mut [u8]) -> Result<Planned, Refusal>
    requires { Fits job }
    ensures { let a = planned_for (length short.old) (length sparing.old) (given (job_of job)) in
        (result ≡ planned_as (returned a))
        × (short.new ≡ short_after a short.old)
        × (sparing.new ≡ sparing_after a sparing.old) }
{
    let mut first = [0u8; 40968];
    let mut second = [0u8; 40968];
    let mut a = Output {
        sheet: &mut first,
        reasons: &mut [],
    };
    let mut b = Output {
        sheet: &mut second,
        reasons: &mut [],
    };
    let plans = planning::run(job, &mut a, &mut b);
    both_fit(plans, short.len(), sparing.len())?;
    Ok(hand_out(plans, a.sheet, b.sheet, short, sparing))
}
