// Planning of a job with the page of the plan handed back, into lent buffers, where the page and both sheets fit. Document 02, L2.
#![tactic(auto)]

ghost use Rattle.std.specs.Prelude.{◌≡◌, length};
ghost use Rattle.bits.specs.Reading.{given};
ghost use Rattle.job.specs.Meaning.{job_of, Fits};
ghost use Rattle.model.specs.Calls.{short_after, sparing_after, page_for, plan_given, page_after};
ghost use Rattle.returning.specs.Returning.{planned_page_as};

use driving::Output;
use job::Job;
use refusal::Refusal;
use returning::PlannedPage;

// Planning of a job with a page: as `handing::plan_job`, with the reasons of both plans. The page is made from the sheet and the reasons of the plan
// handed back.
pub fn page_job(
    job: Job,
    short: &mut [u8],
    sparing: &mut [u8],
    page: &mut [u8],
) -> Result<PlannedPage, Refusal>
    requires { Fits job }
    ensures { let a = page_for (length short.old) (length sparing.old) (length page.old) (given (job_of job)) in
        (result ≡ planned_page_as a)
        × (short.new ≡ short_after (plan_given a) short.old)
        × (sparing.new ≡ sparing_after (plan_given a) sparing.old)
        × (page.new ≡ page_after a page.old) }
{
    let mut first = [0u8; 40968];
    let mut second = [0u8; 40968];
    let mut why_first = [0u8; 16384];
    let mut why_second = [0u8; 16384];
    let mut a = Output {
        sheet: &mut first,
        reasons: &mut why_first,
    };
    let mut b = Output {
        sheet: &mut second,
        reasons: &mut why_second,
    };
    let plans = planning::run(job, &mut a, &mut b);
    let Output {
        sheet: first,
        reasons: why_first,
    } = a;
    let Output {
        sheet: second,
        reasons: why_second,
    } = b;
    let which = returning::which_for(plans.short.rounds, plans.sparing.rounds);
    let lines = which.of(plans.short.rounds, plans.sparing.rounds) * job.disks;
    let length = lines * 17 + 85;
    handing::both_fit(plans, short.len(), sparing.len())?;
    returning::fits(length, page.len(), Refusal::PageRoom)?;
    let planned = handing::hand_out(plans, first, second, short, sparing);
    let sheet = which.of(&*first, &*second);
    let reasons = which.of(&*why_first, &*why_second);
    printing::put_page(page, sheet, reasons, job.disks, lines);
    Ok(PlannedPage { planned, length })
}
