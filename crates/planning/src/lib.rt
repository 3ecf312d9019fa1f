// Both plans of a job: their rounds, their fetches, their sheets and the reasons for their actions.
#![tactic(auto)]

ghost use Rattle.std.specs.Prelude.{◌≡◌, replicate};
ghost use Rattle.bits.specs.Bits.{bytes, laid};
ghost use Rattle.job.specs.Meaning.{Fits, job_of};
ghost use Rattle.model.specs.Plans.{plan_of, schedule_of};
ghost use Rattle.model.specs.Page.{reasons_of};
ghost use Rattle.model.specs.Sheet.{sheet_bits};
ghost use Rattle.choosing.specs.Choosing.{rule_of};
ghost use Rattle.choosing.specs.declared.Rule.TheVariants.{Short, Sparing};
ghost use Rattle.planning.specs.Planning.{plans_of};

use acting::Input;
use choosing::Rule;
use driving::{Output, Totals};
use job::Job;
use lookup::{Desk, Steps};

// The short and the sparing plan.
#[derive(Clone, Copy)]
pub struct Plans {
    pub short: Totals,
    pub sparing: Totals,
}

// Both plans of a job, each written as a sheet into a buffer of zeros, and the reasons of each, as far as their slices reach. The buffers, the desk
// and the steps are made once; each plan has a desk of its own.
pub fn run(job: Job, short: &mut Output, sparing: &mut Output) -> Plans
    requires { Fits job × (short.old.sheet.now ≡ replicate 40968 0) × (sparing.old.sheet.now ≡ replicate 40968 0) }
    ensures planned { (result ≡ plans_of (job_of job)) × (short.new.sheet.now ≡ bytes 40968 (sheet_bits (schedule_of (rule_of Short) (job_of job))))
        × (sparing.new.sheet.now ≡ bytes 40968 (sheet_bits (schedule_of (rule_of Sparing) (job_of job))))
        × (short.new.reasons.now ≡ laid (reasons_of (plan_of (rule_of Short) (job_of job))) short.old.reasons.now)
        × (sparing.new.reasons.now ≡ laid (reasons_of (plan_of (rule_of Sparing) (job_of job))) sparing.old.reasons.now) }
    ensures same_slices { (short.new.sheet.ghost_name ≡ short.old.sheet.ghost_name) × (short.new.reasons.ghost_name ≡ short.old.reasons.ghost_name)
        × (sparing.new.sheet.ghost_name ≡ sparing.old.sheet.ghost_name) × (sparing.new.reasons.ghost_name ≡ sparing.old.reasons.ghost_name) }
{
    let slots = &job.slots[..job.disks];
    let refs = &job.refs[..job.count];
    let mut desk = Desk {
        next: [0; 512],
        later: [0; 512],
        held: [0; 512],
        look: [0; 512],
    };
    let mut steps = Steps {
        of_block: [0; 2048],
        of_disk: [0; 2048],
    };
    let b = opening::open(&job, &mut desk, &mut steps);
    let mut first = desk;
    let input = Input {
        slots,
        refs,
        steps: &steps,
        rule: Rule::Short,
    };
    let short = driving::drive(b, job.count, input, &mut first, short);
    let input = Input {
        rule: Rule::Sparing,
        ..input
    };
    let sparing = driving::drive(b, job.count, input, &mut desk, sparing);
    Plans { short, sparing }
}
