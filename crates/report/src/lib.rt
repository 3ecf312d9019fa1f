// What the program `plan` prints for a ticket. Document 01: "mark and rounds of the chosen plan, then each disk with its fetches in that plan. A
// refusal prints `refused`, a space and the number. Every line ends in a line feed." Document 02, L5: the stop, which "is N".
#![tactic(auto)]

ghost use Rattle.std.specs.Prelude.{◌≡◌, ◌+◌, ◌*◌, ◌≤◌, length, get_or};
ghost use Rattle.bits.specs.Bits.{laid};
ghost use Rattle.texts.specs.Texts.{Put};
ghost use Rattle.report.specs.Report.{disk_lines, printed};
ghost use Rattle.report.specs.Text.{plan_text, text_of, Small};

use playing::Counts;
use refusal::Refusal;
use returning::{Mark, Planned};

// The lines of the first `disks` disks.
fn put_disks(out: &mut [u8], start: usize, fetches: [u16; 8], disks: usize) -> usize
    requires start_bound { start ≤ 14 }
    requires disks_bound { disks ≤ 8 }
    ensures text { Put start (disk_lines (λ d. get_or fetches d 0) disks) out.old out.new result }
    ensures few { result ≤ start + disks * 8 }
{
    let mut at = start;
    for (d, n) in fetches[..disks].iter().enumerate() {
        let next = texts::put_decimal(out, at, d);
        at = texts::put_end(out, next, usize::from(*n));
    }
    at
}

// The lines of a plan.
fn put_plan(out: &mut [u8], word: &[u8], plan: Counts, disks: usize) -> usize
    requires word_len_bound { length word.now ≤ 7 }
    requires rounds_bound { plan.rounds ≤ 2048 }
    requires disks_bound { disks ≤ 8 }
    ensures text { Put 0 (plan_text word.now plan disks) out.old out.new result }
    ensures few { result ≤ 128 }
{
    let rounds = texts::put_word(out, 0, word);
    let start = texts::put_end(out, rounds, plan.rounds);
    put_disks(out, start, plan.fetches, disks)
}

// What planning gives, as text.
#[tactic(auto, unfolding(crate::specs::Text::text_of))]
fn put_planned(out: &mut [u8], planned: Result<Planned, Refusal>, disks: usize) -> usize
    requires small { Small planned }
    requires disks_bound { disks ≤ 8 }
    ensures text { Put 0 (text_of planned disks) out.old out.new result }
    ensures few { result ≤ 128 }
{
    match planned {
        Err(refusal) => texts::put_refusal(out, refusal.number()),
        Ok(plans) => match plans.mark {
            Mark::Short => put_plan(out, b"short", plans.short, disks),
            Mark::Sparing => put_plan(out, b"sparing", plans.sparing, disks),
        },
    }
}

// The text of `plan` for a ticket, written as far as `out` reaches, and its length, at most 128 bytes.
pub fn report(ticket: &[u8], out: &mut [u8]) -> usize
    ensures bytes { out.new ≡ laid (printed ticket.now) out.old }
    ensures count { result ≡ length (printed ticket.now) }
    ensures few { result ≤ 128 }
{
    let job = match ticket::read(ticket) {
        Ok(job) => job,
        Err(refusal) => return texts::put_refusal(out, refusal.number()),
    };
    let mut short = [0u8; 40962];
    let mut sparing = [0u8; 40962];
    let planned = planner::plan(ticket, job.count, &mut short, &mut sparing);
    put_planned(out, planned, job.disks)
}
