// Planning, the check and the choice from C: what `planner` gives, with the numbers written into a lent slice. The archive of this crate is the
// library of `include/planner.h`.
#![tactic(auto)]

ghost use Rattle.std.specs.Prelude.{◌≡◌};
ghost use Rattle.model.specs.Calls.{short_after, sparing_after, check_answer, choose_answer, counts_written, counts_numbers, planning_numbers, choice_numbers, number_of};
ghost use Rattle.checking.specs.Checking.{checked_of};
ghost use Rattle.counts.specs.Counts.{numbered};
ghost use Rattle.planner.specs.Planner.{plan_into, Unbeaten, Exact, Promised, Preferred};

use refusal::Refusal;

// What a call returns, with the number of its refusal for C.
fn numbered<T: Copy>(returned: Result<T, Refusal>) -> Result<T, u32>
    ensures { result ≡ numbered returned }
{
    match returned {
        Ok(value) => Ok(value),
        Err(refusal) => Err(refusal as u32),
    }
}

// The check, from C: its number, and its rounds and eight fetch counts in `counts`, as far as that reaches.
#[unsafe(no_mangle)]
pub extern "C" fn planner_check(ticket: &[u8], stop: usize, sheet: &[u8], counts: &mut [u8]) -> u32
    ensures { let a = check_answer ticket.now stop sheet.now in
        (result ≡ number_of a)
        × (counts.new ≡ counts_written counts_numbers a counts.old)
        × Exact ticket.now stop sheet.now (checked_of a)
        × Unbeaten ticket.now stop (checked_of a) }
{
    counts::lay_checked(counts, numbered(planner::check(ticket, stop, sheet)))
}

// Planning, from C: its number; in `counts`, as far as that reaches, the mark (0 short, 1 sparing), the length of the part, and the rounds and eight
// fetch counts of the short and of the sparing plan.
#[unsafe(no_mangle)]
pub extern "C" fn planner_plan(
    ticket: &[u8],
    stop: usize,
    short: &mut [u8],
    sparing: &mut [u8],
    counts: &mut [u8],
) -> u32
    ensures { let a = plan_into ticket.now stop short.old sparing.old in
        (result ≡ number_of a)
        × (short.new ≡ short_after a short.old)
        × (sparing.new ≡ sparing_after a sparing.old)
        × (counts.new ≡ counts_written planning_numbers a counts.old)
        × Promised ticket.now stop a }
{
    let planned = numbered(planner::plan(ticket, stop, short, sparing));
    counts::lay_planned(counts, planned.ok().map(|p| p.mark), planned)
}

// The choice, from C: its number; in `counts`, as far as that reaches, which sheet is handed back (0 the first, 1 the second) and its length.
#[unsafe(no_mangle)]
pub extern "C" fn planner_choose(
    ticket: &[u8],
    stop: usize,
    first: &[u8],
    second: &[u8],
    counts: &mut [u8],
) -> u32
    ensures { let a = choose_answer ticket.now stop first.now second.now in
        (result ≡ number_of a)
        × (counts.new ≡ counts_written choice_numbers a counts.old)
        × Preferred ticket.now stop first.now second.now a }
{
    let chosen = numbered(planner::choose(ticket, stop, first, second));
    counts::lay_chosen(counts, chosen.ok().map(|c| c.which), chosen)
}
