// The public calls: planning and the part with the sheet to run, planning with a page, the check, the choice between two sheets and the sheet chosen,
// the least slots of a disk and the sheet for them. Document 01, its calls; document 02, L1 to L3, L10, and
// L5: all calls take a stop, "the number of references that count", and any number may be given; 21 if it is above N. L7: rounds are those charged,
// in all that is returned. L8: planning promises how many rounds the sparing plan takes at most. L9: a ticket has the blocks carried in, from which
// plans and sheets start.
#![tactic(auto)]

ghost use Rattle.std.specs.Prelude.{◌≡◌, take};
ghost use Rattle.model.specs.Calls.{short_after, sparing_after, returned, plan_given, page_after, check_answer, choose_answer, returned_choice};
ghost use Rattle.slot_counts.specs.Slots.{slots_after, returned_slots};
ghost use Rattle.checking.specs.Checking.{checked_of};
ghost use Rattle.returning.specs.Returning.{planned_as, planned_page_as, chosen_as, least_as};
ghost use Rattle.planner.specs.Planner.{plan_into, page_into, slots_into, part_given, part_begins, sheet_given, sheet_begins, slots_length, Unbeaten, Exact, Promised, Preferred, LeastGiven};

use playing::Counts;
use refusal::Refusal;
use returning::{Chosen, LeastSlots, Planned, PlannedPage};

// Planning: a ticket, a stop, and the lent buffers for the short and the sparing sheet. What it returns, both buffers afterwards, and what is
// promised.
#[tactic(auto, using(crate::proofs::Promised::plan_stops, crate::proofs::Promised::short_stops, crate::proofs::Promised::sparing_stops, crate::proofs::Promised::promised))]
pub fn plan(
    ticket: &[u8],
    stop: usize,
    short: &mut [u8],
    sparing: &mut [u8],
) -> Result<Planned, Refusal>
    ensures { let a = plan_into ticket.now stop short.old sparing.old in
        (result ≡ planned_as (returned a))
        × (short.new ≡ short_after a short.old)
        × (sparing.new ≡ sparing_after a sparing.old)
        × Promised ticket.now stop a }
{
    let job = ticket::read_up_to(ticket, stop)?;
    handing::plan_job(job, short, sparing)
}

// "The part of one of the two lent buffers that holds the chosen sheet": of the buffers of a planning call and what that call gave. After a refusal
// it is empty; of other buffers it is as many bytes as there are, at most the part's length.
#[tactic(auto, using(returning::proofs::TwoSheets::part_chosen, returning::proofs::TwoSheets::two_marked))]
pub fn part<'a>(short: &'a [u8], sparing: &'a [u8], planned: Result<Planned, Refusal>) -> &'a [u8]
    ensures bytes { result.now ≡ part_given planned short.now sparing.now }
    ensures buffer { result.ref_ptr ≡ part_begins planned short.entry.ref_ptr sparing.entry.ref_ptr }
{
    match planned {
        Ok(p) => {
            let which = returning::which_for(p.short.rounds, p.sparing.rounds);
            returning::handed_slice(Some(which), p.length, short, sparing)
        }
        Err(_) => &sparing[..0],
    }
}

// Planning with a page (L2): a ticket, a stop, and the lent buffers for the short and the sparing sheet and for the page of the plan handed back.
// What it returns, the three buffers afterwards, and what is promised of planning.
#[tactic(auto, using(crate::proofs::Promised::page_stops, crate::proofs::Promised::page_short_stops, crate::proofs::Promised::page_sparing_stops, crate::proofs::Promised::page_page_stops, crate::proofs::Promised::page_promised))]
pub fn plan_with_page(
    ticket: &[u8],
    stop: usize,
    short: &mut [u8],
    sparing: &mut [u8],
    page: &mut [u8],
) -> Result<PlannedPage, Refusal>
    ensures { let a = page_into ticket.now stop short.old sparing.old page.old in
        (result ≡ planned_page_as a)
        × (short.new ≡ short_after (plan_given a) short.old)
        × (sparing.new ≡ sparing_after (plan_given a) sparing.old)
        × (page.new ≡ page_after a page.old)
        × Promised ticket.now stop (plan_given a) }
{
    let job = ticket::read_up_to(ticket, stop)?;
    page_planning::page_job(job, short, sparing, page)
}

// The check: a ticket, a stop and a sheet. What it returns, and what is promised.
#[tactic(auto, using(crate::proofs::Laws::check_stops, crate::proofs::Laws::exact_stops, crate::proofs::Laws::unbeaten_stops))]
pub fn check(ticket: &[u8], stop: usize, sheet: &[u8]) -> Result<Counts, Refusal>
    ensures { let a = check_answer ticket.now stop sheet.now in
        (result ≡ checked_of a)
        × Exact ticket.now stop sheet.now result
        × Unbeaten ticket.now stop result }
{
    let job = &ticket::read_up_to(ticket, stop)?;
    checking::check(job, sheet)
}

// The choice between two sheets for a ticket and a stop, whoever drew them up: "both are checked, the first before the second, and a failure gives
// the check's number". What it returns, and what is promised. `chosen_sheet` hands back the sheet.
#[tactic(auto, using(crate::proofs::TwoSheets::choose_stops, crate::proofs::TwoSheets::preferred))]
pub fn choose(ticket: &[u8], stop: usize, first: &[u8], second: &[u8]) -> Result<Chosen, Refusal>
    ensures { let a = choose_answer ticket.now stop first.now second.now in
        (result ≡ chosen_as (returned_choice a))
        × Preferred ticket.now stop first.now second.now a }
{
    let job = &ticket::read_up_to(ticket, stop)?;
    let a = checking::check(job, first)?;
    let b = checking::check(job, second)?;
    Ok(returning::preference(a.rounds, first.len(), b.rounds, second.len()))
}

// The sheet that a choice hands back: of the two sheets and what the choice gave. After a refusal it is empty; of other slices it is as many bytes as
// there are, at most the sheet's length.
#[tactic(auto, unfolding(model::specs::Calls::sheet_handed))]
pub fn chosen_sheet<'a>(
    first: &'a [u8],
    second: &'a [u8],
    chosen: Result<Chosen, Refusal>,
) -> &'a [u8]
    ensures bytes { result.now ≡ sheet_given chosen first.now second.now }
    ensures buffer { result.ref_ptr ≡ sheet_begins chosen first.entry.ref_ptr second.entry.ref_ptr }
{
    match chosen {
        Ok(c) => returning::handed_slice(Some(c.which), c.length, first, second),
        Err(_) => returning::handed_slice(None, 0, first, second),
    }
}

// How many slots a disk needs (L10): a ticket, a stop, the disk, the wanted rounds, any number, and a lent buffer for the short sheet. What it
// returns, the buffer afterwards, and what is promised. `slots_part` hands out the sheet.
#[tactic(auto, using(crate::proofs::Slots::slots_stops, crate::proofs::Slots::lent_stops, crate::proofs::Slots::least_promised))]
pub fn least_slots(
    ticket: &[u8],
    stop: usize,
    disk: usize,
    wanted: usize,
    short: &mut [u8],
) -> Result<Option<LeastSlots>, Refusal>
    ensures { let a = slots_into ticket.now stop disk wanted short.old in
        (result ≡ least_as (returned_slots a))
        × (short.new ≡ slots_after a short.old)
        × LeastGiven ticket.now stop disk wanted a }
{
    let job = ticket::read_up_to(ticket, stop)?;
    if job.disks <= disk {
        return Err(Refusal::SlotsDisk);
    }
    least::find(job, disk, wanted, short)
}

// The part with the sheet: of the buffer of a call for the least slots and what that call gave. After a refusal, or where there is no count, it is
// empty; of another buffer it is as many bytes as there are, at most the sheet's length.
pub fn slots_part<'a>(short: &'a [u8], least: Result<Option<LeastSlots>, Refusal>) -> &'a [u8]
    ensures bytes { result.now ≡ take (slots_length least) short.now }
    ensures buffer { result.ref_ptr ≡ short.entry.ref_ptr }
{
    match least {
        Ok(Some(found)) => returning::front(short, found.length),
        _ => &short[..0],
    }
}
