// What the program `page` prints for a ticket. Document 02, L2: the page; L5: the stop, which "is N". Document 01: "A refusal prints `refused`, a
// space and the number."
#![tactic(auto)]

ghost use Rattle.std.specs.Prelude.{◌≡◌, length};
ghost use Rattle.bits.specs.Bits.{laid};
ghost use Rattle.model.specs.Ticket.{ticket_of};
ghost use Rattle.model.specs.Calls.{references_of, page_answer, page_after};
ghost use Rattle.page_text.specs.PageText.{page_printed, length_as};

use refusal::Refusal;

// The page of a ticket, with the stop N, planned into `out`; its length.
fn planned_page(ticket: &[u8], out: &mut [u8]) -> Result<usize, Refusal>
    ensures { let t = ticket.now in
        let a = page_answer t (references_of (ticket_of t)) 40962 40962 (length out.old) in
        (result ≡ length_as a) × (out.new ≡ page_after a out.old) }
{
    let mut short = [0u8; 40962];
    let mut sparing = [0u8; 40962];
    let job = ticket::read(ticket)?;
    let paged = planner::plan_with_page(ticket, job.count, &mut short, &mut sparing, out)?;
    Ok(paged.length)
}

// The text of `page` for a ticket, written as far as `out` reaches, and its length: the page, which is planned into `out`, or the line of a refusal.
pub fn page(ticket: &[u8], out: &mut [u8]) -> usize
    ensures bytes { out.new ≡ laid (page_printed (length out.old) ticket.now) out.old }
    ensures count { result ≡ length (page_printed (length out.old) ticket.now) }
{
    match planned_page(ticket, out) {
        Ok(length) => length,
        Err(refusal) => texts::put_refusal(out, refusal.number()),
    }
}
