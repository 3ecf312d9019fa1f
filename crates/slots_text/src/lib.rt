// What the program `slots` prints for a ticket. Document 02, L10: the least slots; L5: the stop, which "is N". Document 01: "A refusal prints
// `refused`, a space and the number. Every line ends in a line feed."
#![tactic(auto)]

ghost use Rattle.std.specs.Prelude.{◌≡◌, ◌≤◌, length};
ghost use Rattle.bits.specs.Bits.{laid};
ghost use Rattle.model.specs.Ticket.{ticket_of};
ghost use Rattle.model.specs.Calls.{references_of};
ghost use Rattle.slot_counts.specs.Slots.{slots_answer, returned_slots};
ghost use Rattle.returning.specs.Returning.{least_as};
ghost use Rattle.texts.specs.Texts.{Put};
ghost use Rattle.slots_text.specs.SlotsText.{slots_printed};
ghost use Rattle.slots_text.specs.Text.{least_text, Few};

use refusal::Refusal;
use returning::LeastSlots;

// What a call for the least slots gives, as text.
#[tactic(auto, unfolding(crate::specs::Text::least_text))]
fn put_least(out: &mut [u8], least: Result<Option<LeastSlots>, Refusal>) -> usize
    requires { Few least }
    ensures text { Put 0 (least_text least) out.old out.new result }
    ensures few { result ≤ 14 }
{
    match least {
        Err(refusal) => texts::put_refusal(out, refusal.number()),
        // two matches: over one with `Ok(None)` and `Ok(Some(..))` the proof did not close
        Ok(count) => match count {
            None => texts::put_word(out, 0, b"none\n"),
            Some(found) => {
                let at = texts::put_word(out, 0, b"slots");
                texts::put_end(out, at, found.slots)
            }
        },
    }
}

// The least slots of a ticket's disk, with the stop N.
fn least(ticket: &[u8], disk: usize, wanted: usize) -> Result<Option<LeastSlots>, Refusal>
    ensures { let t = ticket.now in
        result ≡ least_as (returned_slots (slots_answer t (references_of (ticket_of t)) disk wanted 40962)) }
{
    let mut short = [0u8; 40962];
    let job = ticket::read(ticket)?;
    planner::least_slots(ticket, job.count, disk, wanted, &mut short)
}

// The text of `slots` for a ticket, a disk and the wanted rounds, written as far as `out` reaches, and its length, at most 14 bytes.
pub fn slots(ticket: &[u8], disk: usize, wanted: usize, out: &mut [u8]) -> usize
    ensures bytes { out.new ≡ laid (slots_printed ticket.now disk wanted) out.old }
    ensures count { result ≡ length (slots_printed ticket.now disk wanted) }
    ensures few { result ≤ 14 }
{
    put_least(out, least(ticket, disk, wanted))
}
