// What the calls write for C: the numbers of a check that passes, of a planning call and of a choice, laid into a lent slice, 16 bits each and most
// significant byte first, as far as that reaches; and the call's number, which is returned. A refusal is given as its number, whatever that is, and
// writes nothing. Document 01, its calls; document 02, L1.
#![tactic(auto, using(crate::proofs::Laying::laid_first, crate::proofs::Laying::laid_two, crate::proofs::Laying::laid_twenty))]

ghost use Rattle.std.specs.Prelude.{◌≡◌, ◌*◌, ◌≤◌};
ghost use Rattle.bits.specs.Fields.{laid_at};
ghost use Rattle.model.specs.Calls.{halves};
ghost use Rattle.counts.specs.Counts.{number_in, mark_number, which_number, checked_numbers, planned_numbers, chosen_numbers, counts_laid};

use playing::Counts;
use returning::{Chosen, Mark, Planned, Which};

// The mark as a number: 0 short, 1 sparing, and 0 where there is none.
fn mark_number(mark: Option<Mark>) -> usize
    ensures { result ≡ mark_number mark }
{
    match mark {
        None | Some(Mark::Short) => 0,
        Some(Mark::Sparing) => 1,
    }
}

// Which sheet is handed back as a number: 0 the first, 1 the second, and 0 where it is neither.
fn which_number(which: Option<Which>) -> usize
    ensures { result ≡ which_number which }
{
    match which {
        Some(which) => which.of(0, 1),
        None => 0,
    }
}

// Rounds and eight fetch counts, written from the number `from` on.
fn lay_counts(counts: &mut [u8], from: usize, taken: Counts)
    requires { from ≤ 11 }
    ensures { counts.new ≡ laid_at (from * 2) (halves (checked_numbers taken)) counts.old }
{
    bits::lay16(counts, from, taken.rounds);
    for (d, fetches) in taken.fetches.iter().enumerate() {
        bits::lay16(counts, from + 1 + d, *fetches as usize);
    }
}

// What a check gave: its number; where it passed, its rounds and eight fetch counts are written.
pub fn lay_checked(counts: &mut [u8], checked: Result<Counts, u32>) -> u32
    ensures { (result ≡ number_in checked) × (counts.new ≡ counts_laid checked_numbers checked counts.old) }
{
    match checked {
        Ok(taken) => {
            lay_counts(counts, 0, taken);
            0
        }
        Err(number) => number,
    }
}

// What planning gave: its number; where it was not refused, the mark that is given beside it (0 short, 1 sparing, 0 none), the length of the part, and
// the rounds and eight fetch counts of the short and of the sparing plan are written.
pub fn lay_planned(counts: &mut [u8], mark: Option<Mark>, planned: Result<Planned, u32>) -> u32
    ensures { (result ≡ number_in planned) × (counts.new ≡ counts_laid (planned_numbers mark) planned counts.old) }
{
    match planned {
        Ok(p) => {
            bits::lay16(counts, 0, mark_number(mark));
            bits::lay16(counts, 1, p.length);
            lay_counts(counts, 2, p.short);
            lay_counts(counts, 11, p.sparing);
            0
        }
        Err(number) => number,
    }
}

// What a choice gave: its number; where it was not refused, the sheet that is given beside it (0 the first, 1 the second, 0 neither) and the choice's
// length are written.
pub fn lay_chosen(counts: &mut [u8], which: Option<Which>, chosen: Result<Chosen, u32>) -> u32
    ensures { (result ≡ number_in chosen) × (counts.new ≡ counts_laid (chosen_numbers which) chosen counts.old) }
{
    match chosen {
        Ok(c) => {
            bits::lay16(counts, 0, which_number(which));
            bits::lay16(counts, 1, c.length);
            0
        }
        Err(number) => number,
    }
}
