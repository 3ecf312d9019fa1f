// One plan, from any buffers and their desk: its rounds, its fetches, its sheet and the reasons for its actions.
#![tactic(auto)]

ghost use Rattle.std.specs.Prelude.{◌≡◌, ◌≤◌, replicate};
ghost use Rattle.bits.specs.Bits.{bytes, laid};
ghost use Rattle.model.specs.Sheet.{sheet_bits};
ghost use Rattle.driving.specs.Driving.{PlanInput, PlanState, lent, no_acts, driven_from, reasons_from, end_from, totals_of};
ghost use Rattle.driving.specs.Sized.{Sized, Kept};

use acting::Input;
use choosing::Choice;
use lookup::Desk;
use playing::Buffers;
use writing::Action;

// The rounds written and the fetches of a plan, and how many bits its sheet has.
#[derive(Clone, Copy)]
pub struct Totals {
    pub rounds: usize,
    pub fetches: [u16; 8],
    pub bits: usize,
}

// Where a plan is written: its sheet, and the reasons for its actions.
#[derive(Drop)]
pub struct Output<'a> {
    pub sheet: &'a mut [u8],
    pub reasons: &'a mut [u8],
}

// A plan from any buffers and their desk, `most` rounds of it at most, written as a sheet into a buffer of zeros; and the reasons, a byte for each
// action, as far as their slice reaches. This function alone holds the playing state. Its loops are nested as document 01 has them; those over rounds
// and over references end by the next read, and so are no ranges.
pub fn drive(
    buffers: Buffers,
    most: usize,
    input: Input,
    desk: &mut Desk,
    out: &mut Output,
) -> Totals
    requires { (let k : PlanInput = lent input in
        Sized k × Kept k (record { buffers = buffers; desk = desk.old; acts = no_acts }) × (most ≤ 2048) × (out.old.sheet.now ≡ replicate 40968 0)) }
    ensures driven { (let k : PlanInput = lent input.entry in
        let p : PlanState = record { buffers = buffers; desk = desk.old; acts = no_acts } in
        (result ≡ totals_of (driven_from k most p)) × (out.new.sheet.now ≡ bytes 40968 (sheet_bits (driven_from k most p)))
        × (out.new.reasons.now ≡ laid (reasons_from k most p) out.old.reasons.now)
        × (desk.new ≡ (end_from k most p).desk)) }
    ensures same_slices { (out.new.sheet.ghost_name ≡ out.old.sheet.ghost_name) × (out.new.reasons.ghost_name ≡ out.old.reasons.ghost_name) }
{
    let refs = input.refs;
    let disks = input.slots.len();
    let mut b = buffers;
    let mut acts = [Action::IDLE; 8];
    let mut fetches = [0u16; 8];
    let mut rounds = 0;
    let mut at = 12;
    'rounds: while rounds < most && b.next < refs.len() {
        'disks: for d in 0..disks {
            let c = choosing::rule_choice(
                d,
                b.held[d] as usize,
                input.slots[d] as usize,
                refs,
                input.rule,
                desk,
            );
            acts[d] = acting::note(c, desk);
            match c {
                Choice::IntoEmpty(u, place) => {
                    b = b.fetch(u, d);
                    acting::take_in(d, u, place, input, &b.resident, desk);
                }
                Choice::OverMinBlock(u, place) => {
                    b = b.replace(desk.held_at(place), u, d);
                    acting::take_in(d, u, place, input, &b.resident, desk);
                }
                Choice::MinBlockSooner | Choice::Waits | Choice::NoneMissing => {}
            }
        }
        let round = &acts[..disks];
        at = writing::put_round(out.sheet, at, round);
        writing::tally(&mut fetches, round);
        writing::lay_reasons(out.reasons, rounds * disks, round);
        rounds += 1;
        'references: while b.next < refs.len() {
            let p = b.next;
            if !b.resident[refs[p] as usize] {
                continue 'rounds;
            }
            desk.read(input.steps, refs, p);
            b = b.consume();
        }
    }
    writing::put_header(out.sheet, rounds);
    Totals {
        rounds,
        fetches,
        bits: at,
    }
}
