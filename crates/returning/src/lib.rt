// What the calls return, by value, where they are not refused; which of two sheets is handed back; and whether bytes fit a buffer. Document 01, its
// calls; document 02, L1, L2 and L10.
#![tactic(auto)]

ghost use Rattle.std.specs.Prelude.{◌≡◌, take};
ghost use Rattle.model.specs.Calls.{which_for, sheet_handed};
ghost use Rattle.returning.specs.Returning.{which_as, handed_given, which_begins, mark_of, of_which, preference_of, fits};

use playing::Counts;
use refusal::Refusal;

// The mark of the sheet that is run.
#[derive(Clone, Copy)]
pub enum Mark {
    Short,
    Sparing,
}

// What planning gives: the mark; the length of the part with the chosen sheet; and for both plans the rounds and the fetches of each disk.
#[derive(Clone, Copy)]
pub struct Planned {
    pub mark: Mark,
    pub length: usize,
    pub short: Counts,
    pub sparing: Counts,
}

// What planning with a page gives: what planning gives, and the page's length.
#[derive(Clone, Copy)]
pub struct PlannedPage {
    pub planned: Planned,
    pub length: usize,
}

// Which of two sheets is handed back.
#[derive(Clone, Copy)]
pub enum Which {
    First,
    Second,
}

// What a choice gives: which sheet is handed back, and that sheet's length.
#[derive(Clone, Copy)]
pub struct Chosen {
    pub which: Which,
    pub length: usize,
}

// What a call for the least slots gives where some count is enough: the count, and the length, the rounds and the fetches of the short sheet for it.
#[derive(Clone, Copy)]
pub struct LeastSlots {
    pub slots: usize,
    pub length: usize,
    pub counts: Counts,
}

impl Which {
    // Of what belongs to the first sheet and to the second, that of the sheet handed back.
    pub fn of<T: Copy>(self, first: T, second: T) -> T
        ensures { result ≡ of_which self first second }
    {
        match self {
            Which::First => first,
            Which::Second => second,
        }
    }
}

// The mark of the plan whose sheet is handed back: planning's first sheet is the short one, its second the sparing one.
impl From<Which> for Mark {
    ghost from_gives = { λ which mark. mark ≡ mark_of which };

    fn from(which: Which) -> Self {
        which.of(Mark::Short, Mark::Sparing)
    }
}

// "The second is handed back if it takes no more rounds than the first, otherwise the first": by the rounds of two sheets. Planning's first is the
// short sheet, its second the sparing one.
#[tactic(auto, unfolding(model::specs::Calls::which_for))]
pub fn which_for(first: usize, second: usize) -> Which
    ensures { result ≡ which_as (which_for first second) }
{
    if second <= first {
        Which::Second
    } else {
        Which::First
    }
}

// What two sheets of m and n bytes that pass in a and b rounds give.
#[tactic(auto, using(crate::proofs::TwoSheets::two_chosen), unfolding(crate::specs::Returning::preference_of))]
pub fn preference(a: usize, m: usize, b: usize, n: usize) -> Chosen
    ensures { result ≡ preference_of a m b n }
{
    let which = which_for(a, b);
    Chosen {
        which,
        length: which.of(m, n),
    }
}

// The first n bytes of a slice, or all that it has.
pub fn front<'a>(lent: &'a [u8], n: usize) -> &'a [u8]
    ensures bytes { result.now ≡ take n lent.now }
    ensures buffer { result.ref_ptr ≡ lent.entry.ref_ptr }
{
    &lent[..n.min(lent.len())]
}

// The chosen one of two slices: its first n bytes, or all that it has; of neither no byte.
#[tactic(auto, using(crate::proofs::TwoSheets::given_two), unfolding(model::specs::Calls::sheet_handed))]
pub fn handed_slice<'a>(
    which: Option<Which>,
    n: usize,
    first: &'a [u8],
    second: &'a [u8],
) -> &'a [u8]
    ensures bytes { result.now ≡ sheet_handed (handed_given which) n first.now second.now }
    ensures buffer { result.ref_ptr ≡ which_begins which first.entry.ref_ptr second.entry.ref_ptr }
{
    match which {
        Some(which) => front(which.of(first, second), n),
        None => front(first, 0),
    }
}

// n bytes for a buffer of so many: where they do not fit, the refusal that says so.
pub fn fits(n: usize, room: usize, refusal: Refusal) -> Result<(), Refusal>
    ensures { result ≡ fits n room refusal }
{
    if room < n {
        return Err(refusal);
    }
    Ok(())
}
