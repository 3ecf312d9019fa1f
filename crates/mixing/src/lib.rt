// References in lent slices: repeated, and two sides taken in turn; counts of references, and the place where a piece of a note is read.
// Document 02, L6.
#![tactic(auto)]

ghost use Rattle.std.specs.Prelude.{◌≡◌, ◌*◌, ◌≤◌, length, take, drop};
ghost use Rattle.grammar.specs.Note.{repeated, in_turn};
ghost use Rattle.mixing.specs.Room.{capped};

// Where a piece of a note is read: the place of its first character, how many parentheses may still be opened, and how many references stand before
// it in the line and on the left, 2049 for more than 2048.
#[derive(Clone, Copy)]
pub struct Place {
    pub at: usize,
    pub depth: usize,
    pub line: usize,
    pub left: usize,
}

// A count of references, 2049 for more than 2048.
pub fn cap(n: usize) -> usize
    ensures { result ≡ capped n }
{
    n.min(2049)
}

// The first `one` references of a part, repeated so that there are `times` of them, which fill the part.
pub fn repeat(part: &mut [u16], one: usize, times: usize)
    requires { (length part.old ≡ times * one) × (1 ≤ times) }
    ensures { part.new ≡ repeated times (take one part.old) }
{
    for i in one..part.len() {
        part[i] = part[i - one];
    }
}

// "take one reference from the left and one from the right in turn, and when one side is used up, the rest of the other". `left` begins with as many
// free entries as `right` has, and after them stands the left side. It takes as many turns as `right` has entries: the rest of a longer left side
// stands where it belongs.
pub fn mix(right: &[u16], left: &mut [u16])
    requires { length right.now ≤ length left.old }
    ensures { left.new ≡ in_turn (drop (length right.now) left.old) right.now }
{
    let r = right.len();
    let m = left.len() - r;
    for i in 0..r {
        if i < m {
            left[2 * i] = left[r + i];
            left[2 * i + 1] = right[i];
        } else {
            left[m + i] = right[i];
        }
    }
}
