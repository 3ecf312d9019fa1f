// The pieces of a note in a text: numbers, the count after a part, and what stands between two items. Document 02, L6.
#![tactic(auto)]

ghost use Rattle.std.specs.Prelude.{◌≡◌, ◌+◌, ◌≤◌, ◌<◌, length, drop};
ghost use Rattle.pieces.specs.Pieces.{begins_with, digit_of, first_digit, with_digit, digits_from, malformed, count_at, joint_at};

use refusal::Refusal;

// Why a note is refused, and where that is met.
#[derive(Clone, Copy)]
pub struct Met {
    pub refusal: Refusal,
    pub at: usize,
}

impl From<Met> for Refusal {
    ghost from_gives = { λ m r. r ≡ m.refusal };

    fn from(met: Met) -> Refusal {
        met.refusal
    }
}

// A note that is malformed, which is met at `at`.
pub fn malformed(at: usize) -> Met
    ensures { result ≡ malformed at }
{
    Met {
        refusal: Refusal::NoteMalformed,
        at,
    }
}

// A number, and the place after it.
#[derive(Clone, Copy)]
pub struct Numeral {
    pub value: usize,
    pub at: usize,
}

// How many times a part is taken, and the place after that.
#[derive(Clone, Copy)]
pub struct Counted {
    pub times: usize,
    pub at: usize,
}

// What follows an item: another item of its side or another side, at a place, or the end of the note.
#[derive(Clone, Copy)]
pub enum Joint {
    Item(usize),
    Side(usize),
    End,
}

// Whether the character `c` stands at `at`.
pub fn is_at(text: &[u8], at: usize, c: u8) -> bool
    ensures { result ≡ begins_with c (drop at text.now) }
{
    text.get(at) == Some(&c)
}

// The digit that a character is, if it is one.
pub fn digit(c: u8) -> Option<usize>
    ensures { result ≡ digit_of c }
{
    c.is_ascii_digit().then(|| (c - b'0') as usize)
}

// The digit at `at`, if there is one.
pub fn digit_at(text: &[u8], at: usize) -> Option<usize>
    ensures { result ≡ first_digit (drop at text.now) }
{
    digit(*text.get(at)?)
}

// A number with the character `c` as one digit more, if it goes on with that.
fn with_digit(most: usize, value: usize, c: u8) -> Option<usize>
    requires { value ≤ 2048 }
    ensures { result ≡ with_digit most value c }
{
    let more = value * 10 + digit(c)?;
    (0 < value && more <= most).then_some(more)
}

// A number of which `first` has been read, up to `at`.
pub fn number_from(text: &[u8], at: usize, first: usize, most: usize) -> Numeral
    requires at_in_bounds { at ≤ length text.now }
    requires first_le_most { first ≤ most }
    requires most_bound { most ≤ 2048 }
    ensures { result ≡ digits_from most first at (drop at text.now) }
{
    let mut value = first;
    for next in at..text.len() {
        match with_digit(most, value, text[next]) {
            Some(more) => value = more,
            None => return Numeral { value, at: next },
        }
    }
    Numeral {
        value,
        at: text.len(),
    }
}

// The count after the part that ends before `at`.
pub fn count_after(text: &[u8], at: usize) -> Result<Counted, Met>
    ensures { result ≡ count_at text.now at }
{
    if !is_at(text, at, b'*') {
        return Ok(Counted { times: 1, at });
    }
    match digit_at(text, at + 1) {
        Some(first) if 0 < first => {
            let n = number_from(text, at + 2, first, 2048);
            Ok(Counted {
                times: n.value,
                at: n.at,
            })
        }
        _ => Err(malformed(at + 1)),
    }
}

// What follows the item that ends before `at`.
pub fn joint_after(text: &[u8], at: usize) -> Result<Joint, Met>
    ensures { result ≡ joint_at text.now at }
{
    if !is_at(text, at, b' ') {
        return if is_at(text, at, b')') || text.len() <= at {
            Ok(Joint::End)
        } else {
            Err(malformed(at))
        };
    }
    if !is_at(text, at + 1, b'|') {
        return Ok(Joint::Item(at + 1));
    }
    if !is_at(text, at + 2, b' ') {
        return Err(malformed(at + 2));
    }
    Ok(Joint::Side(at + 3))
}
