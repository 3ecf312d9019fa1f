// Texts put one after another into a lent slice, as the programs print them. Each is written into `out` from the byte `at` on, as far as `out`
// reaches, and the place after it is given. Document 01: "A refusal prints `refused`, a space and the number. Every line ends in a line feed."
#![tactic(auto)]

ghost use Rattle.std.specs.Prelude.{[], ◌∷◌, ◌≤◌, ◌<◌, length};
ghost use Rattle.model.specs.Text.{decimal};
ghost use Rattle.texts.specs.Texts.{Put, line_end, refusal_line};

// One byte, by its index: what is written through a slice's `get_mut` a proof does not see.
#[tactic(auto, using(crate::proofs::Laws::put_past, crate::proofs::Laws::put_byte))]
pub fn put(out: &mut [u8], at: usize, byte: u8) -> usize
    requires { at < 65536 }
    ensures { Put at (byte ∷ []) out.old out.new result }
{
    if at < out.len() {
        out[at] = byte;
    }
    at + 1
}

// A string.
pub fn put_word(out: &mut [u8], at: usize, word: &[u8]) -> usize
    requires at_bound { at < 256 }
    requires word_len_bound { length word.now < 256 }
    ensures { Put at word.now out.old out.new result }
{
    let mut next = at;
    for byte in word {
        next = put(out, next, *byte);
    }
    next
}

// A number in decimal digits.
pub fn put_decimal(out: &mut [u8], at: usize, n: usize) -> usize
    requires at_bound { at < 65000 }
    requires n_bound { n < 65536 }
    ensures { Put at (decimal n) out.old out.new result }
{
    if n < 10 {
        return put(out, at, (48 + n) as u8);
    }
    let next = put_decimal(out, at, n / 10);
    put(out, next, (48 + n % 10) as u8)
}

// The end of a line: a space, a number and a line feed.
pub fn put_end(out: &mut [u8], at: usize, n: usize) -> usize
    requires at_bound { at < 255 }
    requires n_bound { n < 65536 }
    ensures { Put at (line_end n) out.old out.new result }
{
    let number = put(out, at, b' ');
    let next = put_decimal(out, number, n);
    put(out, next, b'\n')
}

// The line of a refusal, at the start of `out`: at most 14 bytes.
pub fn put_refusal(out: &mut [u8], number: usize) -> usize
    requires { number < 65536 }
    ensures text { Put 0 (refusal_line number) out.old out.new result }
    ensures few { result ≤ 14 }
{
    let at = put_word(out, 0, b"refused");
    put_end(out, at, number)
}
