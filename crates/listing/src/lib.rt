// What the program `passes` prints for a note of passes: its references. Document 02, L6.
#![tactic(auto)]

ghost use Rattle.std.specs.Prelude.{◌≡◌, ◌≤◌, length};
ghost use Rattle.bits.specs.Bits.{laid};
ghost use Rattle.texts.specs.Texts.{Put};
ghost use Rattle.listing.specs.Passes.{note_in, Blocks, passes_line, passes_printed};

// The line of the references: their block numbers, separated by spaces, and a line feed.
fn put_blocks(out: &mut [u8], blocks: &[u16]) -> usize
    requires { Blocks blocks.now }
    ensures text { Put 0 (passes_line blocks.now) out.old out.new result }
    ensures few { result ≤ 8192 }
{
    let mut at = 0;
    for (i, block) in blocks.iter().enumerate() {
        if i > 0 {
            at = texts::put(out, at, b' ');
        }
        at = texts::put_decimal(out, at, *block as usize);
    }
    texts::put(out, at, b'\n')
}

// The note in the input: one line feed at its end is not part of it.
fn note_in(input: &[u8]) -> &[u8]
    ensures { result.now ≡ note_in input.now }
{
    match input {
        [note @ .., b'\n'] => note,
        _ => input,
    }
}

// The text of `passes` for its input, written as far as `out` reaches, and its length, at most 8,192 bytes: the line of the references, or of a
// refusal.
pub fn passes(input: &[u8], out: &mut [u8]) -> usize
    ensures bytes { out.new ≡ laid (passes_printed input.now) out.old }
    ensures count { result ≡ length (passes_printed input.now) }
    ensures few { result ≤ 8192 }
{
    let mut blocks = [0u16; 2048];
    match notes::read(note_in(input), &mut blocks) {
        Ok(count) => put_blocks(out, &blocks[..count]),
        Err(refusal) => texts::put_refusal(out, refusal.number()),
    }
}
