// The program: it reads a note of passes from standard input, one line feed at its end not part of it, and prints the references.
#![tactic(auto)]

ghost use Rattle.std.specs.Prelude.{◌≡◌, length};

use std::io;

// A buffer.
fn zeros<const N: usize>() -> [u8; N]
    ensures { N ≡ length result }
{
    [0; N]
}

// An input longer than the buffer is cut to its first 1,048,576 bytes and is refused, as the whole is: the longest note has 147,453. The number can
// be another then (`cut_passes` of `listing`). The longest text, of 2,048 references with three digits each, has 8,192 bytes.
fn main(rt: HostRuntime) -> io::Result<()> {
    let mut note = zeros::<1048576>();
    let n = input::read_front(&mut rt.stdin(), &mut note)?;
    let mut text = [0u8; 8192];
    let m = listing::passes(&note[..n], &mut text);
    rt.write_all(&text[..m])
}
