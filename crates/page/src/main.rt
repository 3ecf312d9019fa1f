// The program: it reads a ticket from standard input, plans it into buffers that hold the longest sheets and the longest page, and prints the page.
#![tactic(auto)]

ghost use Rattle.std.specs.Prelude.{◌≡◌, length};

use std::io;

// A buffer.
fn zeros<const N: usize>() -> [u8; N]
    ensures { N ≡ length result }
{
    [0; N]
}

// A longer input is cut to 3,091 bytes, one more than the longest ticket, as in `plan`; what is printed is what the whole input gives (`cut_page` of
// `page_text`).
fn main(rt: HostRuntime) -> io::Result<()> {
    let mut ticket = [0u8; 3091];
    let n = input::read_front(&mut rt.stdin(), &mut ticket)?;
    // the longest page
    let mut text = zeros::<278613>();
    let m = page_text::page(&ticket[..n], &mut text);
    rt.write_all(&text[..m])
}
