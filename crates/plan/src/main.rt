// The program: it reads a ticket from standard input, plans it into two buffers that each hold the longest sheet, and prints the result.
#![tactic(auto)]

use std::io;

// The buffer has one byte more than the longest ticket, 3,090. A longer input is cut to these 3,091 bytes, and what is printed is what the whole
// input gives (`cut_printed` of `report`): reading stops at the first condition that it meets, every field that can be due lies in the first 3,090
// bytes, and past them only condition 8 looks, "or a byte follows", which one byte more answers as well as many. Where reading or writing fails, the
// program ends with that error.
fn main(rt: HostRuntime) -> io::Result<()> {
    let mut ticket = [0u8; 3091];
    let n = input::read_front(&mut rt.stdin(), &mut ticket)?;
    let mut text = [0u8; 128];
    let m = report::report(&ticket[..n], &mut text);
    rt.write_all(&text[..m])
}
