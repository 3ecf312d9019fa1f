// The vectors' calls, made through the planner's public calls and that of `notes`. Standard input has a call on each line,
// `plan TICKET STOP ROOM ROOM`, `page TICKET STOP ROOM ROOM ROOM`, `check TICKET STOP SHEET`, `choose TICKET STOP SHEET SHEET`,
// `slots TICKET STOP DISK WANTED ROOM` or `note TEXT ROOM`, with bytes in hexadecimal and `-` for none; other lines are comments. Standard output has
// the same lines, each call followed by ` = ` and what it gives, in the vectors' form.
#![tactic(auto)]

ghost use Rattle.std.specs.Prelude.{◌≡◌, ◌<◌, ◌≤◌, IfOk, IfSome, length};

use playing::Counts;
use refusal::Refusal;
use returning::{Mark, Planned, Which};
use std::io;
use std::io::Read;

// What the lent buffers are filled with before a call.
const FILL: u8 = 165;

// What the entries of a lent slice are filled with before a call: no block.
const EMPTY: u16 = 65535;

fn write(rt: &HostRuntime, text: &[u8]) -> io::Result<()> {
    rt.write_all(text)
}

// The next byte of the input, if it has not ended; a byte 0 ends it too. It is written out as well, but for a line feed: the answer comes before
// that.
fn next(rt: &HostRuntime) -> io::Result<Option<u8>> {
    let mut one = [0u8; 1];
    if rt.stdin().read(&mut one)? == 0 {
        return Ok(None);
    }
    if one[0] != b'\n' {
        write(rt, &one)?;
    }
    Ok((one[0] != 0).then_some(one[0]))
}

// Reads on past the next byte `last`, or to the end.
fn skip(rt: &HostRuntime, last: u8) -> io::Result<()> {
    for _ in 0..u64::MAX {
        match next(rt)? {
            Some(b) if b != last => {}
            _ => break,
        }
    }
    Ok(())
}

// The value of a hexadecimal digit.
fn digit(b: u8) -> Option<u8>
    ensures { IfSome result (λ d. d < 16) }
{
    match b {
        b'0'..=b'9' => Some(b - b'0'),
        b'a'..=b'f' => Some(b - b'a' + 10),
        _ => None,
    }
}

// Reads a word of hexadecimal digits, or `-`, and the byte that ends it; the bytes that it put at the start of `out`.
fn read_bytes<'a>(rt: &HostRuntime, out: &'a mut [u8]) -> io::Result<&'a [u8]>
    ensures { IfOk result (λ s. length s.now ≤ length out.old) }
{
    for (n, byte) in out.iter_mut().enumerate() {
        let first = next(rt)?;
        let Some(high) = first.and_then(digit) else {
            if first == Some(b'-') {
                next(rt)?;
            }
            return Ok(&out[..n]);
        };
        *byte = high * 16 + next(rt)?.and_then(digit).unwrap_or(0);
    }
    Ok(out)
}

// Reads a decimal number of at most twenty digits, and the byte that ends it. A number above the largest is read as that.
fn read_number(rt: &HostRuntime) -> io::Result<usize> {
    let mut n: usize = 0;
    for _ in 0..21 {
        match next(rt)? {
            Some(b @ b'0'..=b'9') => n = n.saturating_mul(10).saturating_add(usize::from(b - b'0')),
            _ => break,
        }
    }
    Ok(n)
}

// A space and a number.
fn write_number(rt: &HostRuntime, n: usize) -> io::Result<()> {
    print!(rt; " {n}")
}

// The rounds and the eight fetch counts.
fn write_counts(rt: &HostRuntime, counts: Counts) -> io::Result<()> {
    write_number(rt, counts.rounds)?;
    let fetches = counts.fetches;
    for n in fetches {
        write_number(rt, usize::from(n))?;
    }
    Ok(())
}

// The start of a slice up to the last item that is not as it was filled: of a buffer the whole sheet, unless that ends in the byte `FILL`.
fn changed<'a, T: PartialEq>(lent: &'a [T], fill: &T) -> &'a [T] {
    let mut front = lent;
    while let [start @ .., last] = front {
        if last != fill {
            break;
        }
        front = start;
    }
    front
}

fn write_bytes(rt: &HostRuntime, s: &[u8]) -> io::Result<()> {
    for b in s {
        print!(rt; "{b:02x}")?;
    }
    Ok(())
}

// Which sheet was handed back, as a number, and the length of the slice. Its bytes are compared with those of that sheet.
fn write_part(rt: &HostRuntime, which: &[u8], part: &[u8], sheet: &[u8]) -> io::Result<()> {
    write(rt, which)?;
    write_number(rt, part.len())?;
    if part != sheet {
        write(rt, b" of other bytes")?;
    }
    Ok(())
}

// A filled buffer.
fn filled<const N: usize>() -> [u8; N]
    ensures { N ≡ length result }
{
    [FILL; N]
}

// What planning gave, and both buffers. After a refusal they are as they were filled and the part is empty, so nothing of them is written.
fn write_planned<'a>(
    rt: &HostRuntime,
    planned: Result<Planned, Refusal>,
    short: &'a [u8],
    sparing: &'a [u8],
) -> io::Result<()> {
    let part = planner::part(short, sparing, planned);
    let first = changed(short, &FILL);
    let second = changed(sparing, &FILL);
    match planned {
        Err(refusal) => {
            write_number(rt, refusal.number())?;
            write_bytes(rt, part)?;
            write_bytes(rt, first)?;
            write_bytes(rt, second)
        }
        Ok(p) => {
            match p.mark {
                Mark::Short => write_part(rt, b" 0 0", part, first)?,
                Mark::Sparing => write_part(rt, b" 0 1", part, second)?,
            }
            write(rt, b" |")?;
            write_counts(rt, p.short)?;
            write(rt, b" |")?;
            write_counts(rt, p.sparing)?;
            write(rt, b" | ")?;
            write_bytes(rt, first)?;
            write(rt, b" | ")?;
            write_bytes(rt, second)
        }
    }
}

// A line `plan`.
fn plan_line(rt: &HostRuntime) -> io::Result<()> {
    let mut bytes = [0u8; 4096];
    let ticket = read_bytes(rt, &mut bytes)?;
    let stop = read_number(rt)?;
    let mut short = filled::<40962>();
    let mut sparing = filled::<40962>();
    let a = read_number(rt)?.min(short.len());
    let b = read_number(rt)?.min(sparing.len());
    write(rt, b" =")?;
    let planned = planner::plan(ticket, stop, &mut short[..a], &mut sparing[..b]);
    write_planned(rt, planned, &short[..a], &sparing[..b])
}

// A line `page`. After a refusal the page's buffer is as it was filled, so nothing of it is written.
fn page_line(rt: &HostRuntime) -> io::Result<()> {
    let mut bytes = [0u8; 4096];
    let ticket = read_bytes(rt, &mut bytes)?;
    let stop = read_number(rt)?;
    let mut short = filled::<40962>();
    let mut sparing = filled::<40962>();
    // more bytes than the longest page
    let mut page = filled::<278630>();
    let a = read_number(rt)?.min(short.len());
    let b = read_number(rt)?.min(sparing.len());
    let c = read_number(rt)?.min(page.len());
    write(rt, b" =")?;
    let paged = planner::plan_with_page(
        ticket,
        stop,
        &mut short[..a],
        &mut sparing[..b],
        &mut page[..c],
    );
    write_planned(rt, paged.map(|p| p.planned), &short[..a], &sparing[..b])?;
    if let Ok(p) = paged {
        write(rt, b" |")?;
        write_number(rt, p.length)?;
        write(rt, b" ")?;
    }
    write_bytes(rt, changed(&page[..c], &FILL))
}

// A line `check`.
fn check_line(rt: &HostRuntime) -> io::Result<()> {
    let mut bytes = [0u8; 4096];
    let ticket = read_bytes(rt, &mut bytes)?;
    let stop = read_number(rt)?;
    let mut buffer = [0u8; 65536];
    let sheet = read_bytes(rt, &mut buffer)?;
    write(rt, b" =")?;
    match planner::check(ticket, stop, sheet) {
        Err(refusal) => write_number(rt, refusal.number()),
        Ok(counts) => {
            write(rt, b" 0")?;
            write_counts(rt, counts)
        }
    }
}

// A line `choose`. After a refusal neither sheet is handed back, so nothing more is written.
fn choose_line(rt: &HostRuntime) -> io::Result<()> {
    let mut bytes = [0u8; 4096];
    let ticket = read_bytes(rt, &mut bytes)?;
    let stop = read_number(rt)?;
    let mut buffer = [0u8; 65536];
    let first = read_bytes(rt, &mut buffer)?;
    let mut other = [0u8; 65536];
    let second = read_bytes(rt, &mut other)?;
    write(rt, b" =")?;
    let chosen = planner::choose(ticket, stop, first, second);
    let sheet = planner::chosen_sheet(first, second, chosen);
    match chosen {
        Err(refusal) => {
            write_number(rt, refusal.number())?;
            write_bytes(rt, sheet)
        }
        Ok(c) => match c.which {
            Which::First => write_part(rt, b" 0 0", sheet, first),
            Which::Second => write_part(rt, b" 0 1", sheet, second),
        },
    }
}

// Whether the first field of a sheet says so many rounds.
fn says_rounds(sheet: &[u8], rounds: usize) -> bool {
    match sheet {
        [a, b, ..] => usize::from(*a) * 16 + usize::from(*b) / 16 == rounds,
        _ => false,
    }
}

// A line `slots`. After a refusal, and where there is none, the buffer is as it was filled and the part is empty, so nothing of them is written.
fn slots_line(rt: &HostRuntime) -> io::Result<()> {
    skip(rt, b' ')?;
    let mut bytes = [0u8; 4096];
    let ticket = read_bytes(rt, &mut bytes)?;
    let stop = read_number(rt)?;
    let disk = read_number(rt)?;
    let wanted = read_number(rt)?;
    let mut short = filled::<40962>();
    let a = read_number(rt)?.min(short.len());
    write(rt, b" =")?;
    let least = planner::least_slots(ticket, stop, disk, wanted, &mut short[..a]);
    let part = planner::slots_part(&short[..a], least);
    let sheet = changed(&short[..a], &FILL);
    match least {
        Err(refusal) => write_number(rt, refusal.number())?,
        Ok(None) => write(rt, b" 0 none")?,
        Ok(Some(l)) => {
            write(rt, b" 0")?;
            write_number(rt, l.slots)?;
            write_part(rt, b"", part, sheet)?;
            write(rt, b" ")?;
            write_bytes(rt, sheet)?;
            if !says_rounds(part, l.counts.rounds) {
                write(rt, b" of other rounds")?;
            }
            return Ok(());
        }
    }
    write_bytes(rt, part)?;
    write_bytes(rt, sheet)
}

// A line `note`. At most 4,096 entries are lent, twice as many as a note can have references. An entry that was written past the count, or by a
// refused call, shows.
fn note_line(rt: &HostRuntime) -> io::Result<()> {
    skip(rt, b' ')?;
    let mut buffer = [0u8; 65536];
    let text = read_bytes(rt, &mut buffer)?;
    let mut lent = [EMPTY; 4096];
    let a = read_number(rt)?.min(lent.len());
    write(rt, b" =")?;
    match notes::read(text, &mut lent[..a]) {
        Err(refusal) => write_number(rt, refusal.number())?,
        Ok(count) => {
            write(rt, b" 0")?;
            write_number(rt, count)?;
        }
    }
    for entry in changed(&lent[..a], &EMPTY) {
        write_number(rt, usize::from(*entry))?;
    }
    Ok(())
}

// A line `plan` or `page`, after its first letter; the second tells them apart.
fn planning_line(rt: &HostRuntime) -> io::Result<()> {
    let second = next(rt)?;
    skip(rt, b' ')?;
    match second {
        Some(b'a') => page_line(rt),
        _ => plan_line(rt),
    }
}

// A line `check` or `choose`, after its first letter; the third tells them apart.
fn sheet_line(rt: &HostRuntime) -> io::Result<()> {
    next(rt)?;
    let third = next(rt)?;
    skip(rt, b' ')?;
    match third {
        Some(b'o') => choose_line(rt),
        _ => check_line(rt),
    }
}

// One line; whether there was one.
fn line(rt: &HostRuntime) -> io::Result<bool> {
    match next(rt)? {
        None => return Ok(false),
        Some(b'p') => planning_line(rt)?,
        Some(b'c') => sheet_line(rt)?,
        Some(b'n') => note_line(rt)?,
        Some(b's') => slots_line(rt)?,
        Some(_) => skip(rt, b'\n')?,
    }
    write(rt, b"\n")?;
    Ok(true)
}

fn main(rt: HostRuntime) -> io::Result<()> {
    for _ in 0..u64::MAX {
        if !line(&rt)? {
            break;
        }
    }
    Ok(())
}
