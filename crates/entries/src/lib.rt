// The parts of a ticket: a count and then that many entries.
#![tactic(auto)]

ghost use Rattle.std.specs.Prelude.{◌≡◌, ℕ, ◌+◌, ◌^◌, ◌≤◌, ◌<◌, length};
ghost use Rattle.entries.specs.Parts.{entry_at, Entries, of_row, fill, part_at, unread_refusal};

use bits::read::field;
use refusal::Refusal;

// A row of document 01's table of ticket fields, or a field of document 02's L9: its bits, its values, from `least` on and below `limit`, and what
// refuses others.
#[derive(Clone, Copy)]
pub struct Row<R> {
    pub width: usize,
    pub least: usize,
    pub limit: usize,
    pub refusal: R,
}

// Why a field is not read: the bytes end inside it, or its value is not among those of its row, which says what refuses it.
#[derive(Clone, Copy)]
pub enum Unread<R> {
    Ends,
    Outside(R),
}

impl From<Unread<Refusal>> for Refusal {
    ghost from_gives = { λ unread refusal. refusal ≡ unread_refusal unread };

    fn from(unread: Unread<Refusal>) -> Self {
        match unread {
            Unread::Ends => Refusal::TicketEnds,
            Unread::Outside(refusal) => refusal,
        }
    }
}

// A part of a ticket that was read: its count, and the bit after it.
#[derive(Clone, Copy)]
pub struct Part {
    pub count: usize,
    pub next: usize,
}

// The field at the bit `at`, tested as its row says.
pub fn checked<R: Copy>(t: &[u8], at: usize, row: Row<R>) -> Result<usize, Unread<R>>
    requires width_bound { row.width ≤ 12 }
    requires at_bound { at < 2 ^ 32 }
    ensures { result ≡ entry_at t.now at row }
{
    let Some(v) = field(t, at, row.width) else {
        return Err(Unread::Ends);
    };
    if v < row.least || row.limit <= v {
        return Err(Unread::Outside(row.refusal));
    }
    Ok(v)
}

// Entries, written from the place `from` on, up to the first that is refused: `entry` reads the one at a bit, given 1 above the value before it.
pub fn fill<E: Copy, F: Fn(usize, usize) -> Result<usize, E>>(
    entry: F,
    width: usize,
    at: usize,
    from: usize,
    count: usize,
    table: &mut [u16],
) -> Result<Part, E>
    ghost e: { Entries E }
    requires width_of { width ≡ e.width }
    requires width_bound { width ≤ 12 }
    requires at_bound { at < 65536 }
    requires count_bound { count ≤ 2048 }
    requires count_in_bounds { from + count ≤ length table.old }
    requires called { (b least : ℕ) → b < 2 ^ 32 → least ≤ 65536 → F.pre entry b least }
    requires gives { (b least : ℕ) (r : _) → b < 2 ^ 32 → least ≤ 65536 → F.post entry b least r → r ≡ e.entry b least }
    requires below { (b least v : ℕ) → e.entry b least ≡ Ok v → v < 65536 }
    ensures value { result ≡ (fill e count at 0 from count table.old).part }
    ensures table_after { table.new ≡ (fill e count at 0 from count table.old).table }
{
    let mut next = at;
    let mut least = 0;
    for i in from..from + count {
        let v = entry(next, least)?;
        table[i] = v as u16;
        least = v + 1;
        next += width;
    }
    Ok(Part { count, next })
}

// Entries of a row, read from the bit `at` on into a table, up to the first that is refused.
fn fill_table<R: Copy>(
    t: &[u8],
    at: usize,
    row: Row<R>,
    count: usize,
    table: &mut [u16],
) -> Result<Part, Unread<R>>
    requires width_bound { row.width ≤ 12 }
    requires limit_bound { row.limit ≤ 65536 }
    requires at_bound { at < 65536 }
    requires count_bound { count ≤ 2048 }
    requires count_in_bounds { count ≤ length table.old }
    ensures value { result ≡ (fill (of_row t.now row) count at 0 0 count table.old).part }
    ensures table_after { table.new ≡ (fill (of_row t.now row) count at 0 0 count table.old).table }
{
    let mut next = at;
    for i in 0..count {
        let v = checked(t, next, row)?;
        table[i] = v as u16;
        next += row.width;
    }
    Ok(Part { count, next })
}

// A count and then as many entries, read from the bit `at` on.
pub fn table_part<R: Copy>(
    t: &[u8],
    at: usize,
    counts: Row<R>,
    entries: Row<R>,
    table: &mut [u16],
) -> Result<Part, Unread<R>>
    requires width_bound { counts.width ≤ 12 }
    requires width_bound_2 { entries.width ≤ 12 }
    requires limit_bound { entries.limit ≤ 65536 }
    requires at_bound { at < 65000 }
    requires limit_bound_2 { counts.limit ≤ 2049 }
    requires limit_in_bounds { counts.limit ≤ length table.old + 1 }
    ensures value { result ≡ (part_at t.now at counts (of_row t.now entries) 0 table.old).part }
    ensures table_after { table.new ≡ (part_at t.now at counts (of_row t.now entries) 0 table.old).table }
{
    let count = checked(t, at, counts)?;
    fill_table(t, at + counts.width, entries, count, table)
}
