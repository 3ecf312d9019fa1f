// One action of a sheet, read for the job that the sheet is of. Document 01, 9 and 11 to 14 of "Numbers of a refused call"; 20 of request L3.
#![tactic(auto)]

ghost use Rattle.std.specs.Prelude.{◌≡◌, ◌≤◌, ◌<◌, ◌^◌, length};
ghost use Rattle.actions.specs.Actions.{named_after, discard_at, action_at};

use refusal::Refusal;

// One disk's buffer, as an action of the disk finds it: the disk of each block, the marks of the blocks in the buffers, the disk's number, and
// whether every slot is taken.
#[derive(Clone, Copy)]
pub struct Buffer<'a> {
    pub disk: &'a [u16],
    pub resident: &'a [bool; 512],
    pub d: usize,
    pub full: bool,
}

// A block that a field of a sheet names, as one disk sees it: B or more, or on another disk; one of the disk's, outside its buffer or in it.
#[derive(Clone, Copy)]
enum Named {
    Elsewhere,
    Missing(usize),
    Resident(usize),
}

// One action of a sheet: nothing; a fetched block; a fetched block (first) in place of a discarded one.
#[derive(Clone, Copy)]
pub enum Act {
    Idle,
    Fetch(usize),
    Replace(usize, usize),
}

// The block that the nine bits after the bit `at` name, as the disk sees it.
#[tactic(auto, unfolding(crate::specs::Actions::named_after))]
fn block_after(sheet: &[u8], at: usize, buffer: Buffer) -> Result<Named, Refusal>
    requires { (at < 2 ^ 31) × (length buffer.disk.now ≤ 512) }
    ensures { result ≡ named_after sheet.now at buffer.entry.disk.now buffer.entry.resident.now buffer.entry.d }
{
    let x = bits::read::field(sheet, at + 1, 9).ok_or(Refusal::SheetEnds)?;
    if buffer.disk.len() <= x || usize::from(buffer.disk[x]) != buffer.d {
        return Ok(Named::Elsewhere);
    }
    Ok(if buffer.resident[x] {
        Named::Resident(x)
    } else {
        Named::Missing(x)
    })
}

// What follows the fetched block x.
#[tactic(auto, unfolding(crate::specs::Actions::discard_at))]
fn discard(sheet: &[u8], at: usize, buffer: Buffer, x: usize) -> Result<Act, Refusal>
    requires { (at < 2 ^ 31) × (length buffer.disk.now ≤ 512) }
    ensures { result ≡ discard_at sheet.now at buffer.entry.disk.now buffer.entry.resident.now buffer.entry.d buffer.entry.full x }
{
    let discards = bits::read::field(sheet, at, 1).ok_or(Refusal::SheetEnds)?;
    if discards == 0 {
        return if buffer.full {
            Err(Refusal::SheetFull)
        } else {
            Ok(Act::Fetch(x))
        };
    }
    if !buffer.full {
        return Err(Refusal::SheetSlotEmpty);
    }
    match block_after(sheet, at, buffer)? {
        Named::Resident(z) => Ok(Act::Replace(x, z)),
        Named::Elsewhere | Named::Missing(_) => Err(Refusal::SheetDiscarded),
    }
}

// The action of a disk at the bit `at`.
#[tactic(auto, unfolding(crate::specs::Actions::action_at))]
pub fn action(sheet: &[u8], at: usize, buffer: Buffer) -> Result<Act, Refusal>
    requires { (at < 2 ^ 30) × (length buffer.disk.now ≤ 512) }
    ensures { result ≡ action_at sheet.now at buffer.entry.disk.now buffer.entry.resident.now buffer.entry.d buffer.entry.full }
{
    let fetches = bits::read::field(sheet, at, 1).ok_or(Refusal::SheetEnds)?;
    if fetches == 0 {
        return Ok(Act::Idle);
    }
    match block_after(sheet, at, buffer)? {
        Named::Elsewhere => Err(Refusal::SheetFetched),
        Named::Resident(_) => Err(Refusal::SheetResident),
        Named::Missing(x) => discard(sheet, at + 10, buffer, x),
    }
}
