// The blocks carried in, which follow a ticket's references: for each disk a count and then that many block numbers.
#![tactic(auto)]

ghost use Rattle.std.specs.Prelude.{◌≡◌, ◌+◌, ◌*◌, ◌^◌, ◌≤◌, ◌<◌, length};
ghost use Rattle.bits.specs.Bits.{Below};
ghost use Rattle.carried.specs.Carried.{carried_row, block_row, block_at, disk_part, carried_parts, Gives};

use entries::{Part, Row, Unread, checked, fill};
use refusal::Refusal;

// how many blocks are carried in on a disk: 0 to its slots
fn carried_row(slots: usize) -> Row<Refusal>
    requires { slots ≤ 64 }
    ensures { result ≡ carried_row slots }
{
    Row {
        width: 7,
        least: 0,
        limit: slots + 1,
        refusal: Refusal::CarriedCount,
    }
}

// a block that is carried in: above the one before it, and up to B − 1
fn block_row(least: usize, blocks: usize) -> Row<Refusal>
    ensures { result ≡ block_row least blocks }
{
    Row {
        width: 9,
        least,
        limit: blocks,
        refusal: Refusal::CarriedBlock,
    }
}

// The number of a block on disk d at the bit `at`, `least` or more. `disk` has the disk of each block.
fn block_at(
    t: &[u8],
    at: usize,
    least: usize,
    disk: &[u16],
    d: usize,
) -> Result<usize, Unread<Refusal>>
    requires { at < 2 ^ 32 }
    ensures { result ≡ block_at t.now disk.now d at least }
{
    let b = checked(t, at, block_row(least, disk.len()))?;
    if disk[b] as usize != d {
        return Err(Unread::Outside(Refusal::CarriedBlock));
    }
    Ok(b)
}

// The blocks carried in on disk d, which has so many slots: their count, and then their numbers, read from the bit `at` on.
fn disk_part(
    t: &[u8],
    at: usize,
    disk: &[u16],
    d: usize,
    slots: usize,
    carried: &mut [u16; 512],
) -> Result<Part, Unread<Refusal>>
    requires at_bound { at < 65000 }
    requires disk_len_bound { length disk.now ≤ 512 }
    requires d_bound { d < 8 }
    requires slots_bound { slots ≤ 64 }
    ensures value { result ≡ (disk_part t.now disk.now at d slots carried.old).part }
    ensures carried_after { carried.new ≡ (disk_part t.now disk.now at d slots carried.old).table }
{
    let count = checked(t, at, carried_row(slots))?;
    fill(
        |at, least| block_at(t, at, least, disk, d),
        9,
        at + 7,
        d * 64,
        count,
        carried,
    )
}

// The blocks carried in on all disks, in order, read from the bit `at` on, up to the first disk whose part is refused: how many disks there are, and
// the bit after their blocks.
pub fn carried_part(
    t: &[u8],
    at: usize,
    slots: &[u16],
    disk: &[u16],
    held: &mut [u8; 8],
    carried: &mut [u16; 512],
) -> Result<Part, Refusal>
    requires { (at < 60000) × (length slots.now ≤ 8) × Below 65 slots.now × (length disk.now ≤ 512) }
    ensures { Gives (carried_parts t.now disk.now at 0 slots.now held.old carried.old)
        result held.new carried.new }
{
    let mut next = at;
    for (d, &slots) in slots.iter().enumerate() {
        let part = disk_part(t, next, disk, d, slots as usize, carried)?;
        held[d] = part.count as u8;
        next = part.next;
    }
    Ok(Part {
        count: slots.len(),
        next,
    })
}
