// A ticket's bytes read, field by field, into a job by value; the job up to a stop.
#![tactic(auto)]

ghost use Rattle.std.specs.Prelude.{◌≡◌};
ghost use Rattle.ticket.specs.Meaning.{ticket_read, job_read_up_to, no_job, filled};
ghost use Rattle.ticket.specs.Rows.{disk_row, ref_row};

use bits::read::closed;
use carried::carried_part;
use entries::{Row, table_part};
use job::Job;
use refusal::Refusal;

// disks D: 1 to 8
const DISKS: Row<Refusal> = Row {
    width: 4,
    least: 1,
    limit: 9,
    refusal: Refusal::TicketDisks,
};

// buffer slots of a disk: 1 to 64
const SLOTS: Row<Refusal> = Row {
    width: 7,
    least: 1,
    limit: 65,
    refusal: Refusal::TicketSlots,
};

// blocks B: 1 to 512
const BLOCKS: Row<Refusal> = Row {
    width: 10,
    least: 1,
    limit: 513,
    refusal: Refusal::TicketBlocks,
};

// references N: 0 to 2048
const REFERENCES: Row<Refusal> = Row {
    width: 12,
    least: 0,
    limit: 2049,
    refusal: Refusal::TicketReferences,
};

// the disk of a block: 0 to D − 1
fn disk_row(disks: usize) -> Row<Refusal>
    ensures { result ≡ disk_row disks }
{
    Row {
        width: 3,
        least: 0,
        limit: disks,
        refusal: Refusal::TicketBlockDisk,
    }
}

// a reference, a block number: 0 to B − 1
fn ref_row(blocks: usize) -> Row<Refusal>
    ensures { result ≡ ref_row blocks }
{
    Row {
        width: 9,
        least: 0,
        limit: blocks,
        refusal: Refusal::TicketReference,
    }
}

// A job of zeros, into which a ticket is read.
const EMPTY: Job = Job {
    disks: 0,
    slots: [0; 8],
    blocks: 0,
    disk: [0; 512],
    count: 0,
    refs: [0; 2048],
    held: [0; 8],
    carried: [0; 512],
};

// A ticket read into the empty job, which is then the ticket's; or why the ticket is refused.
fn fill(t: &[u8], job: &mut Job) -> Result<(), Refusal>
    requires { job.old ≡ no_job }
    ensures { filled result job.new ≡ ticket_read t.now }
{
    let disks = table_part(t, 0, DISKS, SLOTS, &mut job.slots)?;
    let blocks = table_part(t, disks.next, BLOCKS, disk_row(disks.count), &mut job.disk)?;
    let references = table_part(
        t,
        blocks.next,
        REFERENCES,
        ref_row(blocks.count),
        &mut job.refs,
    )?;
    let slots = &job.slots[..disks.count];
    let disk = &job.disk[..blocks.count];
    let end = carried_part(
        t,
        references.next,
        slots,
        disk,
        &mut job.held,
        &mut job.carried,
    );
    let next = end?.next;
    if !closed(t, next) {
        return Err(Refusal::TicketClosing);
    }
    job.disks = disks.count;
    job.blocks = blocks.count;
    job.count = references.count;
    Ok(())
}

// A ticket's job, or why the ticket is refused.
pub fn read(t: &[u8]) -> Result<Job, Refusal>
    ensures { result ≡ ticket_read t.now }
{
    let mut whole = EMPTY;
    fill(t, &mut whole)?;
    Ok(whole)
}

// The job up to a stop, which is the ticket's with the stop as its count: "21, the stop is above N, tested after 8". It reads the ticket itself, as
// `read` does: a job from there would stand beside this one on the stack of each call.
pub fn read_up_to(t: &[u8], stop: usize) -> Result<Job, Refusal>
    ensures { result ≡ job_read_up_to t.now stop }
{
    let mut job = EMPTY;
    fill(t, &mut job)?;
    if job.count < stop {
        return Err(Refusal::Stop);
    }
    job.count = stop;
    Ok(job)
}
