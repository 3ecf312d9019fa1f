// A sheet read and played action by action. Document 01, "Playing a round", and 9, 10, 15 and 16 of "Numbers of a refused call"; L7, which rounds are
// charged.
#![tactic(auto)]

ghost use Rattle.std.specs.Prelude.{◌≡◌, ◌≤◌, ◌<◌, ◌^◌, drop};
ghost use Rattle.bits.specs.Bits.{bits};
ghost use Rattle.job.specs.Meaning.{Fits, job_of};
ghost use Rattle.model.specs.Sheet.{schedule_read};
ghost use Rattle.model.specs.Calls.{pass_of};
ghost use Rattle.checking.specs.Checking.{checked_of, end_of, played};

use actions::{Act, Buffer};
use job::Job;
use playing::{Buffers, Counts};
use refusal::Refusal;

// What follows the last round; `left` says that references are left, and `counts` what a pass gives: the sheet's rounds, up to the one in which the
// last reference is consumed (L7), and its fetches on each disk.
#[tactic(auto, unfolding(crate::specs::Checking::end_of, crate::specs::Checking::checked_of))]
fn ending(sheet: &[u8], at: usize, left: bool, counts: Counts) -> Result<Counts, Refusal>
    requires { at < 2 ^ 32 }
    ensures { result ≡ checked_of (end_of left counts.rounds counts.fetches (drop at (bits sheet.now))) }
{
    if left {
        return Err(Refusal::SheetUnfinished);
    }
    if bits::read::closed(sheet, at) {
        Ok(counts)
    } else {
        Err(Refusal::SheetClosing)
    }
}

// The rounds of a sheet, played from the blocks carried in, of which as much is read as they allow. In each round every disk does its action, and
// then references are consumed in order: the reading stops at the first missing block or at the end. A round is charged where references remain when
// its reading starts.
fn play(job: &Job, sheet: &[u8], rounds: usize) -> Result<Counts, Refusal>
    requires { Fits job.now × (rounds ≤ 2048) }
    ensures { result ≡ checked_of (played (job_of job.now) rounds sheet.now) }
{
    let mut b = Buffers::carrying(job.disks, job.held, &job.carried).read_on(&job.refs, job.count);
    let mut counts = Counts {
        rounds: 0,
        fetches: [0; 8],
    };
    let mut at = 12;
    'rounds: for k in 0..rounds {
        for d in 0..job.disks {
            let buffer = Buffer {
                disk: &job.disk[..job.blocks],
                resident: &b.resident,
                d,
                full: job.slots[d] <= u16::from(b.held[d]),
            };
            match actions::action(sheet, at, buffer)? {
                Act::Idle => at += 1,
                Act::Fetch(x) => {
                    b = b.fetch(x, d);
                    counts.fetches[d] += 1;
                    at += 11;
                }
                Act::Replace(x, z) => {
                    b = b.replace(z, x, d);
                    counts.fetches[d] += 1;
                    at += 20;
                }
            }
        }
        while b.next < job.count {
            counts.rounds = k + 1;
            if !b.resident[job.refs[b.next] as usize] {
                continue 'rounds;
            }
            b = b.consume();
        }
    }
    ending(sheet, at, b.next < job.count, counts)
}

// The check of a sheet for a job.
pub fn check(job: &Job, sheet: &[u8]) -> Result<Counts, Refusal>
    requires { Fits job.now }
    ensures { result ≡ checked_of (pass_of (job_of job.now) (schedule_read (job_of job.now) sheet.now)) }
{
    let rounds = bits::read::field(sheet, 0, 12).ok_or(Refusal::SheetEnds)?;
    if 2048 < rounds {
        return Err(Refusal::SheetRounds);
    }
    play(job, sheet, rounds)
}
