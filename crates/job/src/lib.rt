// A job by value, as reading a ticket gives it. Entries past the counts are 0, or references of the ticket past a stop.
#![tactic(auto)]

#[derive(Clone, Copy)]
pub struct Job {
    // disks D, and the buffer slots of each
    pub disks: usize,
    pub slots: [u16; 8],
    // blocks B, and the disk of each
    pub blocks: usize,
    pub disk: [u16; 512],
    // references that count, N of them or as many as a stop says, and the block of each
    pub count: usize,
    pub refs: [u16; 2048],
    // how many blocks are carried in on each disk (document 02, L9), and those of disk d in rising order, from d * 64 on
    pub held: [u8; 8],
    pub carried: [u16; 512],
}
