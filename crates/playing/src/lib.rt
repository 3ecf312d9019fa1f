// The playing state by value. Document 01, "Playing a round": "Which blocks are in the buffers is kept as one mark for each of the 512 block
// numbers. Playing takes the state of the buffers and gives back the next." Document 02, L9: the blocks carried in, and what is read before round 1.
#![tactic(auto)]

ghost use Rattle.std.specs.Prelude.{◌≡◌, ◌+◌, ◌<◌, ◌≤◌, ◌^◌, length, get_or, take, drop};
ghost use Rattle.bits.specs.Bits.{Below};
ghost use Rattle.model.specs.Playing.{marked};
ghost use Rattle.playing.specs.Playing.{carrying_buffers, fetch_into, discard_from, replace_in, consume_one, read_on_from};

// The mark of each block, how many blocks each disk holds, and the next read.
#[derive(Clone, Copy)]
pub struct Buffers {
    pub resident: [bool; 512],
    pub held: [u8; 8],
    pub next: usize,
}

// What a schedule takes: its rounds, and its fetches of each disk.
#[derive(Clone, Copy)]
pub struct Counts {
    pub rounds: usize,
    pub fetches: [u16; 8],
}

// Marks the blocks of a list.
#[tactic(auto, using(crate::proofs::Laws::mark_next), unfolding(model::specs::Playing::marked))]
fn mark(resident: &mut [bool; 512], blocks: &[u16])
    requires { Below 512 blocks.now }
    ensures { resident.new ≡ marked resident.old blocks.now }
{
    for &b in blocks {
        resident[b as usize] = true;
    }
}

impl Buffers {
    // The blocks carried in: `held` of them on each disk, those of disk d from the place d * 64 on. Nothing is read yet.
    #[tactic(auto, using(crate::proofs::Laws::carry_next), unfolding(crate::specs::Playing::carrying_buffers))]
    pub fn carrying(disks: usize, held: [u8; 8], blocks: &[u16; 512]) -> Self
        requires { (disks ≤ 8) × Below 65 held × (length blocks.now ≡ 512) × Below 512 blocks.now }
        ensures { result ≡ carrying_buffers disks held blocks.now }
    {
        let mut resident = [false; 512];
        for d in 0..disks {
            let from = d * 64;
            mark(&mut resident, &blocks[from..from + held[d] as usize]);
        }
        Self {
            resident,
            held,
            next: 0,
        }
    }

    // A block enters the buffer of a disk.
    #[tactic(auto, unfolding(crate::specs::Playing::fetch_into))]
    pub fn fetch(mut self, block: usize, disk: usize) -> Self
        requires { (block < 512) × (disk < 8) × (get_or self.held disk 0 < 255) }
        ensures { result ≡ fetch_into self block disk }
    {
        self.resident[block] = true;
        self.held[disk] += 1;
        self
    }

    // A block leaves the buffer of a disk.
    #[tactic(auto, unfolding(crate::specs::Playing::discard_from))]
    pub fn discard(mut self, block: usize, disk: usize) -> Self
        requires { (block < 512) × (disk < 8) × (1 ≤ get_or self.held disk 0) }
        ensures { result ≡ discard_from self block disk }
    {
        self.resident[block] = false;
        self.held[disk] -= 1;
        self
    }

    // A block takes the place of another: "the discarded block leaves, then the fetched one enters". One call for both costs one copy of the
    // state.
    #[tactic(auto, unfolding(crate::specs::Playing::discard_from, crate::specs::Playing::replace_in))]
    pub fn replace(self, out: usize, block: usize, disk: usize) -> Self
        requires { (out < 512) × (block < 512) × (disk < 8) × (1 ≤ get_or self.held disk 0) }
        ensures { result ≡ replace_in self out block disk }
    {
        self.discard(out, disk).fetch(block, disk)
    }

    // One reference is consumed.
    #[tactic(auto, unfolding(crate::specs::Playing::consume_one))]
    pub fn consume(mut self) -> Self
        requires { self.next < 2 ^ 32 }
        ensures { result ≡ consume_one self }
    {
        self.next += 1;
        self
    }

    // References are consumed while the next one's block is in the buffers: "Before round 1 the suite reads as far as these allow."
    #[tactic(auto, using(crate::proofs::Laws::reading), unfolding(crate::specs::Playing::consume_one))]
    pub fn read_on(mut self, refs: &[u16; 2048], count: usize) -> Self
        requires { (count ≤ 2048) × (length refs.now ≡ 2048) × Below 512 (take count refs.now) }
        ensures { result ≡ read_on_from self (take count refs.now) }
    {
        while self.next < count && self.resident[refs[self.next] as usize] {
            self = self.consume();
        }
        self
    }
}
