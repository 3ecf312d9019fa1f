// The desk of a plan: distances of blocks, residents and pointers of disks, each a row, kept up in constant time a reference. The steps lead from
// each reference to the next. How a position is held is known here only.
#![tactic(auto)]

ghost use Rattle.std.specs.Prelude.{◌≡◌, ◌<◌, ◌≤◌, length, get_or, set};
ghost use Rattle.lookup.specs.Desk.{passed};

// A position in the reference list. "Never" is the list's length, as document 01 has it, and so no option. Document 02, L4: "none exceeds 2048. ..
// Hold them inside as 16-bit numbers, with every cast shown to lose nothing; callers are untouched."
pub type Position = u16;

// A row of the desk, and of the steps.
pub type Row = [Position; 512];

pub type StepRow = [Position; 2048];

// The tables of a plan that change.
#[derive(Clone, Copy)]
pub struct Desk {
    // the distance of each block: the position of its first reference at or after the next read
    pub next: Row,
    // the same at or after its disk's pointer
    pub later: Row,
    // the residents of disk d, from d * 64 on; how many they are is `held` of `playing::Buffers`
    pub held: Row,
    // the pointer of each disk: the position of its first missing reference
    pub look: Row,
}

// The tables that do not change: for each reference the next one of its block, and the next one of its disk.
#[derive(Clone, Copy)]
pub struct Steps {
    pub of_block: StepRow,
    pub of_disk: StepRow,
}

// A number as a position. Nothing is lost: what is given back is the same number.
pub fn position(i: usize) -> Position
    requires { i ≤ 2048 }
    ensures { result ≡ i }
{
    i as Position
}

// Reading or a pointer passes a reference: in its row, the cell of the reference's block becomes the block's next reference.
pub fn pass(row: &mut Row, steps: &Steps, refs: &[u16], reference: usize)
    requires { (reference < length refs.now) × (reference < 2048) × (get_or refs.now reference 0 < 512) }
    ensures { row.new ≡ passed refs.now steps.now reference row.old }
{
    row[usize::from(refs[reference])] = steps.of_block[reference];
}

impl Desk {
    // The distance of a block from the next read.
    pub fn next_of(&self, block: usize) -> usize
        requires { block < 512 }
        ensures { result ≡ get_or self.now.next block 0 }
    {
        usize::from(self.next[block])
    }

    // The distance of a block from its disk's pointer.
    pub fn later_of(&self, block: usize) -> usize
        requires { block < 512 }
        ensures { result ≡ get_or self.now.later block 0 }
    {
        usize::from(self.later[block])
    }

    // The resident at a place.
    pub fn held_at(&self, place: usize) -> usize
        requires { place < 512 }
        ensures { result ≡ get_or self.now.held place 0 }
    {
        usize::from(self.held[place])
    }

    // The pointer of a disk.
    pub fn look_of(&self, disk: usize) -> usize
        requires { disk < 512 }
        ensures { result ≡ get_or self.now.look disk 0 }
    {
        usize::from(self.look[disk])
    }

    // Reading passes a reference.
    pub fn read(&mut self, steps: &Steps, refs: &[u16], reference: usize)
        requires { (reference < length refs.now) × (reference < 2048) × (get_or refs.now reference 0 < 512) }
        ensures { self.new ≡ record self.old { next = passed refs.now steps.now reference self.old.next } }
    {
        pass(&mut self.next, steps, refs, reference);
    }

    // Block `block` is the resident at a place.
    pub fn hold(&mut self, place: usize, block: usize)
        requires { (place < 512) × (block ≤ 2048) }
        ensures { self.new ≡ record self.old { held = set self.old.held place block } }
    {
        self.held[place] = position(block);
    }

    // The pointer of a disk stands at a position.
    pub fn point(&mut self, disk: usize, to: usize)
        requires { (disk < 512) × (to ≤ 2048) }
        ensures { self.new ≡ record self.old { look = set self.old.look disk to } }
    {
        self.look[disk] = position(to);
    }
}

impl Steps {
    // The next reference of the same disk.
    pub fn after(&self, reference: usize) -> usize
        requires { reference < 2048 }
        ensures { result ≡ get_or self.now.of_disk reference 0 }
    {
        usize::from(self.of_disk[reference])
    }
}
