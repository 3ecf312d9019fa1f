// A line of a page: what a plan's sheet shows of one action, where the line of it stands, and its text. Document 02, L2.
#![tactic(auto)]

ghost use Rattle.std.specs.Prelude.{◌≡◌, ◌^◌, ◌≤◌, ◌<◌};
ghost use Rattle.bits.specs.Fields.{field_at};
ghost use Rattle.lines.specs.Lines.{column_of, block_column, line_bytes, value_of, shown_at, place_after};

// "Five legend lines of 16 columns", one for each rule, in the order of the reasons' numbers.
pub const LEGEND: [[u8; 16]; 5] = [
    *b"E empty slot    ",
    *b"M min-block out ",
    *b"S used sooner   ",
    *b"W waits         ",
    *b"N none left     ",
];

// What a sheet says of one action: the blocks that it fetches and discards, if any, and the bit after it.
#[derive(Clone, Copy)]
pub struct Shown {
    pub fetched: Option<usize>,
    pub discarded: Option<usize>,
    pub next: usize,
}

// Where a line stands: its number on the page, the bit where its action begins on the sheet, its round and its disk.
#[derive(Clone, Copy)]
pub struct Place {
    pub line: usize,
    pub at: usize,
    pub round: usize,
    pub disk: usize,
}

impl Place {
    // The place of the next line, whose action begins at the bit `next`: the next disk's, or that of disk 0 in the next round.
    #[tactic(auto, using(std::proofs::lemmas::Bool::Decides::nat_tests), unfolding(crate::specs::Lines::place_after))]
    pub fn after(self, next: usize, disks: usize) -> Place
        requires { (self.line < 2 ^ 31) × (self.round < 2 ^ 31) × (self.disk < 2 ^ 31) }
        ensures { result ≡ place_after self next disks }
    {
        let line = self.line + 1;
        if self.disk + 1 == disks {
            return Place {
                line,
                at: next,
                round: self.round + 1,
                disk: 0,
            };
        }
        Place {
            line,
            at: next,
            disk: self.disk + 1,
            ..self
        }
    }
}

// A column of a number that is right aligned: its digit of that unit, or a space before its digits.
#[tactic(auto, using(std::proofs::lemmas::Bool::Decides::nat_tests), unfolding(crate::specs::Lines::column_of))]
fn column(n: usize, unit: usize) -> u8
    requires { 1 ≤ unit }
    ensures { result ≡ column_of n unit }
{
    if 1 < unit && n < unit {
        return b' ';
    }
    (48 + n / unit % 10) as u8
}

// A column of a block, or of `---` where there is none.
#[tactic(auto, unfolding(crate::specs::Lines::block_column))]
fn block_column(block: Option<usize>, unit: usize) -> u8
    requires { 1 ≤ unit }
    ensures { result ≡ block_column block unit }
{
    match block {
        None => b'-',
        Some(b) => column(b, unit),
    }
}

// A line: round, disk, the fetched and the discarded block, and the letter of the rule.
pub fn line_text(round: usize, disk: usize, shown: Shown, rule: usize) -> [u8; 17]
    requires { rule < 5 }
    ensures { result ≡ line_bytes round disk shown.fetched shown.discarded rule }
{
    let fetched = shown.fetched;
    let discarded = shown.discarded;
    [
        column(round, 1000),
        column(round, 100),
        column(round, 10),
        column(round, 1),
        b' ',
        column(disk, 1),
        b' ',
        block_column(fetched, 100),
        block_column(fetched, 10),
        block_column(fetched, 1),
        b' ',
        block_column(discarded, 100),
        block_column(discarded, 10),
        block_column(discarded, 1),
        b' ',
        LEGEND[rule][0],
        b'\n',
    ]
}

// The field of `width` bits that starts at the bit `at`; 0 where the bytes end inside it.
fn value(sheet: &[u8], at: usize, width: usize) -> usize
    requires { (width ≤ 12) × (at < 2 ^ 32) }
    ensures { result ≡ value_of (field_at sheet.now at width) }
{
    bits::read::field(sheet, at, width).unwrap_or(0)
}

// The action at the bit `at`.
#[tactic(auto, using(std::proofs::lemmas::Bool::Decides::nat_tests), unfolding(crate::specs::Lines::shown_at))]
pub fn action_at(sheet: &[u8], at: usize) -> Shown
    requires { at < 2 ^ 31 }
    ensures { result ≡ shown_at sheet.now at }
{
    if value(sheet, at, 1) == 0 {
        return Shown {
            fetched: None,
            discarded: None,
            next: at + 1,
        };
    }
    let fetched = Some(value(sheet, at + 1, 9));
    if value(sheet, at + 10, 1) == 0 {
        return Shown {
            fetched,
            discarded: None,
            next: at + 11,
        };
    }
    Shown {
        fetched,
        discarded: Some(value(sheet, at + 11, 9)),
        next: at + 20,
    }
}
