// What a plan writes down: the actions of a round as bits of its sheet, the reasons for them, the fetches of each disk so far, and at the end the
// sheet's round count.
#![tactic(auto)]

ghost use Rattle.std.specs.Prelude.{◌≡◌, ◌+◌, ◌*◌, ◌≤◌, ◌<◌, length, get_or};
ghost use Rattle.std.specs.List.{All};
ghost use Rattle.bits.specs.Bits.{Below};
ghost use Rattle.bits.specs.Fields.{put_bits, ClearFrom, laid_at};
ghost use Rattle.model.specs.Playing.{fetched};
ghost use Rattle.model.specs.Sheet.{action_bits, round_bits};
ghost use Rattle.writing.specs.Heading.{headed};
ghost use Rattle.writing.specs.Tallying.{tallied};
ghost use Rattle.writing.specs.Writing.{Small, action_in, actions_in, reasons_in};

// What a disk does in a round: the fetched block and the discarded one, if any; and why, as the place of the reason's line in the legend of a page:
// 0 an empty slot, 1 over the min-block, 2 the min-block is sooner, 3 waits, 4 none is missing.
#[derive(Clone, Copy)]
pub struct Action {
    pub fetched: Option<u16>,
    pub discarded: Option<u16>,
    pub reason: u16,
}

impl Action {
    // That of a disk of which no block is missing.
    pub const IDLE: Action = Action {
        fetched: None,
        discarded: None,
        reason: 4,
    };

    // How many blocks are fetched, one or none.
    fn fetched(self) -> u16
        ensures { result ≡ fetched (action_in self) }
    {
        match self.fetched {
            Some(_) => 1,
            None => 0,
        }
    }
}

// One action at the bit `at`; the bit after it. An action that fetches no block is idle.
fn put_action(sheet: &mut [u8], at: usize, a: Action) -> usize
    requires small { Small a }
    requires at_in_bounds { (at + 32 ≤ length sheet.old * 8) × (at < 400000) }
    requires clear_from { ClearFrom at sheet.old }
    ensures value { result ≡ at + length (action_bits (action_in a)) }
    ensures sheet_after { sheet.new ≡ put_bits sheet.old at (action_bits (action_in a)) }
{
    let Some(u) = a.fetched else {
        return at + 1;
    };
    let Some(v) = a.discarded else {
        bits::put(sheet, at, 11, 1024 + u as usize * 2);
        return at + 11;
    };
    bits::put(sheet, at, 20, 524288 + u as usize * 1024 + 512 + v as usize);
    at + 20
}

// The actions of a round, disk by disk; the bit after them.
pub fn put_round(sheet: &mut [u8], start: usize, acts: &[Action]) -> usize
    requires acts_bound { (length acts.now ≤ 8) × All Small acts.now }
    requires start_in_bounds { (start + 192 ≤ length sheet.old * 8) × (start < 350000) }
    requires clear_from { ClearFrom start sheet.old }
    ensures value { result ≡ start + length (round_bits (actions_in acts.now)) }
    ensures sheet_after { sheet.new ≡ put_bits sheet.old start (round_bits (actions_in acts.now)) }
{
    let mut at = start;
    for a in acts {
        at = put_action(sheet, at, *a);
    }
    at
}

// The reasons of a round, disk by disk, each as a byte, its remainder by 256, from the byte `start` on, as far as the slice reaches.
pub fn lay_reasons(reasons: &mut [u8], start: usize, acts: &[Action])
    requires { (length acts.now ≤ 8) × (start < 65536) }
    ensures { reasons.new ≡ laid_at start (reasons_in acts.now) reasons.old }
{
    for (d, a) in acts.iter().enumerate() {
        if start + d < reasons.len() {
            reasons[start + d] = (a.reason % 256) as u8;
        }
    }
}

// One fetch more for each disk that fetched a block.
pub fn tally(fetches: &mut [u16; 8], acts: &[Action])
    requires { (length acts.now ≤ 8) × Below 65535 fetches.old }
    ensures { fetches.new ≡ tallied fetches.old acts.now }
{
    for (d, a) in acts.iter().enumerate() {
        fetches[d] += a.fetched();
    }
}

// The round count R in the first 12 bits, which are zero so far.
pub fn put_header(sheet: &mut [u8], rounds: usize)
    requires { (rounds ≤ 2048) × (2 ≤ length sheet.old) × (get_or sheet.old 1 0 < 16) }
    ensures { sheet.new ≡ headed sheet.old rounds }
{
    sheet[0] = (rounds / 16) as u8;
    sheet[1] += (rounds % 16 * 16) as u8;
}
