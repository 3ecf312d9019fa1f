// What a rule chooses for one disk, from its tables.
#![tactic(auto)]

ghost use Rattle.std.specs.Prelude.{◌≡◌, ◌+◌, ◌-◌, ◌≤◌, ◌<◌};
ghost use Rattle.bits.specs.Bits.{Below};
ghost use Rattle.choosing.specs.Choosing.{key_at, last_place, some_beyond, also_idle, choice_from};

use lookup::Desk;

// The two rules.
#[derive(Clone, Copy)]
pub enum Rule {
    Short,
    Sparing,
}

// What a disk does, with the reason. Where it fetches: the block U, and the place among the residents that U takes, the first empty one or the
// min-block's.
#[derive(Clone, Copy)]
pub enum Choice {
    IntoEmpty(usize, usize),
    OverMinBlock(usize, usize),
    MinBlockSooner,
    Waits,
    NoneMissing,
}

// The resident at a place as one number: its distance, then its block number.
fn key(desk: &Desk, place: usize) -> usize
    requires { (place < 512) × Below 512 desk.now.held × Below 4096 desk.now.next }
    ensures { result ≡ key_at desk.now.held desk.now.next place }
{
    let b = desk.held_at(place);
    desk.next_of(b) * 512 + b
}

// The place of the min-block among the `count` residents from `base` on: the greatest distance, and of several the highest number. There is one, so
// no `max_by_key`, which gives an option.
#[tactic(auto, using(crate::proofs::Scanning::turns))]
fn last(desk: &Desk, base: usize, count: usize) -> usize
    requires { (1 ≤ count) × (base + count ≤ 512) × Below 512 desk.now.held × Below 4096 desk.now.next }
    ensures { result ≡ last_place desk.now.held desk.now.next base (count - 1) }
{
    let mut best = base;
    let mut most = key(desk, base);
    for i in base + 1..base + count {
        let here = key(desk, i);
        if most <= here {
            most = here;
            best = i;
        }
    }
    best
}

// Whether one of the `count` residents from `base` on has a later distance than `bound`.
fn some_later(desk: &Desk, base: usize, count: usize, bound: usize) -> bool
    requires { (base + count ≤ 512) × Below 512 desk.now.held }
    ensures { result ≡ some_beyond desk.now.held desk.now.later bound base count }
{
    let residents = &desk.held[base..base + count];
    residents
        .iter()
        .any(|b| bound < desk.later_of(usize::from(*b)))
}

// Whether the rule waits though U could replace the min-block, whose distance is `far`.
fn waits(rule: Rule, desk: &Desk, base: usize, count: usize, far: usize) -> bool
    requires { (base + count ≤ 512) × Below 512 desk.now.held }
    ensures { result ≡ also_idle rule (some_beyond desk.now.held desk.now.later far base count) }
{
    match rule {
        Rule::Short => false,
        Rule::Sparing => some_later(desk, base, count, far),
    }
}

// What a rule does on disk d, which holds `count` blocks in its slots.
#[tactic(auto, using(crate::proofs::Scanning::cases), unfolding(crate::specs::Choosing::choice_from, crate::specs::Choosing::choice_full))]
pub fn rule_choice(
    d: usize,
    count: usize,
    slots: usize,
    refs: &[u16],
    rule: Rule,
    desk: &Desk,
) -> Choice
    requires d_bound { (d < 8) × (count ≤ slots) × (1 ≤ slots) × (slots ≤ 64) }
    requires below { Below 512 refs.now × Below 512 desk.now.held × Below 4096 desk.now.next }
    ensures { result ≡ choice_from refs.now rule d count slots desk.now }
{
    let look = desk.look_of(d);
    let Some(u) = refs.get(look) else {
        return Choice::NoneMissing;
    };
    let u = usize::from(*u);
    let base = d * 64;
    if count < slots {
        return Choice::IntoEmpty(u, base + count);
    }
    let place = last(desk, base, count);
    let far = desk.next_of(desk.held_at(place));
    if far < look {
        return Choice::MinBlockSooner;
    }
    if waits(rule, desk, base, count, far) {
        return Choice::Waits;
    }
    Choice::OverMinBlock(u, place)
}
