// The sides of a note that are complete: each is mixed with those before it, on the left, at the end of a slice of 2,048 entries, and all of them are
// taken back into the line of 2,048 entries. More than 2,048 references in all are counted no further, and not built. Document 02, L6.
#![tactic(auto)]

ghost use Rattle.std.specs.Prelude.{◌≡◌, ◌≤◌};
ghost use Rattle.sides.specs.Sides.{sides_after, side_mixed, taken_back, Ready};

use mixing::Place;

// The counts of a note so far: of the side that is read, and of the sides before it, mixed.
#[derive(Clone, Copy)]
pub struct Sides {
    pub side: usize,
    pub mixed: usize,
}

// A side at the end of the line that is complete, mixed with the sides before it, on the left.
pub fn mix_side(line: &[u16], left: &mut [u16], from: Place, sides: Sides, complete: bool) -> Sides
    requires ready { Ready from line.now left.old }
    requires side_bound { (sides.side ≤ 2049) × (sides.mixed ≤ 2049) }
    ensures counts { result ≡ sides_after complete sides }
    ensures mixes { left.new ≡ side_mixed complete line.now from sides left.old }
{
    if !complete {
        return sides;
    }
    let count = sides.mixed + sides.side;
    let begin = from.line;
    if begin + from.left + count <= 2048 {
        let end = begin + sides.side;
        let top = 2048 - from.left;
        let bottom = top - count;
        mixing::mix(&line[begin..end], &mut left[bottom..top]);
    }
    Sides {
        side: 0,
        mixed: mixing::cap(count),
    }
}

// The sides of a note, all mixed, taken back into the line.
pub fn take_back(line: &mut [u16], left: &[u16], from: Place, mixed: usize)
    requires ready { Ready from line.old left.now }
    requires mixed_bound { mixed ≤ 2049 }
    ensures { line.new ≡ taken_back left.now from mixed line.old }
{
    let begin = from.line;
    if begin + from.left + mixed <= 2048 {
        let end = begin + mixed;
        let top = 2048 - from.left;
        let bottom = top - mixed;
        line[begin..end].copy_from_slice(&left[bottom..top]);
    }
}
