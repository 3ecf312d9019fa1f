// The pieces of a note, read and built: a block, a note in parentheses, a part with its count. The references of a piece are built at the end of a
// line of 2,048 entries. More than 2,048 references in all are counted no further, and not built. Document 02, L6.
#![tactic(auto)]

ghost use Rattle.std.specs.Prelude.{◌≡◌, ◌≤◌, length};
ghost use Rattle.std.specs.Result.{ForOk};
ghost use Rattle.building.specs.Building.{block_at, block_laid, Continues, closed_at, counted_at, counted_line};

use mixing::Place;
use pieces::Met;

// A piece that was read: the place after it and the count of its references, 2049 for more than 2048.
#[derive(Clone, Copy)]
pub struct Piece {
    pub at: usize,
    pub count: usize,
}

// A block number, and that block at the end of the line.
pub fn read_block(text: &[u8], from: Place, line: &mut [u16]) -> Result<Piece, Met>
    requires { (from.line ≤ 2049) × (from.left ≤ 2049) × (length line.old ≡ 2048) }
    ensures piece { result ≡ block_at text.now from.at }
    ensures laid { line.new ≡ block_laid text.now from line.old }
{
    let at = from.at;
    let Some(first) = pieces::digit_at(text, at) else {
        return Err(pieces::malformed(at));
    };
    let n = pieces::number_from(text, at + 1, first, 511);
    let place = from.line;
    if place + from.left + 1 <= 2048 {
        line[place] = n.value as u16;
    }
    Ok(Piece { at: n.at, count: 1 })
}

// The parenthesis that closes a note; a note that was refused stays refused, whatever its error.
#[tactic(auto, using(crate::proofs::Laws::refused_stays))]
pub fn closed<M: Copy + From<Met>>(text: &[u8], inner: Result<Piece, M>) -> Result<Piece, M>
    ensures { Continues M.from_gives (closed_at text.now) inner result }
{
    let inner = inner?;
    if !pieces::is_at(text, inner.at, b')') {
        return Err(M::from(pieces::malformed(inner.at)));
    }
    Ok(Piece {
        at: inner.at + 1,
        count: inner.count,
    })
}

// A part with the count that follows it, repeated at the end of the line; a part that was refused stays refused, whatever its error.
#[tactic(auto, using(crate::proofs::Laws::refused_stays, crate::proofs::Laws::line_refused))]
pub fn counted<M: Copy + From<Met>>(
    text: &[u8],
    part: Result<Piece, M>,
    from: Place,
    line: &mut [u16],
) -> Result<Piece, M>
    requires { (from.line ≤ 2049) × (from.left ≤ 2049) × (length line.old ≡ 2048) × ForOk part (λ p. p.count ≤ 2049) }
    ensures piece { Continues M.from_gives (counted_at text.now) part result }
    ensures repeats { line.new ≡ counted_line text.now part from line.old }
{
    let part = part?;
    let c = pieces::count_after(text, part.at)?;
    let count = part.count * c.times;
    let begin = from.line;
    if begin + from.left + count <= 2048 {
        mixing::repeat(&mut line[begin..begin + count], part.count, c.times);
    }
    Ok(Piece {
        at: c.at,
        count: mixing::cap(count),
    })
}
