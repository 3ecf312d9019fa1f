// A note of passes made into the reference string. Document 02, L6: "The string is exactly the meaning of the note, and a note has one reading. It
// goes into a lent slice of 16-bit numbers, one for each reference, and its count is returned; entries past it stay."
#![tactic(auto)]

ghost use Rattle.std.specs.Prelude.{◌≡◌, length};
ghost use Rattle.grammar.specs.Reading.{note_answer};
ghost use Rattle.sides.specs.Sides.{Ready};
ghost use Rattle.notes.specs.Readers.{ItemRead, NoteRead};
ghost use Rattle.notes.specs.Notes.{passes_as, refs_after, Exact};

use building::Piece;
use mixing::Place;
use pieces::{Joint, Met};
use refusal::Refusal;
use sides::Sides;

// An item: a block number or a note in parentheses, and the count that may follow.
#[cycle(read_item_read_note)]
fn read_item(text: &[u8], from: Place, line: &mut [u16], left: &mut [u16]) -> Result<Piece, Met>
    requires { Ready from line.old left.old }
    ensures { ItemRead text.now from line.old left.old line.new left.new result }
{
    let at = from.at;
    let part = if pieces::is_at(text, at, b'(') {
        if from.depth == 0 {
            return Err(Met {
                refusal: Refusal::NoteParentheses,
                at,
            });
        }
        let within = Place {
            at: at + 1,
            depth: from.depth - 1,
            ..from
        };
        let inner = read_note(text, within, line, left);
        building::closed(text, inner)
    } else {
        building::read_block(text, from, line)
    };
    building::counted(text, part, from, line)
}

// A note, up to the end of the text or a parenthesis that closes it: items, of which each side is mixed with those before it when it is complete.
#[cycle(read_item_read_note)]
fn read_note(text: &[u8], from: Place, line: &mut [u16], left: &mut [u16]) -> Result<Piece, Met>
    requires { Ready from line.old left.old }
    ensures { NoteRead text.now from line.old left.old line.new left.new result }
{
    let mut at = from.at;
    let mut sides = Sides { side: 0, mixed: 0 };
    loop {
        let place = Place {
            at,
            line: mixing::cap(from.line + sides.side),
            left: mixing::cap(from.left + sides.mixed),
            ..from
        };
        let item = read_item(text, place, line, left)?;
        let joint = pieces::joint_after(text, item.at)?;
        sides.side = mixing::cap(sides.side + item.count);
        match joint {
            Joint::Item(next) => at = next,
            Joint::Side(next) => {
                at = next;
                sides = sides::mix_side(line, left, from, sides, true);
            }
            Joint::End => {
                let whole = sides::mix_side(line, left, from, sides, true);
                sides::take_back(line, left, from, whole.mixed);
                return Ok(Piece {
                    at: item.at,
                    count: whole.mixed,
                });
            }
        }
    }
}

// The call: a note, and the lent slice for its references; their count is returned.
pub fn read(note: &[u8], refs: &mut [u16]) -> Result<usize, Refusal>
    ensures { let a = note_answer note.now (length refs.old) in
        (result ≡ passes_as a)
        × (refs.new ≡ refs_after a refs.old)
        × Exact note.now refs.old refs.new result }
{
    let mut line = [0u16; 2048];
    let mut left = [0u16; 2048];
    let start = Place {
        at: 0,
        depth: 16,
        line: 0,
        left: 0,
    };
    let whole = read_note(note, start, &mut line, &mut left)?;
    if whole.at != note.len() {
        return Err(Refusal::NoteMalformed);
    }
    let count = whole.count;
    if 2048 < count || refs.len() < count {
        return Err(Refusal::NoteReferences);
    }
    refs[..count].copy_from_slice(&line[..count]);
    Ok(count)
}
