// The page of a plan: its lines, read back from the plan's sheet and reasons, and the legend. Document 02, L2.
#![tactic(auto)]

ghost use Rattle.std.specs.Prelude.{◌≡◌, ◌+◌, ◌*◌, ◌^◌, ◌≤◌, ◌<◌, length};
ghost use Rattle.bits.specs.Bits.{laid, Below};
ghost use Rattle.bits.specs.Fields.{laid_at};
ghost use Rattle.model.specs.Page.{legend, ended};
ghost use Rattle.printing.specs.Printing.{first_place, lines_read, page_read};

use lines::Place;

// A text written into a page from the byte `at` on.
fn put_text(page: &mut [u8], at: usize, text: &[u8])
    requires { at + length text.now ≤ length page.old }
    ensures { page.new ≡ laid_at at text.now page.old }
{
    bits::copy_front(text, text.len(), &mut page[at..]);
}

// "one line per round and disk": so many lines, from the sheet of a plan and its reasons.
fn put_lines(page: &mut [u8], sheet: &[u8], reasons: &[u8], disks: usize, count: usize)
    requires { (count ≤ 16384) × (count * 17 ≤ length page.old) × (count ≤ length reasons.now) × Below 5 reasons.now }
    ensures { page.new ≡ laid (lines_read sheet.now reasons.now disks count first_place) page.old }
{
    let mut place = Place {
        line: 0,
        at: 12,
        round: 1,
        disk: 0,
    };
    for reason in &reasons[..count] {
        let shown = lines::action_at(sheet, place.at);
        let text = lines::line_text(place.round, place.disk, shown, usize::from(*reason));
        put_text(page, place.line * 17, &text);
        place = place.after(shown.next, disks);
    }
}

// "Five legend lines of 16 columns close the page, in this order, filled with spaces and each ended by a line feed": from the byte `at` on.
fn put_legend(page: &mut [u8], at: usize)
    requires { (at < 2 ^ 32) × (at + 85 ≤ length page.old) }
    ensures { page.new ≡ laid_at at (ended legend) page.old }
{
    for (rule, line) in lines::LEGEND.iter().enumerate() {
        put_text(page, at + rule * 17, line);
        put_text(page, at + rule * 17 + 16, b"\n");
    }
}

// The page of so many lines.
pub fn put_page(page: &mut [u8], sheet: &[u8], reasons: &[u8], disks: usize, count: usize)
    requires { (count ≤ 16384) × (count * 17 + 85 ≤ length page.old) × (count ≤ length reasons.now) × Below 5 reasons.now }
    ensures { page.new ≡ laid (page_read sheet.now reasons.now disks count) page.old }
{
    put_lines(page, sheet, reasons, disks, count);
    put_legend(page, count * 17);
}
