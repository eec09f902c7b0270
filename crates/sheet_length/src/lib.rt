// What the length of a sheet says of it: rules 1 and 2, and rule 3 of its whole lines where rule 2 applies.
#![tactic(auto)]

ghost use Rattle.std.specs.Prelude.{◌≡◌};
ghost use Rattle.sheet_length.specs.Measured.{measured};

use codes::MOST_LINES;
use layout::SHEET_LINE_BYTES;
use refusal::{Place, Refusal, Rule};

// The bytes of the most lines that a sheet can have.
pub const LONGEST_SHEET: usize = SHEET_LINE_BYTES * MOST_LINES;

// The room that a sheet is read into: a byte more than the longest sheet, so that a sheet that is too long is seen to be.
pub const SHEET_ROOM: usize = LONGEST_SHEET + 1;

// Measures a sheet of any bytes: whole lines, and no more of them than there can be, or the rule that turns it away. One that rule 2 turns away
// is told its first whole line with a broken layout, if there is one.
#[tactic(auto, unfolding(crate::specs::Measured::measured, crate::specs::Measured::rule2, crate::specs::Measured::layout_first, basics::specs::Pick::pick))]
pub fn measure(sheet: &[u8]) -> Result<(), Refusal>
    ensures { result ≡ measured sheet.now }
{
    if LONGEST_SHEET < sheet.len() {
        return Err(Refusal(Rule::SheetTooLong, Place::Nowhere));
    }
    if sheet.len() % SHEET_LINE_BYTES == 0 {
        return Ok(());
    }
    if let Some(line) = layout::first_broken(sheet) {
        return Err(Refusal(Rule::BrokenLayout, Place::Line(line + 1)));
    }
    Err(Refusal(Rule::NotWholeLines, Place::Nowhere))
}
