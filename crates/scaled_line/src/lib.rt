// A line of a sheet of either sort: in cents, with the code in capital letters, or in thousands of dollars, with the code in small ones. It is
// read, tested by rules 20 and 21, and written as the other sort has it.
#![tactic(auto)]

// The letters of the two sorts.
pub mod letters;
// The amounts of a line in the two sorts, rules 20 and 21.
pub mod amounts;
// The columns of a line in the other sort.
pub mod columns;

ghost use Rattle.std.specs.Prelude.{◌≡◌};
ghost use Rattle.scaled_line.specs.Scale.{parse_in};
ghost use Rattle.scaled_line.specs.Moved.{moved_line};

use layout::{FIRST, FIRST_END, SECOND, SECOND_END, SHEET_LINE_BYTES};
use letters::other_case;
use refusal::Rule;
use sheet_line::Entry;

// The sort of a sheet, by what its amounts count.
#[derive(Clone, Copy)]
pub enum Scale {
    Cents,
    Thousands,
}

impl Scale {
    // Reads a line of a sheet of this sort: its columns, and its letters as capitals.
    #[tactic(auto, using(crate::proofs::SmallLetters::read_by))]
    pub fn read(self, line: &[u8; SHEET_LINE_BYTES]) -> Result<Entry, Rule>
        ensures { result ≡ parse_in self line.now }
    {
        sheet_line::read_line_by(line, |line| codes::read_code(&self.capitals(line)))
    }

    // Writes a line as the other sort of sheet has it. It isn't read again: where its rules let it pass, 20 and 21 among them, an amount keeps its digits
    // there, five columns further, with five zeros more or less; 0 and the scalar's line stay as they are. What stands after any other line is told
    // too, and nobody asks for it.
    #[tactic(auto, using(crate::proofs::StoredLines::second_stands, crate::proofs::StoredLines::line_stored))]
    pub fn write_other_scale(self, line: &[u8; SHEET_LINE_BYTES], out: &mut [u8; SHEET_LINE_BYTES])
        ensures { out.new ≡ moved_line self line.now }
    {
        let kept = columns::keeps_amounts(line);
        *out = *line;
        out[0] = other_case(line[0]);
        out[1] = other_case(line[1]);
        out[2] = other_case(line[2]);
        self.move_amount(kept, &line[FIRST..FIRST_END], &mut out[FIRST..FIRST_END]);
        self.move_amount(
            kept,
            &line[SECOND..SECOND_END],
            &mut out[SECOND..SECOND_END],
        );
    }
}
