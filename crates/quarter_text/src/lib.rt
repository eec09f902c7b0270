// The lines of the quarter's sheets: that of a sheet, with what it adds to the summary.
#![tactic(auto)]

ghost use Rattle.std.specs.Prelude.{◌≡◌, List, ◌++◌, length};
ghost use Rattle.judgement.specs.Judgement.{judgement};
ghost use Rattle.report_line.specs.Line.{line_bytes, row_in};
ghost use Rattle.summary.specs.Summaries.{summary_of};
ghost use Rattle.summary.specs.declared.Accepted.{Accepted};
ghost use Rattle.quarter_text.specs.Printout.{columns, SummaryFits, sheet_row, accepted_as};

use report_line::Row;
use summary::{Accepted, Summary};

// The most sheets that an input may have.
pub const MOST_SHEETS: usize = 60;

// The bytes of a line, its line feed with them.
pub const LINE_BYTES: usize = 30;

// A sheet that is closed, with its number: its line, and the summary with it.
pub fn answer_sheet(sheet: &[u8], line: &mut [u8], number: usize, summary: Summary) -> Summary
    requires { (length line.old ≡ line_bytes columns) × SummaryFits summary }
    ensures line_after { line.new ≡ row_in columns (sheet_row number (judgement sheet.now)) }
    ensures summed { (xs : List Accepted) → summary ≡ summary_of xs → result ≡ summary_of (xs ++ accepted_as number (judgement sheet.now)) }
{
    match quarter_sheet::buffer_of(sheet) {
        Ok(buffer) => {
            let n = cast::word(number);
            let row = Row {
                code: *b"SHT",
                block: n,
                item: 1,
                number: buffer,
            };
            row.write_in(line);
            summary::with_sheet(summary, Accepted { sheet: n, buffer })
        }
        Err(refusal) => {
            text_answer::write_refusal(line, refusal);
            summary
        }
    }
}
