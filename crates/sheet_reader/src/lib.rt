// The lines of a sheet read into a ledger that the caller lends.
#![tactic(auto)]

ghost use Rattle.order.specs.Reading.{reading};
ghost use Rattle.ledger.specs.Lines.{Empty};
ghost use Rattle.sheet_reader.specs.Filling.{Filled};

use layout::SHEET_LINE_BYTES;
use ledger::Ledger;
use refusal::{Place, Refusal};

// Reads the lines of a sheet one after the other, and gives how many there are, or the first bad one's rule and place.
pub fn read_lines(sheet: &[u8], ledger: &mut Ledger) -> Result<usize, Refusal>
    requires { Empty ledger.old }
    ensures { Filled (reading sheet.now) result ledger.new }
{
    let (lines, _) = sheet.as_chunks::<SHEET_LINE_BYTES>();
    let mut last = 0u64;
    for (i, bytes) in lines.iter().enumerate() {
        let read = sheet_line::read_line(bytes);
        let line = ledger.admit(read, last);
        match line {
            Err(rule) => return Err(Refusal(rule, Place::Line(i + 1))),
            Ok(e) => last = order::key_of(e),
        }
    }
    Ok(lines.len())
}
