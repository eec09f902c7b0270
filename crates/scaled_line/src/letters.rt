// The letters of the two sorts of sheet: capital ones where amounts are cents, small ones where they are thousands.
ghost use Rattle.std.specs.Prelude.{◌≡◌, map, take};
ghost use Rattle.scaled_line.specs.Scale.{to_capital, scale_of, capital};
ghost use Rattle.scaled_line.specs.Moved.{other_case};

use super::Scale;
use layout::SHEET_LINE_BYTES;

// The bit that a small letter has and its capital hasn't.
const CASE: u8 = 32;

// The sort of a sheet, by its first letter.
#[tactic(auto, unfolding(crate::specs::Scale::scale_of, crate::specs::Scale::to_capital, basics::specs::Pick::pick))]
pub fn scale_of(sheet: &[u8]) -> Scale
    ensures { result ≡ scale_of sheet.now }
{
    match sheet.first() {
        Some(b'a'..=b'z') => Scale::Thousands,
        _ => Scale::Cents,
    }
}

impl Scale {
    // The three letters of a line as capitals: as they stand in a sheet in cents, made capital in one in thousands.
    pub(crate) fn capitals(self, line: &[u8; SHEET_LINE_BYTES]) -> [u8; 3]
        ensures { result ≡ map (capital self) (take 3 line.now) }
    {
        match self {
            Scale::Cents => [line[0], line[1], line[2]],
            Scale::Thousands => [
                to_capital(line[0]),
                to_capital(line[1]),
                to_capital(line[2]),
            ],
        }
    }
}

// A letter as the other sort of sheet has it. A capital and its small letter differ in one bit alone.
pub(crate) fn other_case(b: u8) -> u8
    ensures { result ≡ other_case b }
{
    b ^ CASE
}

// The capital of a small letter, 0 for any other byte.
//
// Kept: the library's method leaves any other byte as it is, and an Option is no plainer: 0 is the byte that then stands in the line that is read.
#[tactic(auto, unfolding(crate::specs::Scale::to_capital, basics::specs::Pick::pick))]
fn to_capital(b: u8) -> u8
    ensures { result ≡ to_capital b }
{
    match b {
        b'a'..=b'z' => b - CASE,
        _ => 0,
    }
}
