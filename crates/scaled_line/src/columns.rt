// The columns of a line in the other sort of sheet: an amount in cents is one in thousands of dollars with five zeros behind it, so that its digits
// are moved by five columns and no number is made of them.
ghost use Rattle.std.specs.Prelude.{◌≡◌, length};
ghost use Rattle.line_fields.specs.Words.{amount_columns};
ghost use Rattle.scaled_line.specs.Moved.{keeps_amounts, holds_zero, moved_amount};

use super::Scale;
use codes::SCALAR_CLASS;
use key_columns::CLASS;
use layout::SHEET_LINE_BYTES;
use line_fields::AMOUNT_COLUMNS;

// The zeros that 100,000, the cents of a thousand dollars, has behind its 1.
const ZEROS: usize = 5;

// The digit of the scalar's class.
const SCALAR_DIGIT: u8 = b'0' + SCALAR_CLASS as u8;

impl Scale {
    // Writes the columns of an amount as the other sort of sheet has them: as they stand where it is kept or is 0, else moved.
    #[tactic(auto, using(crate::proofs::StoredLines::spaces_stored, crate::proofs::StoredLines::zeros_stored), unfolding(crate::specs::Moved::moved_amount, basics::specs::Pick::pick))]
    pub(crate) fn move_amount(self, kept: bool, amount: &[u8], out: &mut [u8])
        requires { (length amount.now ≡ amount_columns) × (out.old ≡ amount.now) }
        ensures { out.new ≡ moved_amount self kept amount.now }
    {
        if kept || holds_zero(amount) {
            return;
        }
        match self {
            Scale::Cents => {
                out[0..ZEROS].copy_from_slice(&[b' '; ZEROS]);
                out[ZEROS..AMOUNT_COLUMNS].copy_from_slice(&amount[0..AMOUNT_COLUMNS - ZEROS]);
            }
            Scale::Thousands => {
                out[0..AMOUNT_COLUMNS - ZEROS].copy_from_slice(&amount[ZEROS..AMOUNT_COLUMNS]);
                out[AMOUNT_COLUMNS - ZEROS..AMOUNT_COLUMNS].copy_from_slice(&[b'0'; ZEROS]);
            }
        }
    }
}

// Whether a line is the scalar's, of GEN and its class, which keeps its number.
#[tactic(auto, unfolding(crate::specs::Moved::keeps_amounts, basics::specs::Pick::pick))]
pub(crate) fn keeps_amounts(line: &[u8; SHEET_LINE_BYTES]) -> bool
    ensures { result ≡ keeps_amounts line.now }
{
    matches!(line[0], b'G' | b'g') && line[CLASS] == b' ' && line[CLASS + 1] == SCALAR_DIGIT
}

// Whether the columns of an amount hold 0.
#[tactic(auto, unfolding(crate::specs::Moved::holds_zero, basics::specs::Pick::pick))]
fn holds_zero(amount: &[u8]) -> bool
    requires { length amount.now ≡ amount_columns }
    ensures { result ≡ holds_zero amount.now }
{
    amount[12] == b' ' && amount[13] == b'0'
}
