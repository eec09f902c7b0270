// A line of the report.
#![tactic(auto)]

ghost use Rattle.std.specs.Prelude.{◌≡◌, ◌-◌, ◌<◌, length};
ghost use Rattle.sizes.specs.Sizes.{number_columns};
ghost use Rattle.report_line.specs.Line.{line_bytes, report_line_bytes, row_in};

use field::write_field;
use key_columns::{KEY_BYTES, write_key};

// The bytes of a line, its line feed with them.
pub const REPORT_LINE_BYTES: usize = 29;

// Where the columns of the number begin, and where they end in a line of the report.
pub const NUMBER: usize = KEY_BYTES + 1;

pub const NUMBER_END: usize = REPORT_LINE_BYTES - 1;

// What a line says.
#[derive(Clone, Copy)]
pub struct Row {
    pub code: [u8; 3],
    pub block: u64,
    pub item: u64,
    pub number: u64,
}

impl Row {
    // Writes the line into its own stretch of the report.
    // Kept: a slice of a length, as each of its callers lends a stretch of a longer text, and would make an array of it for this call alone.
    pub fn write(self, out: &mut [u8])
        requires { length out.old ≡ report_line_bytes }
        ensures { out.new ≡ row_in number_columns self }
    {
        self.write_in(out);
    }

    // Writes the line into a stretch that is longer than a line without its number: the number has the columns that are left beside the rest of it.
    #[tactic(auto, using(crate::proofs::LineBytes::line_filled))]
    pub fn write_in(self, out: &mut [u8])
        requires { line_bytes 0 < length out.old }
        ensures { out.new ≡ row_in (length out.old - line_bytes 0) self }
    {
        let last = out.len() - 1;
        write_key(&mut out[0..KEY_BYTES], self.code, self.block, self.item);
        out[KEY_BYTES] = b' ';
        write_field(&mut out[NUMBER..last], self.number);
        out[last] = b'\n';
    }
}
