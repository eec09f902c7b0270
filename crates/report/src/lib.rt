// A report, each line written into its own stretch of a lent slice.
#![tactic(auto)]

ghost use Rattle.std.specs.Prelude.{◌≡◌, ◌++◌, ◌-◌, ◌*◌, ◌≤◌, ◌<◌, length, map, drop};
ghost use Rattle.sizes.specs.Sizes.{blocks, block_figures};
ghost use Rattle.figures.specs.Parts.{numbered_figures};
ghost use Rattle.report_line.specs.Line.{line_bytes, report_line_bytes, rows_in, print_rows};
ghost use Rattle.report.specs.Rows.{items_from, table_rows, report_bytes, report_length};

use figures::NumberedFigures;
use report_line::{REPORT_LINE_BYTES, Row};
use sizes::{BLOCK_FIGURES, BLOCKS};

// Three lines close a report.
const TOTALS: usize = 3;

// The bytes of a block's lines.
const BLOCK_BYTES: usize = REPORT_LINE_BYTES * BLOCK_FIGURES;

// All blocks and the totals.
pub const LONGEST_REPORT: usize = REPORT_LINE_BYTES * (BLOCK_FIGURES * BLOCKS + TOTALS);

// The length of the report of so many blocks.
pub fn length_for(count: usize) -> usize
    requires { count ≤ blocks }
    ensures { result ≡ report_length count }
{
    REPORT_LINE_BYTES * (BLOCK_FIGURES * count + TOTALS)
}

// A whole report: a block's number and its five figures in each row, and then the totals: the sum of K, RO and the buffer.
pub fn write_report(rows: &[NumberedFigures], totals: &[u64; TOTALS], report: &mut [u8])
    requires { (length rows.now ≤ blocks) × (report_length (length rows.now) ≤ length report.old) }
    ensures { report.new ≡ report_bytes (map numbered_figures rows.now) totals.now ++ drop (report_length (length rows.now)) report.old }
{
    write_blocks(rows, report);
    let at = BLOCK_BYTES * rows.len();
    write_items(
        &mut report[at..at + REPORT_LINE_BYTES * TOTALS],
        REPORT_LINE_BYTES,
        *b"TOT",
        0,
        totals,
    );
}

// The blocks, five lines each.
fn write_blocks(rows: &[NumberedFigures], report: &mut [u8])
    requires { (length rows.now ≤ blocks) × (report_line_bytes * (block_figures * length rows.now) ≤ length report.old) }
    ensures { report.new ≡ print_rows (table_rows (map numbered_figures rows.now))
        ++ drop (report_line_bytes * (block_figures * length rows.now)) report.old }
{
    for (i, row) in rows.iter().enumerate() {
        let at = BLOCK_BYTES * i;
        let f = row.figures;
        write_items(
            &mut report[at..at + BLOCK_BYTES],
            REPORT_LINE_BYTES,
            *b"BLK",
            row.block,
            &[f.i, f.d, f.u, f.lt, f.k],
        );
    }
}

// Lines of one code and block, items 1 and up, each into its own stretch of so many bytes.
pub fn write_items(out: &mut [u8], line: usize, code: [u8; 3], block: u64, numbers: &[u64])
    requires { (line_bytes 0 < line) × (length out.old ≡ line * length numbers.now) }
    ensures { out.new ≡ rows_in (line - line_bytes 0) (items_from 1 code block numbers.now) }
{
    for (k, &number) in numbers.iter().enumerate() {
        let at = line * k;
        let item = cast::word(k + 1);
        let row = Row {
            code,
            block,
            item,
            number,
        };
        row.write_in(&mut out[at..at + line]);
    }
}
