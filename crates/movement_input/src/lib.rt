// What the movement call, request #111, is given: a text of 18 lines, an amount in 14 columns and a line feed each, the block's 17 numbers and then
// the raise t. It is read here.
#![tactic(auto)]

ghost use Rattle.std.specs.Prelude.{◌≡◌, ◌<◌};
ghost use Rattle.basics.specs.First.{FoundAt};
ghost use Rattle.movement_input.specs.Reading.{input_lines, amount_of, lines_kept, number_at, block_of};

use line_fields::AMOUNT_COLUMNS;
use sizes::BLOCK_NUMBERS;

// They and the line feed.
const INPUT_LINE_BYTES: usize = AMOUNT_COLUMNS + 1;

// The block's numbers, and t.
pub const INPUT_LINES: usize = BLOCK_NUMBERS + 1;

// 270 bytes.
pub const INPUT_BYTES: usize = INPUT_LINE_BYTES * INPUT_LINES;

// The first line that is broken, by how many stand before it; none where no line is.
// Kept: two lines, as in layout, which says why.
pub fn first_broken(input: &[u8; INPUT_BYTES]) -> Option<usize>
    ensures { FoundAt input_lines (lines_kept input.now) result }
{
    let (lines, _) = input.as_chunks::<INPUT_LINE_BYTES>();
    lines.iter().position(|line| read_amount(line).is_none())
}

// The block's numbers; what a line holds that is broken counts for nothing.
pub fn block_of(input: &[u8; INPUT_BYTES]) -> [u64; BLOCK_NUMBERS]
    ensures { result ≡ block_of input.now }
{
    let mut numbers = [0u64; BLOCK_NUMBERS];
    for i in 0..BLOCK_NUMBERS {
        numbers[i] = number_at(input, i);
    }
    numbers
}

// The number of the line behind i others.
pub fn number_at(input: &[u8; INPUT_BYTES], i: usize) -> u64
    requires { i < input_lines }
    ensures { result ≡ number_at input.now i }
{
    let (lines, _) = input.as_chunks::<INPUT_LINE_BYTES>();
    read_amount(&lines[i]).unwrap_or(0)
}

// A line's amount; none where the line is broken.
#[tactic(auto, unfolding(crate::specs::Reading::amount_of, basics::specs::Pick::pick))]
fn read_amount(line: &[u8; INPUT_LINE_BYTES]) -> Option<u64>
    ensures { result ≡ amount_of line.now }
{
    if line[AMOUNT_COLUMNS] != b'\n' {
        return None;
    }
    line_fields::read_amount(line[0..AMOUNT_COLUMNS].as_array()?)
}
