// Where a line stands in the tables, and the marks of the lines that are there. A mark is a byte, of which any but 0 counts.
//
// A table has a place for each line that there can be: a code's lines follow one another by block, and in a block by class. The lines that can have a
// second amount come first, so that one index serves the table of first amounts and the shorter one of second amounts.
#![tactic(auto)]

ghost use Rattle.std.specs.Prelude.{◌≡◌, ◌≤◌, ◌<◌};
ghost use Rattle.basics.specs.First.{any_to};
ghost use Rattle.codes.specs.Codes.{scalar_class, Key};
ghost use Rattle.sizes.specs.Sizes.{blocks};
ghost use Rattle.places.specs.Places.{places, index_of, index_for};
ghost use Rattle.places.specs.Marks.{has_mark, block_marked};

use codes::{Code, MOST_LINES, OTHER_CLASSES, PAIRED_LINES, RISK_CLASSES, SCALAR_CLASS};
use sheet_line::Entry;

// The places of the lines that can have a second amount, which come first.
pub const SECOND_PLACES: usize = PAIRED_LINES;

// The places of all lines that there can be.
pub const PLACES: usize = MOST_LINES;

// The index of an entry in each table.
pub fn index_for(e: Entry) -> usize
    requires { Key e.code e.block e.class }
    ensures { (result ≡ index_for e) × (result < places) }
{
    let code = e.code;
    index_of(code, cast::size(e.block), cast::size(e.class))
}

// Whether the sheet has the scalar's line.
pub fn has_scalar(marks: &[u8; PLACES]) -> bool
    ensures { result ≡ has_mark marks.now Code.Gen 0 scalar_class }
{
    has_mark(marks, Code::Gen, 0, SCALAR_CLASS)
}

// Whether a code, block and class has a mark.
pub fn has_mark(marks: &[u8; PLACES], code: Code, block: usize, class: usize) -> bool
    requires { Key code block class }
    ensures { result ≡ has_mark marks.now code block class }
{
    0 < marks[index_of(code, block, class)]
}

// The index of a code, block and class in each table.
// Kept: no struct of the three, here and above. Each call would fill it for this alone, and one that says `Key` could not have class 0 of a need.
pub fn index_of(code: Code, block: usize, class: usize) -> usize
    requires { Key code block class }
    ensures { (result ≡ index_of code block class) × (result < places) }
{
    let row = codes::row_of(code, cast::word(block));
    row.first_place + row.block_places * block.saturating_sub(1) + class - 1
}

// Whether a block has an RSK or OTH line.
// Kept: the block's range as a clause, as in credits, which says why.
pub fn block_exists(marks: &[u8; PLACES], block: usize) -> bool
    requires { (1 ≤ block) × (block ≤ blocks) }
    ensures { result ≡ block_marked marks.now block }
{
    any_class(marks, Code::Rsk, block, RISK_CLASSES)
        | any_class(marks, Code::Oth, block, OTHER_CLASSES)
}

// Whether one of the first classes of a code and block has a mark. All their marks are joined, so that there is no jump at the first.
fn any_class(marks: &[u8; PLACES], code: Code, block: usize, classes: usize) -> bool
    requires { Key code block classes }
    ensures { result ≡ any_to (has_mark marks.now code block) classes }
{
    let first = index_of(code, block, 1);
    marks[first..first + classes]
        .iter()
        .copied()
        .fold(false, |any, mark| any | (0 < mark))
}
