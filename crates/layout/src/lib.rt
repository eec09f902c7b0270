// The layout of a sheet's line, columns 4 to 40: the four numbers, and what stands between them; and which whole lines of a sheet keep it.
#![tactic(auto)]

ghost use Rattle.std.specs.Prelude.{◌≡◌};
ghost use Rattle.basics.specs.First.{FoundAt};
ghost use Rattle.layout.specs.Columns.{separated_of, layout_of};
ghost use Rattle.layout.specs.Whole.{whole_lines, lines_kept};

use key_columns::{BLOCK, BLOCK_END, CLASS, CODE_END, KEY_BYTES};

// The bytes of a line, its line feed with them.
pub const SHEET_LINE_BYTES: usize = 40;

// Where the columns of the two amounts begin and end.
pub const FIRST: usize = KEY_BYTES + 1;

pub const FIRST_END: usize = 24;

pub const SECOND: usize = 25;

pub const SECOND_END: usize = 39;

// The four numbers of a line.
#[derive(Clone, Copy)]
pub struct Numbers {
    pub block: u64,
    pub class: u64,
    pub first: u64,
    pub second: u64,
}

// Reads the four numbers, where nothing breaks the layout.
#[tactic(auto, unfolding(crate::specs::Columns::layout_of, basics::specs::Pick::pick))]
pub fn read_layout(s: &[u8; SHEET_LINE_BYTES]) -> Option<Numbers>
    ensures { result ≡ layout_of s.now }
{
    if !separated(s) {
        return None;
    }
    let block = line_fields::read_pair(s[BLOCK..BLOCK_END].as_array()?)?;
    let class = line_fields::read_pair(s[CLASS..KEY_BYTES].as_array()?)?;
    let first = line_fields::read_amount(s[FIRST..FIRST_END].as_array()?)?;
    let second = line_fields::read_amount(s[SECOND..SECOND_END].as_array()?)?;
    Some(Numbers {
        block,
        class,
        first,
        second,
    })
}

// The bytes between the fields: spaces, and a line feed last.
#[tactic(auto, unfolding(crate::specs::Columns::spaced, basics::specs::Pick::pick))]
fn separated(s: &[u8; SHEET_LINE_BYTES]) -> bool
    ensures { result ≡ separated_of s.now }
{
    s[CODE_END] == b' '
        && s[BLOCK_END] == b' '
        && s[KEY_BYTES] == b' '
        && s[FIRST_END] == b' '
        && s[SECOND_END] == b'\n'
}

// The first whole line of a sheet whose layout is broken, by how many stand before it; none where no layout is broken. What stands behind the last
// whole line is not looked at.
// Kept: two lines, as in movement_input; one function over the length and the reader would be these, with a clause of what the reader tells.
#[tactic(auto, using(crate::proofs::WholeLines::broken_found))]
pub fn first_broken(sheet: &[u8]) -> Option<usize>
    ensures { FoundAt (whole_lines sheet.now) (lines_kept sheet.now) result }
{
    let (lines, _) = sheet.as_chunks::<SHEET_LINE_BYTES>();
    lines.iter().position(|line| read_layout(line).is_none())
}
