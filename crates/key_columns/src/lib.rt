// Columns 1 to 9 of a line, of a sheet, a report or a listing: code, block, and class or item.
#![tactic(auto)]

ghost use Rattle.std.specs.Prelude.{◌≡◌, length};
ghost use Rattle.key_columns.specs.Key.{key_bytes, key};

use field::two_columns;

// The bytes of these columns.
pub const KEY_BYTES: usize = 9;

// Where the columns of the code end, and where those of the block begin and end. Those of the class or item end with the nine.
pub const CODE_END: usize = 3;

pub const BLOCK: usize = 4;

pub const BLOCK_END: usize = 6;

pub const CLASS: usize = 7;

// Writes them into their own stretch: a code and two numbers, with a space before each.
pub fn write_key(out: &mut [u8], code: [u8; 3], block: u64, class: u64)
    requires { length out.old ≡ key_bytes }
    ensures { out.new ≡ key code block class }
{
    out[0..CODE_END].copy_from_slice(&code);
    out[CODE_END] = b' ';
    out[BLOCK..BLOCK_END].copy_from_slice(&two_columns(block));
    out[BLOCK_END] = b' ';
    out[CLASS..KEY_BYTES].copy_from_slice(&two_columns(class));
}
