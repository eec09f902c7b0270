// A line of the listing, written: the label of a line, and that of its companion.
#![tactic(auto)]

ghost use Rattle.std.specs.Prelude.{◌≡◌, length};
ghost use Rattle.key_columns.specs.Key.{key_bytes};
ghost use Rattle.needs.specs.Listing.{label_of, listed_bytes, listed_line};

use key_columns::{KEY_BYTES, write_key};
use needs::Label;

// Where the label of the companion begins and ends.
const COMPANION: usize = KEY_BYTES + 1;

const COMPANION_END: usize = COMPANION + KEY_BYTES;

// Writes a line of the listing into its own stretch: the two labels, then what stands behind each.
pub fn write_listed(out: &mut [u8], line: Label, companion: Label)
    requires { length out.old ≡ listed_bytes }
    ensures { out.new ≡ listed_line line companion }
{
    write_label(&mut out[0..KEY_BYTES], line);
    write_label(&mut out[COMPANION..COMPANION_END], companion);
    out[KEY_BYTES] = b' ';
    out[COMPANION_END] = b'\n';
}

// Writes code, block and class in the sheet's columns.
fn write_label(out: &mut [u8], l: Label)
    requires { length out.old ≡ key_bytes }
    ensures { out.new ≡ label_of l }
{
    let code = l.code;
    write_key(out, code.into(), cast::word(l.block), cast::word(l.class));
}
