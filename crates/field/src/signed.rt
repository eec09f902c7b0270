// A number in columns that may be below 0.
ghost use Rattle.std.specs.Prelude.{◌≡◌, ◌<◌, length, set};
ghost use Rattle.std.proofs.Math.IntN.{sub_ℕ};
ghost use Rattle.field.specs.Signed.{with_minus, signed};

use super::write_field;

// How far `to` is above `from`, right-justified in the columns of out; where it is below, with a minus right before its digits.
#[tactic(auto, using(crate::proofs::Minus::risen, crate::proofs::Minus::fallen))]
pub fn write_difference(out: &mut [u8], to: u64, from: u64)
    requires { 0 < length out.old }
    ensures { out.new ≡ signed (length out.old) (sub_ℕ to from) }
{
    if from <= to {
        write_field(out, to - from);
        return;
    }
    write_field(out, from - to);
    let at = minus_place(out);
    out[at] = b'-';
}

// The last of the spaces that stand before a field's digits.
#[tactic(auto, using(crate::proofs::Minus::spaced_start, crate::proofs::Minus::spaced_more, crate::proofs::Minus::spaced_last, crate::proofs::Minus::spaced_end))]
fn minus_place(s: &[u8]) -> usize
    requires { 0 < length s.now }
    ensures { (result < length s.now) × (set s.now result 45 ≡ with_minus s.now) }
{
    let last = s.len() - 1;
    for i in 0..last {
        if s[i + 1] != b' ' {
            return i;
        }
    }
    last
}
