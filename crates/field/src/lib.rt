// A decimal number in columns: written, and a digit of it read.
#![tactic(auto)]

// A number that may be below 0.
pub mod signed;

ghost use Rattle.std.specs.Prelude.{◌≡◌, ◌+◌, ◌-◌, ◌/◌, ◌%◌, ◌≤◌, ◌<◌, length, MatchOption};
ghost use Rattle.field.specs.Field.{digit_or_space, decimal};

// The number of a digit.
pub fn digit_of(b: u8) -> Option<u64>
    ensures { MatchOption result (48 ≤ b → 57 < b) (λ d. (48 ≤ b) × ((b ≤ 57) × (d ≡ b - 48))) }
{
    match b {
        b'0'..=b'9' => Some(u64::from(b - b'0')),
        _ => None,
    }
}

// The last two columns of each number below 200: from 100 on two digits, below that spaces before the number.
static LAST_TWO: [u8; 400] = *b"   1 2 3 4 5 6 7 8 9101112131415161718192021222324\
    25262728293031323334353637383940414243444546474849\
    50515253545556575859606162636465666768697071727374\
    75767778798081828384858687888990919293949596979899\
    00010203040506070809101112131415161718192021222324\
    25262728293031323334353637383940414243444546474849\
    50515253545556575859606162636465666768697071727374\
    75767778798081828384858687888990919293949596979899";

// The number v, right-justified in the columns of out.
#[tactic(auto, using(crate::proofs::WrittenColumns::last_written, crate::proofs::WrittenColumns::two_written, crate::proofs::WrittenColumns::one_written, crate::proofs::WrittenColumns::all_written))]
pub fn write_field(out: &mut [u8], v: u64)
    requires { 0 < length out.old }
    ensures { out.new ≡ decimal (length out.old) v }
{
    let last = out.len() - 1;
    // 0 has a digit too, so the last column never holds a space
    out[last] = digit(v);
    let mut left = v / 10;
    let mut at = last;
    while at >= 2 {
        at -= 2;
        let (tens, ones) = last_two(left);
        out[at + 1] = ones;
        out[at] = tens;
        left /= 100;
    }
    if at == 1 {
        out[0] = digit_or_space(left);
    }
}

// A number's last two columns, which a number that has ended leaves to spaces.
#[tactic(auto, using(crate::proofs::Pairs::tens_at, crate::proofs::Pairs::ones_at))]
fn last_two(v: u64) -> (u8, u8)
    ensures { (result.0 ≡ digit_or_space (v / 10)) × (result.1 ≡ digit_or_space v) }
{
    let at = 2 * below_200(v);
    (LAST_TWO[at], LAST_TWO[at + 1])
}

// The number below 200 that has a number's last two columns.
#[tactic(auto, using(crate::proofs::Pairs::ones_alike, crate::proofs::Pairs::tens_alike))]
fn below_200(v: u64) -> usize
    ensures within { result < 200 }
    ensures tens { digit_or_space (result / 10) ≡ digit_or_space (v / 10) }
    ensures ones { digit_or_space result ≡ digit_or_space v }
{
    if v < 100 {
        return v as usize;
    }
    (100 + v % 100) as usize
}

// The number v in two columns.
#[tactic(auto, unfolding(crate::specs::Field::decimal, crate::specs::Field::leading_digits))]
pub fn two_columns(v: u64) -> [u8; 2]
    ensures { result ≡ decimal 2 v }
{
    [digit_or_space(v / 10), digit(v)]
}

// The last digit of a number, or a space before a number that has ended.
#[tactic(auto, using(basics::proofs::Branches::tests), unfolding(crate::specs::Field::digit_or_space))]
fn digit_or_space(v: u64) -> u8
    ensures { result ≡ digit_or_space v }
{
    if v == 0 {
        return b' ';
    }
    digit(v)
}

// The last digit of a number.
fn digit(v: u64) -> u8
    ensures { result ≡ 48 + v % 10 }
{
    // Kept: a byte has no From of a word, and a TryFrom would have a failure that never comes.
    (48 + v % 10) as u8
}
