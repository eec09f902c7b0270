// The number fields of a sheet's line: two columns as two digits, and fourteen as one word, without a loop. What a field holds is told by the
// crate field.
#![tactic(auto)]

ghost use Rattle.std.specs.Prelude.{◌≡◌, [], ◌∷◌, ◌<◌, ◌^◌, MatchOption};
ghost use Rattle.field.specs.Field.{field};
ghost use Rattle.line_fields.specs.Words.{word, AllDigits, number, Holds, HoldsNone};

// The columns of a block and of a class.
pub const PAIR_COLUMNS: usize = 2;

// The columns of an amount.
pub const AMOUNT_COLUMNS: usize = 14;

// Fourteen spaces as a word.
const SPACES: u128 = 0x2020_2020_2020_2020_2020_2020_2020;

// What a digit 0 is above a space, in each byte.
const MARKS: u128 = 0x1010_1010_1010_1010_1010_1010_1010_1010;

// The upper half of each byte, and what takes a number above 9 there.
const UPPER_HALVES: u128 = 0x8080_8080_8080_8080_8080_8080_8080_8080;

const TO_UPPER_HALF: u128 = 0x7676_7676_7676_7676_7676_7676_7676_7676;

// What a byte before two others counts, what one before eight others does, and what a digit before eight others does.
const TWO_BYTES: u64 = 0x1_0000;

const EIGHT_BYTES: u128 = 0x1_0000_0000_0000_0000;

const EIGHT_DIGITS: u64 = 100_000_000;

// Every second byte of a word, every second pair of bytes, and the second four.
const SECOND_BYTES: u64 = 0x00ff_00ff_00ff_00ff;

const SECOND_PAIRS: u64 = 0x0000_ffff_0000_ffff;

const SECOND_FOUR: u64 = 0xffff_ffff;

// The number in two columns.
#[tactic(auto, using(basics::proofs::Values::is_values), unfolding(basics::proofs::Values::values))]
pub fn read_pair(s: &[u8; PAIR_COLUMNS]) -> Option<u64>
    ensures { result ≡ field s.now }
{
    pair_of(s[0], s[1])
}

// A digit behind a space, or two digits of which the first is not 0.
#[tactic(auto, unfolding(field::specs::Field::field, field::specs::Field::digits, basics::specs::Pick::pick))]
fn pair_of(tens: u8, ones: u8) -> Option<u64>
    ensures { result ≡ field (tens ∷ ones ∷ []) }
{
    let last = field::digit_of(ones)?;
    if tens == b' ' {
        return Some(last);
    }
    if tens == b'0' {
        return None;
    }
    Some(10 * field::digit_of(tens)? + last)
}

// The number in the columns of an amount.
#[inline]
pub fn read_amount(s: &[u8; AMOUNT_COLUMNS]) -> Option<u64>
    ensures { result ≡ field s.now }
{
    let digits = digits_in(word_of(s))?;
    Some(number_of(digits))
}

// The columns as one word, the first as its highest byte.
#[tactic(auto, using(crate::proofs::Columns::joined), unfolding(basics::proofs::Values::values))]
fn word_of(s: &[u8; AMOUNT_COLUMNS]) -> u128
    ensures { result ≡ word s.now }
{
    let four = u32::from_be_bytes([s[0], s[1], s[2], s[3]]);
    let two = u16::from_be_bytes([s[4], s[5]]);
    let eight = u64::from_be_bytes([s[6], s[7], s[8], s[9], s[10], s[11], s[12], s[13]]);
    let six = u64::from(four) * TWO_BYTES + u64::from(two);
    u128::from(six) * EIGHT_BYTES + u128::from(eight)
}

// The digits, a byte each, of a word that is spaces and then a number; none where it is not. Of a space 0 is left, and of a digit its number with a
// mark, so the marks tell where digits stand.
#[tactic(auto, using(crate::proofs::Bytes::within_all, crate::proofs::Bits::lower_halves, crate::proofs::WordTests::word_tests), unfolding(crate::proofs::Bytes::lanes))]
fn digits_in(w: u128) -> Option<u128>
    ensures { MatchOption result (HoldsNone w) (λ y. AllDigits 16 y × Holds w (number 16 y)) }
{
    if w <= SPACES {
        return None;
    }
    let held = w - SPACES;
    let marks = held & MARKS;
    let y = held - marks;
    // the marks of all digits but the first
    let behind = marks >> 8;
    if marks & behind != behind {
        return None;
    }
    // 0 before a digit, and a byte without a mark
    if y < behind || marks < y {
        return None;
    }
    // a byte above 9
    if y & UPPER_HALVES != 0 {
        return None;
    }
    if (y + TO_UPPER_HALF) & UPPER_HALVES != 0 {
        return None;
    }
    Some(y)
}

// The number whose decimal digits the bytes are.
fn number_of(y: u128) -> u64
    requires { AllDigits 16 y }
    ensures { result ≡ number 16 y }
{
    // Kept: a word has no From of a wider number, and a TryFrom would have a failure that never comes.
    EIGHT_DIGITS * number_of_eight((y / EIGHT_BYTES) as u64)
        + number_of_eight((y % EIGHT_BYTES) as u64)
}

// The same of eight bytes. Two neighbours at a time become one number, in the place of the second: digits, then numbers of two digits, then of four.
#[tactic(auto, using(crate::proofs::Bytes::within_all, crate::proofs::Bytes::number_lt, crate::proofs::Numbers::by_bytes))]
fn number_of_eight(y: u64) -> u64
    requires { AllDigits 8 y }
    ensures value { result ≡ number 8 y }
    ensures bound { result < 10 ^ 8 }
{
    let pairs = (10 * (y >> 8) + y) & SECOND_BYTES;
    let fours = (100 * (pairs >> 16) + pairs) & SECOND_PAIRS;
    (10_000 * (fours >> 32) + fours) & SECOND_FOUR
}
