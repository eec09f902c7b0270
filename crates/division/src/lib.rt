// The quotient and the rest of a number of two words by a word, and the quotient rounded up.
#![tactic(auto)]

ghost use Rattle.std.specs.Prelude.{◌≡◌, ◌+◌, ◌-◌, ◌*◌, ◌/◌, ◌%◌, ◌^◌, ◌<◌, ◌≤◌, leb};
ghost use Rattle.basics.specs.Least.{least};
ghost use Rattle.wide.specs.Value.{value};

use wide::Wide;

// A quotient and its rest. The quotient has one word or two.
#[derive(Clone, Copy)]
pub struct Division<Q> {
    pub quotient: Q,
    pub rest: u64,
}

// n over d, rounded up, where that fits a word: then the upper word is below d.
// Kept: a struct of a divisor within these bounds would be made for each call and taken apart in it, for two callers.
#[tactic(auto, using(crate::proofs::Quotients::up_room), unfolding(wide::specs::Value::value))]
pub fn divide_up(n: Wide, d: u64) -> u64
    requires { (0 < d) × (d < 2 ^ 63) × (value n ≤ d * (2 ^ 64 - 1)) }
    ensures { result ≡ least (λ q. leb (value n) (d * q)) }
{
    let by = divide_lower(n.high, n.low, d);
    let quotient = by.quotient;
    let rest = by.rest;
    if 0 < rest { quotient + 1 } else { quotient }
}

// n over any d of at most 63 binary digits, with its rest: the upper word by the machine's division where it isn't below d, then the lower one.
#[tactic(auto, using(crate::proofs::Quotients::two_words), unfolding(wide::specs::Value::value))]
pub fn divide(n: Wide, d: u64) -> Division<Wide>
    requires { (0 < d) × (d < 2 ^ 63) }
    ensures { (result.rest < d) × (value result.quotient * d + result.rest ≡ value n) }
{
    let high = n.high;
    let upper = if high < d {
        Division {
            quotient: 0,
            rest: high,
        }
    } else {
        divide_word(high, d)
    };
    let lower = divide_lower(upper.rest, n.low, d);
    Division {
        quotient: Wide {
            high: upper.quotient,
            low: lower.quotient,
        },
        rest: lower.rest,
    }
}

// A word over d. The rest is what the quotient leaves: of a quotient and a rest by `%` the compiler makes two divisions.
fn divide_word(n: u64, d: u64) -> Division<u64>
    requires { 0 < d }
    ensures { (result.rest < d) × (result.quotient * d + result.rest ≡ n) }
{
    let quotient = n / d;
    Division {
        quotient,
        rest: n - quotient * d,
    }
}

// A word below a rest, over d: each step brings down as many binary digits as the rest so far leaves free. Below no rest one division is enough.
#[tactic(auto, using(crate::proofs::Quotients::narrower))]
fn divide_lower(above: u64, low: u64, d: u64) -> Division<u64>
    requires { (above < d) × (d < 2 ^ 63) }
    ensures { (result.rest < d) × (result.quotient * d + result.rest ≡ above * 2 ^ 64 + low) }
{
    if above == 0 {
        return divide_word(low, d);
    }
    let mut left = 64u32;
    let mut held = Division {
        quotient: 0,
        rest: above,
    };
    // Kept: each step takes as many digits off those that are left as its rest has room for, which no range counts.
    while 0 < left {
        let width = step_width(held.rest, left);
        left -= width;
        held = divide_step(held, low, left, width, d);
    }
    held
}

// How many of the binary digits that are left fit below the rest in a word; a rest of 0 leaves room for 63, as one of 1 does.
fn step_width(rest: u64, left: u32) -> u32
    requires { (rest < 2 ^ 63) × (0 < left) }
    ensures { (0 < result) × (result ≤ left) × (result < 64) × ((rest + 1) * 2 ^ result ≤ 2 ^ 64) }
{
    u64::leading_zeros(rest.max(1)).min(left)
}

// One step of a long division by d: the `width` binary digits of low above its last `left` are brought down to the rest so far.
fn divide_step(before: Division<u64>, low: u64, left: u32, width: u32, d: u64) -> Division<u64>
    requires widths { (left < 64) × (width < 64) × ((before.rest + 1) * 2 ^ width ≤ 2 ^ 64) }
    requires room { (before.rest < d) × ((before.quotient + 1) * 2 ^ width ≤ 2 ^ 64) }
    ensures below { (result.rest < d) × (result.quotient + 1 ≤ (before.quotient + 1) * 2 ^ width) }
    ensures value { result.quotient * d + result.rest ≡ (before.quotient * d + before.rest) * 2 ^ width + low / 2 ^ left % 2 ^ width }
{
    let quotient = before.quotient;
    let rest = before.rest;
    let base = power_of_two(width);
    let by = divide_word(rest * base + (low >> left) % base, d);
    Division {
        quotient: quotient * base + by.quotient,
        rest: by.rest,
    }
}

// 2^k, the base of a step's digits.
fn power_of_two(k: u32) -> u64
    requires { k < 64 }
    ensures { result ≡ 2 ^ k }
{
    1 << k
}
