// The least whole number whose square reaches a number of two words, found one binary digit at a time.
#![tactic(auto)]

ghost use Rattle.std.specs.Prelude.{◌≡◌, ℕ, ◌+◌, ◌-◌, ◌*◌, ◌/◌, ◌^◌, ◌<◌, ◌≤◌, leb, ltb};
ghost use Rattle.basics.specs.Least.{least};
ghost use Rattle.basics.specs.Pick.{pick};
ghost use Rattle.wide.specs.Value.{value};
ghost use Rattle.root.specs.Steps.{steps, After};

use wide::Wide;

// 2^60: the place, in the window's upper word, of the two digits that are brought down next.
const PLACE_OF_DIGITS: u64 = 1152921504606846976;

// A root and the steps that it took.
#[derive(Clone, Copy)]
pub struct Root {
    pub root: u64,
    pub steps: u64,
}

// The least whole number whose square is at least n.
pub fn root_up(n: Wide) -> u64
    requires { value n < 2 ^ 124 }
    ensures { result ≡ least (λ x. leb (value n) (x * x)) }
{
    root_and_steps(n).root
}

// The same with its steps: each fixes one binary digit, and after step j the held value is the root, rounded down, of the leading 2j digits
// of n. Below 2^124 the root and what its square leaves fit a word at each step.
#[tactic(auto, using(crate::proofs::Lengths::has_digits, crate::proofs::Roots::few))]
pub fn root_and_steps(n: Wide) -> Root
    requires { value n < 2 ^ 124 }
    ensures { (result.root ≡ least (λ x. leb (value n) (x * x))) × (result.steps ≡ steps (value n)) }
{
    let count = count_steps(n);
    if count == 0 {
        return Root { root: 0, steps: 0 };
    }
    let mut window = aligned(n, count);
    let mut root = 0u64;
    let mut rest = 0u64;
    for _j in 0..count {
        let held = step(window, root, rest);
        window = held.window;
        root = held.root;
        rest = held.rest;
    }
    let steps = u64::from(count);
    if rest == 0 {
        Root { root, steps }
    } else {
        Root {
            root: root + 1,
            steps,
        }
    }
}

// What is held between two steps: the digits of the radicand that are not yet brought down, the root so far, and what its square leaves.
#[derive(Clone, Copy)]
struct RootSoFar {
    window: Wide,
    root: u64,
    rest: u64,
}

// One step, of whatever radicand n: from what is held after step j to what is held after step j + 1.
fn step(window: Wide, root: u64, rest: u64) -> RootSoFar
    requires { (rest ≤ 2 * root) × (root < 2 ^ 61) × (window.high < 2 ^ 62) }
    ensures { (n j : ℕ) → n < 2 ^ 124 → j < steps n → After n j (value window) root rest → After n (j + 1) (value result.window) result.root result.rest }
{
    let digits = top_digits(window);
    let moved = bring_down(window);
    let longer = root_step(root, rest, digits);
    RootSoFar {
        window: moved,
        root: longer.root,
        rest: longer.rest,
    }
}

// A root with one binary digit more, and what its square leaves.
#[derive(Clone, Copy)]
struct PartialRoot {
    root: u64,
    rest: u64,
}

// One binary digit of the root: two binary digits of the radicand are brought down.
fn root_step(root: u64, rest: u64, digits: u64) -> PartialRoot
    requires { (rest ≤ 2 * root) × (root < 2 ^ 61) × (digits < 4) }
    ensures value { (result.root * result.root + result.rest ≡ 4 * (root * root + rest) + digits) × (result.rest ≤ 2 * result.root) }
    ensures digit { (2 * root ≤ result.root) × (result.root ≤ 2 * root + 1) }
{
    let next = 4 * rest + digits;
    let four = 4 * root;
    let digit = one_if_above(next, four);
    let left = left_above(next, four);
    PartialRoot {
        root: 2 * root + digit,
        rest: left,
    }
}

// 1 where the odd number behind `four` is within what is left, else 0: a number to reckon with, as a jump on it would be mispredicted half the time.
#[tactic(auto, unfolding(basics::specs::Pick::pick))]
fn one_if_above(next: u64, four: u64) -> u64
    ensures { result ≡ pick (ltb four next) 1 0 }
{
    u64::from(four < next)
}

// What is left without that odd number, where it is within: the compiler makes no jump of the choice, since both are at hand.
#[tactic(auto, unfolding(basics::specs::Pick::pick))]
fn left_above(next: u64, four: u64) -> u64
    ensures { result ≡ pick (ltb four next) (next - four - 1) next }
{
    if four < next { next - four - 1 } else { next }
}

// The two binary digits that are brought down next. They stand two below the top of the window: with them at the top, the compiler makes
// `4 * rest + digits` one shift across two words, the rest and the window's upper word. That takes longer, and each step waits on the rest.
fn top_digits(window: Wide) -> u64
    requires { window.high < 2 ^ 62 }
    ensures { (result ≡ window.high / 2 ^ 60) × (result < 4) }
{
    let high = window.high;
    high >> 60
}

// The window without these two digits, moved up by two: two cross from the lower word into the upper one.
#[tactic(auto, unfolding(wide::specs::Value::value))]
fn bring_down(window: Wide) -> Wide
    ensures moved { value result + window.high / 2 ^ 60 * 2 ^ 126 ≡ 4 * value window }
    ensures free { result.high < 2 ^ 62 }
{
    let high = window.high;
    let low = window.low;
    Wide {
        high: ((high % PLACE_OF_DIGITS) << 2) + (low >> 62),
        low: low << 2,
    }
}

// The starting place: n moved up by an even number of its leading zeros, so that its padded length stands two binary digits below the top.
#[tactic(auto, using(crate::proofs::Windows::start_fits, crate::proofs::Windows::far_moved, crate::proofs::Windows::near_moved), unfolding(wide::specs::Value::value))]
fn aligned(n: Wide, count: u32) -> Wide
    requires { (0 < count) × (count ≤ 62) × (value n < 4 ^ count) }
    ensures { value result ≡ value n * 4 ^ (63 - count) }
{
    let high = n.high;
    let low = n.low;
    if count <= 31 {
        Wide {
            high: low << (62 - 2 * count),
            low: 0,
        }
    } else {
        Wide {
            high: (high << (126 - 2 * count)) + (low >> (2 * count - 62)),
            low: low << (126 - 2 * count),
        }
    }
}

// Half the binary length of n, padded to an even number: its leading zeros are those of its upper word, or of its lower one where that is 0.
#[tactic(auto, using(crate::proofs::Lengths::one_word, crate::proofs::Lengths::two_words), unfolding(wide::specs::Value::value))]
fn count_steps(n: Wide) -> u32
    ensures { result ≡ steps (value n) }
{
    let high = n.high;
    let low = n.low;
    if high == 0 {
        (65 - u64::leading_zeros(low)) / 2
    } else {
        (129 - u64::leading_zeros(high)) / 2
    }
}
