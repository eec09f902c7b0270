// The fluctuation call: the factors of section 11.1.2, which reduce a large requirement.
#![tactic(auto)]

ghost use Rattle.std.specs.Prelude.{◌≡◌, ◌*◌, ◌<◌, ◌≤◌, leb};
ghost use Rattle.refusal.specs.Outcome.{stated_number};
ghost use Rattle.amount.specs.Amount.{limit};
ghost use Rattle.basics.specs.Least.{least};
ghost use Rattle.fluctuation.specs.Rows.{row_count, row_of};
ghost use Rattle.fluctuation.specs.Result.{scale, reaches, factored_requirement};
ghost use Rattle.fluctuation.specs.Call.{fluctuation_call};
ghost use Rattle.fluctuation.specs.Accepted.{AcceptedFluctuation, FluctuationDemand};
ghost use Rattle.fluctuation.specs.Parts.{factor_for, most_second, Falls, InReach};

use refusal::{Place, Refusal, Rule};
use wide::Wide;

// The square of 20, for a first number in twentieths, times 100, for a base in cents.
const SCALE: u64 = 40000;
// The rows of section 11.1.2.
const ROWS: u64 = 7;

// A factor that falls with its base: a first number, in twentieths, and a second number over the root of the base in dollars; the base, in
// cents, comes third. The fields have no names, so that each row below stays one line of a table.
#[derive(Clone, Copy)]
struct Falling(u64, u64, u64);

// A requirement times its factor, of any row, requirement and face amount in cents. Where they are accepted, the result meets the accuracy
// rule with one cent.
// Kept: row, requirement and face amount as three parameters, which the C interface has; a struct of them would be filled here for two functions.
#[tactic(auto, using(amount::proofs::Rule7::refused_7, crate::proofs::Rules::no_row_below, crate::proofs::Rules::no_row_above, crate::proofs::Rules::passed_18, crate::proofs::Rules::within_limit))]
pub fn fluctuation_call(row: u64, requirement: u64, face: u64) -> Result<u64, Refusal>
    ensures outcome { stated_number result ≡ fluctuation_call row requirement face }
    ensures accuracy { FluctuationDemand row requirement face (stated_number result) }
{
    if row < 1 {
        return Err(Refusal(Rule::UnknownRow, Place::Nowhere));
    }
    if ROWS < row {
        return Err(Refusal(Rule::UnknownRow, Place::Nowhere));
    }
    let amounts = [requirement, face];
    if let Some(above) = amount::first_above(&amounts) {
        return Err(Refusal(Rule::AmountAboveLimit, Place::Position(above)));
    }
    Ok(fluctuation(row, requirement, face))
}

// The requirement times its factor, rounded up to the cent.
fn fluctuation(row: u64, requirement: u64, face: u64) -> u64
    requires { AcceptedFluctuation row requirement face }
    ensures { result ≡ factored_requirement (row_of row) requirement face }
{
    match factor_of(row, requirement, face) {
        None => requirement,
        Some(factor) => times_factor(factor, requirement),
    }
}

// The rows of section 11.1.2, each with its threshold in cents; up to it there is no factor below 1. The base is the requirement, for critical
// illness the face amount.
// Kept: the rows stay a match on their number and on the range of the threshold, a form that the project names (docs/DECISIONS.md); an enum of
// the rows would say each of them once more.
#[tactic(auto, using(crate::proofs::Rows::picks_one, crate::proofs::Rows::picks_falling), unfolding(crate::specs::Rows::rows, crate::specs::Rows::row_of, crate::specs::Rows::base_of))]
fn factor_of(row: u64, requirement: u64, face: u64) -> Option<Falling>
    requires { (1 ≤ row) × (row ≤ row_count) }
    ensures { result ≡ factor_for (row_of row) requirement face }
{
    match row {
        // disability level
        1 => match requirement {
            0..=4200000000 => None,
            _ => Some(Falling(18, 648, requirement)),
        },
        // long-term care level
        2 => match requirement {
            0..=7500000000 => None,
            _ => Some(Falling(10, 4330, requirement)),
        },
        // disability volatility
        3 => match requirement {
            0..=600000000 => None,
            _ => Some(Falling(14, 734, requirement)),
        },
        // long-term care volatility
        4 => match requirement {
            0..=300000000 => None,
            _ => Some(Falling(6, 1212, requirement)),
        },
        // travel and credit
        5 => match requirement {
            0..=500000000 => None,
            _ => Some(Falling(4, 1788, requirement)),
        },
        // medical and dental
        6 => match requirement {
            0..=300000000 => None,
            _ => Some(Falling(14, 519, requirement)),
        },
        // critical illness
        7 => match face {
            0..=30000000000 => None,
            _ => Some(Falling(3, 14722, face)),
        },
        // no row
        _ => None,
    }
}

// The requirement times a factor below 1. In twentieths of a cent it is first × requirement and what the second number adds.
#[tactic(auto, using(crate::proofs::LeastCents::square_small, crate::proofs::LeastCents::root_high))]
fn times_factor(factor: Falling, requirement: u64) -> u64
    requires { Falls factor.0 factor.1 factor.2 requirement }
    ensures { result ≡ least (reaches factor.0 factor.1 factor.2 requirement) }
{
    let Falling(first, second, base) = factor;
    let over = over_root(requirement, second, base);
    (first * requirement + over).div_ceil(20)
}

// 20 × c over the root of the base in dollars, rounded up, for c = requirement × second.
fn over_root(requirement: u64, second: u64, base: u64) -> u64
    requires { (requirement ≤ limit) × (second ≤ most_second) × InReach (requirement * second) base }
    ensures { result ≡ least (λ x. leb (scale * (requirement * second * (requirement * second))) (x * x * base)) }
{
    if base == requirement {
        return over_own_root(second, base);
    }
    over_any_root(requirement * second, base)
}

// Where the base is the requirement, as in rows 1 to 6: c² over the base is then the base times the second number's square, and nothing is divided.
fn over_own_root(second: u64, base: u64) -> u64
    requires { (second ≤ most_second) × (0 < base) × (base ≤ limit) }
    ensures { result ≡ least (λ x. leb (scale * (base * second * (base * second))) (x * x * base)) }
{
    root::root_up(Wide::product(SCALE * (second * second), base))
}

// The same for any base. The radicand is SCALE × c² over the base in cents, rounded up: c² is divided first, so that two words hold it, and then
// what that leaves.
fn over_any_root(c: u64, base: u64) -> u64
    requires { InReach c base }
    ensures { result ≡ least (λ x. leb (scale * (c * c)) (x * x * base)) }
{
    let by = division::divide(Wide::product(c, c), base);
    let quotient = by.quotient;
    let part = division::divide_up(Wide::product(SCALE, by.rest), base);
    root::root_up(quotient * SCALE + Wide::from(part))
}
