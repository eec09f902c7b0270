// The operational call: chapter 8 for all territories.
#![tactic(auto)]

ghost use Rattle.std.specs.Prelude.{◌≡◌, ℕ, ◌+◌, ◌-◌, ◌*◌, ◌^◌, ◌≤◌, ◌<◌, leb, length};
ghost use Rattle.basics.specs.Least.{least};
ghost use Rattle.refusal.specs.Outcome.{stated_number};
ghost use Rattle.amount.specs.Amount.{limit};
ghost use Rattle.sizes.specs.Sizes.{volume_numbers};
ghost use Rattle.guideline.specs.Operational.{OperationalAmounts, largest_factor, current, prior, volume, growth, general_requirement, operational_denominator, RO};
ghost use Rattle.operational.specs.Call.{operational_call};

use guideline::OPERATIONAL_DENOMINATOR;
use refusal::{Place, Refusal, Rule};
use sizes::{GENERAL_FIGURES, TERRITORY_NUMBERS, VOLUME_CLASSES, VOLUME_NUMBERS};

// RO, of volumes of any length, 16 numbers a territory, then gross components, guarantee requirement and ceded premiums.
// Kept: volumes and general figures as two parameters, which the C interface has; a struct of both would be taken apart at once in `operational`.
pub fn operational_call(volumes: &[u64], general: &[u64; GENERAL_FIGURES]) -> Result<u64, Refusal>
    ensures { stated_number result ≡ operational_call volumes.now general.now }
{
    let n = volumes.len();
    if VOLUME_NUMBERS < n {
        return Err(Refusal(Rule::VolumesLength, Place::Nowhere));
    }
    if n % TERRITORY_NUMBERS != 0 {
        return Err(Refusal(Rule::VolumesLength, Place::Nowhere));
    }
    if let Some(above) = amount::first_above(volumes) {
        return Err(Refusal(Rule::AmountAboveLimit, Place::Position(above)));
    }
    if let Some(after) = amount::first_above(general) {
        return Err(Refusal(Rule::AmountAboveLimit, Place::Position(n + after)));
    }
    Ok(operational(volumes, general))
}

// RO. Its numerator, over 50,000, just fits a word: for 16 territories it is below 1.67 × 10^19.
fn operational(volumes: &[u64], general: &[u64; GENERAL_FIGURES]) -> u64
    requires { OperationalAmounts volumes.now general.now }
    ensures { result ≡ RO volumes.now general.now }
{
    figure_of(volume_and_growth(volumes), general)
}

// RO, by volume and growth, over 50,000: the general requirement is added, and the sum rounded.
pub fn figure_of(volume_and_growth: u64, general: &[u64; GENERAL_FIGURES]) -> u64
    requires { volume_and_growth + 5 * general_requirement general.now < 2 ^ 64 }
    ensures { result ≡ least (λ x. leb (volume_and_growth + 5 * general_requirement general.now) (operational_denominator * x)) }
{
    rounded_up(volume_and_growth + 5 * general_requirement(general))
}

// The general requirement, over 10,000.
fn general_requirement(figures: &[u64; GENERAL_FIGURES]) -> u64
    requires { general_requirement figures.now < 2 ^ 64 }
    ensures { result ≡ general_requirement figures.now }
{
    575 * figures[0] + 450 * figures[1] + 250 * figures[2]
}

// Volume and growth of all classes of all territories, over 50,000.
fn volume_and_growth(volumes: &[u64]) -> u64
    requires most_volumes { length volumes.now ≤ volume_numbers }
    requires within_limit { ((k : ℕ) → current volumes.now k ≤ limit) × ((k : ℕ) → prior volumes.now k ≤ 2 * limit) }
    ensures { result ≡ 5 * volume volumes.now + growth volumes.now }
{
    let mut sum = 0u64;
    for k in 0..volumes.len() / 2 {
        sum += charge(
            guideline::volume_factor(k % VOLUME_CLASSES),
            volumes[2 * k],
            volumes[2 * k + 1],
        );
    }
    sum
}

// A class in a territory, over 50,000. The excess over 120 % of the prior volume is in fifths, so that none is lost.
pub fn charge(factor: u64, current: u64, prior: u64) -> u64
    requires { (factor ≤ largest_factor) × (current ≤ limit) × (prior ≤ 2 * limit) }
    ensures { result ≡ factor * (5 * current + (5 * current - 6 * prior)) }
{
    factor * (5 * current + amount::excess(5 * current, 6 * prior))
}

// The one rounding, at the end, to whole cents.
fn rounded_up(numerator: u64) -> u64
    ensures { result ≡ least (λ x. leb numerator (operational_denominator * x)) }
{
    numerator.div_ceil(OPERATIONAL_DENOMINATOR)
}
