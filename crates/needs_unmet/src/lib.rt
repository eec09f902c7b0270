// The check, request #113: whether a line that isn't all zero misses its companion, by the tables of the first and the second amounts of a sheet's
// lines.
#![tactic(auto)]

ghost use Rattle.std.specs.Prelude.{◌≡◌, ◌≤◌};
ghost use Rattle.sizes.specs.Sizes.{blocks};
ghost use Rattle.places.specs.Places.{tabled};
ghost use Rattle.needs.specs.Needs.{some_risk, companion_serves, all_zero, unmet_by};
ghost use Rattle.needs_unmet.specs.Companions.{HasPlace};

use codes::{Code, RISK_CLASSES};
use needs::{Label, Need};
use places::{PLACES, SECOND_PLACES};

// Whether the need of a line is unmet.
// Kept: tables beside one another, which any caller may fill; a ledger would ask more of callers.
// Kept: inlined, as the look-up of the companion is. Else the need is written to memory for each of 176 lines and read back (docs/DECISIONS.md).
#[inline(always)]
pub fn unmet(firsts: &[u64; PLACES], seconds: &[u64; SECOND_PLACES], need: Need) -> bool
    ensures { result ≡ unmet_by (tabled firsts.now) (tabled seconds.now) need.line }
{
    let line = need.line;
    let at = places::index_of(line.code, line.block, line.class);
    if all_zero(firsts[at], ledger::second_at(seconds, at)) {
        return false;
    }
    !companion_serves(firsts, need.companion)
}

// Whether both amounts are zero.
fn all_zero(first: u64, second: u64) -> bool
    ensures { result ≡ all_zero first second }
{
    first == 0 && second == 0
}

// Whether a companion is there and its first amount isn't 0.
// Kept: class 0 for whichever class there is, as `needs::needing` gives it.
#[inline(always)]
fn companion_serves(firsts: &[u64; PLACES], companion: Label) -> bool
    requires { HasPlace companion }
    ensures { result ≡ companion_serves (tabled firsts.now) companion }
{
    if companion.class == 0 {
        return some_risk(firsts, companion.block);
    }
    let code = companion.code;
    0 < ledger::amount_of(firsts, code, companion.block, companion.class)
}

// Whether an RSK line of a block has a first amount that isn't 0.
// Kept: the block's range as a clause, as in credits, which says why.
fn some_risk(firsts: &[u64; PLACES], block: usize) -> bool
    requires { (1 ≤ block) × (block ≤ blocks) }
    ensures { result ≡ some_risk (tabled firsts.now) block }
{
    (0..RISK_CLASSES).any(|i| 0 < ledger::amount_of(firsts, Code::Rsk, block, i + 1))
}
