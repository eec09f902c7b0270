// Level and trend of mortality, section 11.1.1: the credit for diversification between survival and death business.
#![tactic(auto)]

ghost use Rattle.std.specs.Prelude.{◌≡◌, ◌≤◌};
ghost use Rattle.amount.specs.Amount.{limit};
ghost use Rattle.guideline.specs.Block.{ir, lt};
ghost use Rattle.mortality.specs.Credit.{aggregated, diversification_credit, lowered};

use sizes::BLOCK_NUMBERS;
use wide::Wide;

// The credit for S and T, the level and trend sums of the survival and of the death products. It can pass the largest amount.
#[tactic(auto, using(crate::proofs::Credits::none_with_0, crate::proofs::Credits::credit_turned, crate::proofs::Credits::aggregated_most), unfolding(crate::specs::Credit::diversification_credit))]
pub fn credit(s: u64, t: u64) -> u64
    requires { (s ≤ limit) × (t ≤ limit) }
    ensures { result ≡ diversification_credit s t }
{
    // one sort of business alone has nothing to diversify with, and needs no root
    if s == 0 {
        return 0;
    }
    if t == 0 {
        return 0;
    }
    s + t - aggregated(s, t)
}

// The aggregate of S and T. Four times its radicand, 4S² + 4T² − 6ST, is (2(S − T))² + 2ST, a sum that needs no sign.
#[tactic(auto, using(crate::proofs::Credits::fourfold, crate::proofs::Credits::aggregated_found))]
fn aggregated(s: u64, t: u64) -> u64
    requires { (s ≤ limit) × (t ≤ limit) }
    ensures { result ≡ aggregated s t }
{
    let apart = s.abs_diff(t);
    let fourfold = Wide::product(2 * apart, 2 * apart) + Wide::product(2 * s, t);
    root::root_up(fourfold.quarter_up())
}

// A block's 17 numbers after its credit, which lowers both IR(1) and LT(1).
#[tactic(auto, unfolding(crate::specs::Credit::lowered))]
pub fn lowered(b: [u64; BLOCK_NUMBERS], c: u64) -> [u64; BLOCK_NUMBERS]
    requires { (c ≤ lt b 1) × (lt b 1 ≤ ir b 1) }
    ensures { result ≡ lowered c b }
{
    let mut after = b;
    after[0] = b[0] - c;
    after[1] = b[1] - c;
    after
}
