// The rules of what a line says, in document 01's order: each is a test, true where it turns the line away.
ghost use Rattle.std.specs.Prelude.{◌≡◌};
ghost use Rattle.sheet_line.specs.Rules.{outside, is_scalar, rule5};

use super::Entry;
use refusal::Rule;
use sizes::LARGEST_SCALAR;

// Rules 5 to 10: the entry, where none of them turns it away. Rule 5 is that the block is outside the code's range, rule 6 that the class is.
#[tactic(auto, using(crate::proofs::Acceptance::single_within), unfolding(crate::specs::Rules::rule5, crate::specs::Rules::rule6, crate::specs::Rules::rule8, crate::specs::Rules::rule9, crate::specs::Rules::rule10, basics::specs::Pick::pick))]
pub(crate) fn judged(e: Entry) -> Result<Entry, Rule>
    ensures { result ≡ rule5 e }
{
    let row = codes::row_of(e.code, e.block);
    if outside(row.lowest, row.highest, e.block) {
        return Err(Rule::BlockOutside);
    }
    if outside(1, row.classes, e.class) {
        return Err(Rule::ClassOutside);
    }
    if e.class > row.paired && e.second != 0 {
        return Err(Rule::SecondAmount);
    }
    if row.trend && e.first < e.second {
        return Err(Rule::TrendAboveComponent);
    }
    if is_scalar(e) && outside(1, LARGEST_SCALAR, e.first) {
        return Err(Rule::ScalarOutside);
    }
    Ok(e)
}

// Whether a line is that of the scalar g.
//
// Kept: asked of the class too that it is not 0, the scalar of a row without one. Where rule 6 was tested before, the compiler leaves that out; of the
// row's scalar it would not.
#[tactic(auto, unfolding(basics::specs::Pick::pick))]
pub fn is_scalar(e: Entry) -> bool
    ensures { result ≡ is_scalar e }
{
    0 < e.class && e.class == codes::row_of(e.code, e.block).scalar
}

// Whether n is outside low to high.
#[tactic(auto, unfolding(crate::specs::Rules::outside, basics::specs::Pick::pick))]
fn outside(low: u64, high: u64, n: u64) -> bool
    ensures { result ≡ outside low high n }
{
    !(low..=high).contains(&n)
}
