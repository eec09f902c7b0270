// The sum under the root sign of section 11.2.1, in quarters: row by row over all 49 products of two risks.
#![tactic(auto, unfolding(wide::specs::Value::value))]

ghost use Rattle.std.specs.Prelude.{◌≡◌, ℕ, ◌+◌, ◌*◌, ◌<◌, pos};
ghost use Rattle.guideline.specs.Factors.{factor, quarter_sum};
ghost use Rattle.sizes.specs.Sizes.{risks};
ghost use Rattle.wide.specs.Value.{value};
ghost use Rattle.correlation.specs.Products.{SmallYs, SoFar, Row};

use guideline::factor_at as f;
use sizes::RISKS;
use wide::Wide;

// 2^64, what one of a number's upper word counts.
const WORD_BASE: u128 = 18446744073709551616;

// 'Σ i,j=1..7  ρ_ij × (IR_i − 0,5 × LT_i) × (IR_j − 0,5 × LT_j)' of the seven y(i), which is never negative: in half cents and quarters it
// is four times Q.
pub fn correlated(y: &[u64; RISKS]) -> Wide
    requires { SmallYs y.now }
    ensures { pos (value result) ≡ quarter_sum y.now }
{
    in_words(row_by_row(y))
}

// The sum over i and j from 1 to 7, row by row over all 49 products, those with factor 0 too. f(k) is the factor of the product that
// comes after k others: read at places that are written out, the compiler works with the factors as with numbers.
// Kept: written out, and no loops over the rows and columns, in which the compiler read each factor and multiplied by it (docs/DECISIONS.md).
#[tactic(auto, unfolding(wide::specs::Value::value, integer::specs::Sum::sum))]
fn row_by_row(y: &[u64; RISKS]) -> i128
    requires { SmallYs y.now }
    ensures { result ≡ quarter_sum y.now }
{
    let s0 = 0;
    // i = 1, Mortalité
    let s1 = with_row(s0, y, 0, f(0), f(1), f(2), f(3), f(4), f(5), f(6));
    // i = 2, Longévité
    let s2 = with_row(s1, y, 1, f(7), f(8), f(9), f(10), f(11), f(12), f(13));
    // i = 3, Incidence et réclamations – Morbidité
    let s3 = with_row(s2, y, 2, f(14), f(15), f(16), f(17), f(18), f(19), f(20));
    // i = 4, Cessation de morbidité
    let s4 = with_row(s3, y, 3, f(21), f(22), f(23), f(24), f(25), f(26), f(27));
    // i = 5, Sensible aux déchéances
    let s5 = with_row(s4, y, 4, f(28), f(29), f(30), f(31), f(32), f(33), f(34));
    // i = 6, Fondé sur les déchéances
    let s6 = with_row(s5, y, 5, f(35), f(36), f(37), f(38), f(39), f(40), f(41));
    // i = 7, Dépenses
    with_row(s6, y, 6, f(42), f(43), f(44), f(45), f(46), f(47), f(48))
}

// Row i = row + 1: its seven products in the order of the columns j, each by its ρ_ij.
fn with_row(
    before: i128,
    y: &[u64; RISKS],
    row: usize,
    f1: i64,
    f2: i64,
    f3: i64,
    f4: i64,
    f5: i64,
    f6: i64,
    f7: i64,
) -> i128
    requires in_table { row < risks }
    requires so_far { SoFar y.now (risks * row) before }
    requires factors { Row row f1 f2 f3 f4 f5 f6 f7 }
    ensures { SoFar y.now (risks * row + risks) result }
{
    let s1 = with_product(before, y, row, 0, f1);
    let s2 = with_product(s1, y, row, 1, f2);
    let s3 = with_product(s2, y, row, 2, f3);
    let s4 = with_product(s3, y, row, 3, f4);
    let s5 = with_product(s4, y, row, 4, f5);
    let s6 = with_product(s5, y, row, 5, f6);
    with_product(s6, y, row, 6, f7)
}

// One product, ρ_ij × (IR_i − 0,5 × LT_i) × (IR_j − 0,5 × LT_j): the sum, in quarters and possibly below zero, goes from exactly
// that of the first k products, k = 7 × row + column, to that of the first k + 1; i is row + 1 and j is column + 1.
// A product is below 2^96 and a factor at most four quarters, so that 49 of them stay far below 2^127.
fn with_product(before: i128, y: &[u64; RISKS], row: usize, column: usize, quarters: i64) -> i128
    requires in_table { (row < risks) × (column < risks) }
    requires so_far { SoFar y.now (risks * row + column) before }
    requires is_factor { quarters ≡ factor (risks * row + column) }
    ensures { SoFar y.now (risks * row + (column + 1)) result }
{
    before + i128::from(quarters) * (i128::from(y[row]) * i128::from(y[column]))
}

// The sum as an unsigned number of two words, where it is shown not to be below 0.
fn in_words(sum: i128) -> Wide
    requires { (q : ℕ) × (sum ≡ pos q) }
    ensures { pos (value result) ≡ sum }
{
    // Kept: it isn't below 0, and each word fits; a TryFrom would have a failure that never comes.
    let sum = sum as u128;
    Wide {
        high: (sum / WORD_BASE) as u64,
        low: (sum % WORD_BASE) as u64,
    }
}
