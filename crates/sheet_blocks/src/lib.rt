// The blocks of a sheet worked out off the ledger that holds its lines: a row of figures for each, the sum of their K and of their dividend credits; and
// rule 17's test, whether one of these is above its block's K.
#![tactic(auto)]

ghost use Rattle.std.specs.Prelude.{◌≡◌, ◌+◌, ◌-◌, ◌^◌, ◌≤◌, ◌<◌};
ghost use Rattle.sizes.specs.Sizes.{blocks};
ghost use Rattle.ledger.specs.Lines.{OfLines};
ghost use Rattle.sheet_blocks.specs.Steps.{join, WorkedOut, RestKept};

use credits::CreditedLedger;
use figures::NumberedFigures;
use sizes::BLOCKS;

// What is known of the blocks up to some number: how many exist, the sum of their K, the sum of their dividend credits, and whether rule 17
// bars one of these.
// Kept: a flag beside the sums, since a Result or an Option would drop the promise of the sums and rows of a barred sheet's blocks, and be no
// plainer.
#[derive(Clone, Copy)]
pub struct BlockTotals {
    pub count: usize,
    pub sum: u64,
    pub dividends: u64,
    pub barred: bool,
}

// The rows of the blocks that exist, ascending, from the table's front on; behind them the table is as it was.
// Kept: the rows beside the ledger, here, below and in judgement; they are the caller's memory, lent for the call.
pub fn work_out(credited: &CreditedLedger<'_>, rows: &mut [NumberedFigures; BLOCKS]) -> BlockTotals
    ensures worked_out { OfLines credited.now.ledger.now (λ es. WorkedOut es blocks result rows.new) }
    ensures rest_kept { RestKept result.count rows.old rows.new }
{
    let mut w = BlockTotals {
        count: 0,
        sum: 0,
        dividends: 0,
        barred: false,
    };
    for i in 0..BLOCKS {
        w = work_block(credited, rows, i + 1, w);
    }
    w
}

// One block more: what is known of the blocks before it becomes what is known with it.
// Kept: the block's range as a clause, as in credits, which says why.
fn work_block(
    credited: &CreditedLedger<'_>,
    rows: &mut [NumberedFigures; BLOCKS],
    block: usize,
    w: BlockTotals,
) -> BlockTotals
    requires block_number { (1 ≤ block) × (block ≤ blocks) }
    requires worked_before { OfLines credited.now.ledger.now (λ es. WorkedOut es (block - 1) w rows.old) }
    ensures worked_out { OfLines credited.now.ledger.now (λ es. WorkedOut es block result rows.new) }
    ensures rest_kept { (w.count ≤ result.count) × RestKept result.count rows.old rows.new }
{
    let ledger = credited.ledger;
    if !ledger.block_exists(block) {
        let absent = BlockTotals {
            count: 0,
            sum: 0,
            dividends: credits::dividend_credit(ledger, block),
            barred: credits::has_dividend(ledger, block),
        };
        return joined_totals(w, absent);
    }
    let numbers = credited.numbers_after_credit(block);
    let figures = figures::figures_of(&numbers);
    let dividend = credits::dividend_credit(ledger, block);
    rows[w.count] = NumberedFigures {
        block: cast::word(block),
        figures,
    };
    let present = BlockTotals {
        count: 1,
        sum: figures.k,
        dividends: dividend,
        barred: figures.k < dividend,
    };
    joined_totals(w, present)
}

// What is known of some blocks and of those after them. Whether one is barred is told without a jump.
fn joined_totals(w: BlockTotals, more: BlockTotals) -> BlockTotals
    requires { (w.count + more.count < 2 ^ 64) × (w.sum + more.sum < 2 ^ 64) × (w.dividends + more.dividends < 2 ^ 64) }
    ensures { result ≡ join w more }
{
    BlockTotals {
        count: w.count + more.count,
        sum: w.sum + more.sum,
        dividends: w.dividends + more.dividends,
        barred: w.barred | more.barred,
    }
}
