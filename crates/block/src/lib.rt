// The block call: chapter 11.2 for one block, behind rules 7, 8 and 9.
#![tactic(auto)]

ghost use Rattle.std.specs.Prelude.{◌≡◌, IfOk};
ghost use Rattle.basics.specs.First.{FoundAt};
ghost use Rattle.sizes.specs.Sizes.{risks};
ghost use Rattle.guideline.specs.Block.{AcceptedBlock};
ghost use Rattle.block.specs.Call.{stated, stated_block, stated_tested, block_call, first_lt_above};
ghost use Rattle.block.specs.Accepted.{BlockDemand3, FewSteps};

use figures::FiguresAndSteps;
use guideline::Block;
use refusal::{Place, Refusal, Rule};
use sizes::{BLOCK_NUMBERS, LAST_LT_POSITION, RISKS};

// A block of any 17 numbers: seven pairs IR, LT, then PC, credit, market. Where it is accepted, the figures meet demand 3,
// and no root took more than 58 steps.
pub fn block_call(b: &[u64; BLOCK_NUMBERS]) -> Result<FiguresAndSteps, Refusal>
    ensures outcome { stated result ≡ block_call b.now }
    ensures demand3 { BlockDemand3 b.now (stated result) }
    ensures few_steps { FewSteps (stated result) }
{
    rules_7_to_9(b)?;
    Ok(figures::worked_out(&Block::new(*b)))
}

// The block of any 17 numbers, where rules 7, 8 and 9 let them pass: what the block call accepts, and refuses otherwise.
pub fn accepted_block(b: &[u64; BLOCK_NUMBERS]) -> Result<Block, Refusal>
    ensures outcome { stated_block result ≡ block_call b.now }
    ensures numbers { IfOk result (λ block. block.numbers ≡ b.now) }
{
    rules_7_to_9(b)?;
    Ok(Block::new(*b))
}

// Rules 7, 8 and 9 of any 17 numbers. The answer holds no copy of the numbers: one in an enum is stored by bytes and copied by words, which waits.
fn rules_7_to_9(b: &[u64; BLOCK_NUMBERS]) -> Result<(), Refusal>
    ensures outcome { stated_tested b.now result ≡ block_call b.now }
    ensures passed { IfOk result (λ nothing. AcceptedBlock b.now) }
{
    if let Some(above) = amount::first_above(b) {
        return Err(Refusal(Rule::AmountAboveLimit, Place::Position(above)));
    }
    if b[LAST_LT_POSITION] != 0 {
        return Err(Refusal(Rule::SecondAmount, Place::Position(LAST_LT_POSITION)));
    }
    if let Some(risk) = first_lt_above(b) {
        return Err(Refusal(Rule::TrendAboveComponent, Place::Position(2 * risk + 1)));
    }
    Ok(())
}

// The first risk, counted from 0, whose level and trend part is above its component, where there is one.
fn first_lt_above(b: &[u64; BLOCK_NUMBERS]) -> Option<usize>
    ensures { FoundAt risks (first_lt_above b.now) result }
{
    (0..RISKS).find(|i| b[2 * *i] < b[2 * *i + 1])
}
