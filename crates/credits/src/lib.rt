// The credits of a sheet off the ledger that holds its lines: the mortality credit of each block, 11.1.1, rule 16's test of it, and the block's numbers
// after it; and the dividend credit of a block and the credits of adjustable products, read alone. Rule 17 tests the first of these in sheet_blocks, rule
// 13 all of them in judgement.
#![tactic(auto)]

ghost use Rattle.std.specs.Prelude.{◌≡◌, ◌≤◌, IfSome, is_none};
ghost use Rattle.basics.specs.First.{any_to};
ghost use Rattle.basics.specs.Total.{sum_to};
ghost use Rattle.sizes.specs.Sizes.{non_participating, blocks, adjustable_products};
ghost use Rattle.codes.specs.Codes.{dividend_class};
ghost use Rattle.places.specs.Entries.{has_line};
ghost use Rattle.ledger.specs.Numbers.{dividend_credit, adjustable_credit};
ghost use Rattle.ledger.specs.Lines.{OfLines};
ghost use Rattle.credits.specs.Credits.{credit_of, after_credit, credit_above, Credits, Covered};

use codes::{Code, DIVIDEND_CLASS, MORTALITY_RISK_CLASS, SUMS_CLASS};
use guideline::Block;
use ledger::Ledger;
use sizes::{ADJUSTABLE_PRODUCTS, NON_PARTICIPATING};

// A ledger with the reported credits of blocks 1 to 16, none of them above its block's LT(1): so rule 16 lets them pass.
#[derive(Clone, Copy)]
pub struct CreditedLedger<'a> {
    pub ledger: &'a Ledger,
    credits: [u64; NON_PARTICIPATING],
    pub ghost reported: { OfLines ledger.now (λ es. Credits es credits) },
    pub ghost covered: { OfLines ledger.now Covered },
}

// A ledger with its credits, or nothing where rule 16 turns its lines away.
pub fn credited(ledger: &Ledger) -> Option<CreditedLedger<'_>>
    ensures rule_16 { OfLines ledger.now (λ es. is_none result ≡ any_to (credit_above es) non_participating) }
    ensures ledger { IfSome result (λ c. c.ledger.now ≡ ledger.now) }
{
    let credits = credits_of(ledger);
    if any_credit_above(ledger, &credits) {
        return None;
    }
    Some(CreditedLedger { ledger, credits })
}

// The credits of blocks 1 to 16. One can pass the largest amount, and its block's LT(1).
pub fn credits_of(ledger: &Ledger) -> [u64; NON_PARTICIPATING]
    ensures { OfLines ledger.now (λ es. Credits es result) }
{
    let mut credits = [0u64; NON_PARTICIPATING];
    for i in 0..NON_PARTICIPATING {
        let sums = ledger.amounts(Code::Mor, i + 1, SUMS_CLASS);
        credits[i] = mortality::credit(sums.first, sums.second);
    }
    credits
}

// Whether one of blocks 1 to 16 has a credit above its LT(1).
pub fn any_credit_above(ledger: &Ledger, credits: &[u64; NON_PARTICIPATING]) -> bool
    requires credited { OfLines ledger.now (λ es. Credits es credits.now) }
    ensures { OfLines ledger.now (λ es. result ≡ any_to (credit_above es) non_participating) }
{
    (0..NON_PARTICIPATING).any(|i| ledger
        .amounts(Code::Rsk, i + 1, MORTALITY_RISK_CLASS)
        .second
        < credits[i])
}

impl<'a> CreditedLedger<'a> {
    // The numbers of a block after its credit, which rules 7, 8 and 9 let pass.
    pub fn numbers_after_credit(&self, block: usize) -> Block
        requires { (1 ≤ block) × (block ≤ blocks) }
        ensures { OfLines self.now.ledger.now (λ es. result.numbers ≡ after_credit es block) }
    {
        let entered = self.ledger.block_numbers(block);
        Block::new(mortality::lowered(entered, self.credit_of(block)))
    }

    // The mortality credit of a block: participating ones have none.
    fn credit_of(&self, block: usize) -> u64
        requires { 1 ≤ block }
        ensures { OfLines self.now.ledger.now (λ es. result ≡ credit_of es block) }
    {
        if NON_PARTICIPATING < block {
            return 0;
        }
        self.credits[block - 1]
    }
}

// The dividend credit of a block: those without participation have none.
// Kept: a block's range as a clause, here and in what it calls: a type would be opened at each use, where Key asks of a code, a block and a class.
pub fn dividend_credit(ledger: &Ledger, block: usize) -> u64
    requires block_number { (1 ≤ block) × (block ≤ blocks) }
    ensures { OfLines ledger.now (λ es. result ≡ dividend_credit es block) }
{
    if block <= NON_PARTICIPATING {
        return 0;
    }
    ledger.amounts(Code::Crd, block, DIVIDEND_CLASS).first
}

// Whether a block has the line of a dividend credit, of whatever amount.
pub fn has_dividend(ledger: &Ledger, block: usize) -> bool
    requires block_number { (1 ≤ block) × (block ≤ blocks) }
    ensures { OfLines ledger.now (λ es. result ≡ has_line es Code.Crd block dividend_class) }
{
    if block <= NON_PARTICIPATING {
        return false;
    }
    ledger.has_line(Code::Crd, block, DIVIDEND_CLASS)
}

// The sum of the credits of adjustable products.
pub fn adjustable_credits(ledger: &Ledger) -> u64
    ensures { OfLines ledger.now (λ es. result ≡ sum_to (adjustable_credit es) adjustable_products) }
{
    let mut sum = 0u64;
    for i in 0..ADJUSTABLE_PRODUCTS {
        sum += ledger.amounts(Code::Crd, 0, i + 1).first;
    }
    sum
}
