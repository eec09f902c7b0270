// A sheet's buffer, or what turns the sheet away.
#![tactic(auto)]

ghost use Rattle.std.specs.Prelude.{◌≡◌};
ghost use Rattle.refusal.specs.Outcome.{stated_number};
ghost use Rattle.judgement.specs.Judgement.{judgement};
ghost use Rattle.quarter_sheet.specs.Answer.{buffer_of};

use figures::NumberedFigures;
use judgement::Totals;
use ledger::Ledger;
use refusal::Refusal;
use sizes::BLOCKS;

// The buffer of an accepted sheet, or the rule that refuses it, with its place. The ledger and the table of rows that judging needs are its own.
pub fn buffer_of(sheet: &[u8]) -> Result<u64, Refusal>
    ensures { stated_number result ≡ buffer_of (judgement sheet.now) }
{
    let mut ledger = Ledger::new();
    let mut rows = [NumberedFigures::default(); BLOCKS];
    judgement::judge(sheet, &mut ledger, &mut rows).map(
        |totals: Totals|
            ensures { result ≡ totals.buffer }
        { totals.buffer },
    )
}
