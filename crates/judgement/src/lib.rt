// A sheet judged by every rule but 14, and what its report is to say.
#![tactic(auto)]

ghost use Rattle.std.specs.Prelude.{◌≡◌, ◌+◌, ◌*◌, ◌≤◌, ◌<◌, leb};
ghost use Rattle.guideline.specs.Buffer.{most_available};
ghost use Rattle.basics.specs.Least.{least};
ghost use Rattle.sizes.specs.Sizes.{ten_thousandths, largest_scalar, territories, volume_classes, volume_pairs};
ghost use Rattle.guideline.specs.Operational.{charged, RO};
ghost use Rattle.ledger.specs.Lines.{Empty, OfLines};
ghost use Rattle.ledger.specs.Numbers.{volumes_of};
ghost use Rattle.judgement.specs.Judgement.{judgement, rule12, rule17, findings, stated};
ghost use Rattle.judgement.specs.Sheet.{sheet_of};
ghost use Rattle.judgement.specs.Steps.{LinesOf, BehindRows};

use codes::{CEDED_CLASS, GROSS_CLASS, GROUP_CREDITS_CLASS, GUARANTEE_CLASS, SCALAR_CLASS};
use credits::CreditedLedger;
use figures::NumberedFigures;
use ledger::Ledger;
use refusal::{Place, Refusal, Rule};
use sizes::{BLOCKS, TEN_THOUSANDTHS, TERRITORIES, VOLUME_CLASSES};

// What a sheet comes to: how many blocks exist, the sum of their K, RO and the buffer.
#[derive(Clone, Copy)]
pub struct Totals {
    pub count: usize,
    pub sum: u64,
    pub ro: u64,
    pub buffer: u64,
}

// Judges a sheet of any bytes: its totals, or the rule that turns it away, with its place. Where it is sound, the rows of its blocks' figures stand
// in front of the lent table of rows, which is as it was behind them, and the ledger holds its lines. What the ledger holds of a sheet that is
// turned away is left free.
pub fn judge(
    sheet: &[u8],
    ledger: &mut Ledger,
    rows: &mut [NumberedFigures; BLOCKS],
) -> Result<Totals, Refusal>
    requires { Empty ledger.old }
    ensures findings { stated result rows.new ≡ findings (judgement sheet.now) }
    ensures tables { LinesOf (judgement sheet.now) ledger.new }
    ensures behind_rows { BehindRows result rows.old rows.new }
{
    let length = sheet_length::measure(sheet);
    length?;
    let read = sheet_reader::read_lines(sheet, ledger);
    read?;
    after_lines(ledger, rows)
}

// Rules 12 and 16, of lines that are all good, and then rules 17 and 13.
fn after_lines(ledger: &Ledger, rows: &mut [NumberedFigures; BLOCKS]) -> Result<Totals, Refusal>
    ensures findings { OfLines ledger.now (λ es. stated result rows.new ≡ findings (rule12 es)) }
    ensures behind_rows { BehindRows result rows.old rows.new }
{
    if !ledger.has_scalar() {
        return Err(Refusal(Rule::ScalarMissing, Place::Nowhere));
    }
    let Some(credited) = credits::credited(ledger) else {
        return Err(Refusal(Rule::CreditAboveTrend, Place::Nowhere));
    };
    totals_of(&credited, rows)
}

// Rules 17 and 13, of lines that rule 16 lets pass too, and the totals.
fn totals_of(
    credited: &CreditedLedger<'_>,
    rows: &mut [NumberedFigures; BLOCKS],
) -> Result<Totals, Refusal>
    ensures findings { OfLines credited.now.ledger.now (λ es. stated result rows.new ≡ findings (rule17 es)) }
    ensures behind_rows { BehindRows result rows.old rows.new }
{
    let ledger = credited.ledger;
    let w = sheet_blocks::work_out(credited, rows);
    let count = w.count;
    let sum = w.sum;
    if w.barred {
        return Err(Refusal(Rule::DividendBarred, Place::Nowhere));
    }
    let ro = operational_figure(ledger);
    let available = sum - w.dividends + ledger.general_amount(GUARANTEE_CLASS) + ro;
    let free = credits::adjustable_credits(ledger) + ledger.general_amount(GROUP_CREDITS_CLASS);
    if available < free {
        return Err(Refusal(Rule::CreditsAboveBracket, Place::Nowhere));
    }
    let buffer = times_scalar(ledger.general_amount(SCALAR_CLASS), available - free);
    Ok(Totals {
        count,
        sum,
        ro,
        buffer,
    })
}

// g × bracket over 10,000, rounded up. The product can pass a word: the bracket is split by 10,000 first.
fn times_scalar(g: u64, bracket: u64) -> u64
    requires { (g ≤ largest_scalar) × (bracket ≤ most_available) }
    ensures { result ≡ least (λ x. leb (g * bracket) (ten_thousandths * x)) }
{
    g * (bracket / TEN_THOUSANDTHS) + (g * (bracket % TEN_THOUSANDTHS)).div_ceil(TEN_THOUSANDTHS)
}

// RO of the lines.
fn operational_figure(ledger: &Ledger) -> u64
    ensures { OfLines ledger.now (λ es. result ≡ RO (sheet_of es).volumes (sheet_of es).general) }
{
    let general = [
        ledger.general_amount(GROSS_CLASS),
        ledger.general_amount(GUARANTEE_CLASS),
        ledger.general_amount(CEDED_CLASS),
    ];
    operational::figure_of(volume_and_growth(ledger), &general)
}

// Volume and growth of all classes of all territories, over 50,000. The volumes are read where they stand in the ledger: each is
// read once, and a list of them would only be a copy.
// Kept: out of line. Taken in, it has no register for the ledger's address, which is then read again for each class.
#[inline(never)]
fn volume_and_growth(ledger: &Ledger) -> u64
    ensures { OfLines ledger.now (λ es. result ≡ charged (volumes_of es) volume_pairs) }
{
    let mut sum = 0u64;
    for i in 0..TERRITORIES {
        sum = with_territory(ledger, i, sum);
    }
    sum
}

// The same of the territories before one, and then with it.
fn with_territory(ledger: &Ledger, before: usize, charged_before: u64) -> u64
    requires in_range { before < territories }
    requires before { OfLines ledger.now (λ es. charged_before ≡ charged (volumes_of es) (volume_classes * before)) }
    ensures { OfLines ledger.now (λ es. result ≡ charged (volumes_of es) (volume_classes * (before + 1))) }
{
    let mut sum = charged_before;
    for i in 0..VOLUME_CLASSES {
        let volume = ledger.volume(before + 1, i + 1);
        // an absent line means zeros, and most territories of a small society have none
        if 0 < volume.first {
            sum += operational::charge(guideline::volume_factor(i), volume.first, volume.second);
        }
    }
    sum
}
