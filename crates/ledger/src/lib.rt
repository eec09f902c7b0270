// The tables that hold the lines of a sheet, a ledger, and the numbers that are taken off it; one amount off any tables.
//
// First amounts, second amounts and marks have a table each, with a place for each line that there can be; that of second amounts has one for each line
// that can have a second amount, and for RSK's expenses.
#![tactic(auto)]

ghost use Rattle.std.specs.Prelude.{◌≡◌, get_or};
ghost use Rattle.codes.specs.Codes.{Key};
ghost use Rattle.places.specs.Places.{tabled};
ghost use Rattle.ledger.specs.Tables.{HoldSome};

use codes::{CREDIT_CLASS, Code, MARKET_CLASS, PC_CLASS, RISK_CLASSES};
use places::{PLACES, SECOND_PLACES};
use refusal::Rule;
use sheet_line::Entry;
use sizes::{BLOCK_NUMBERS, CREDIT_POSITION, MARKET_POSITION, PC_POSITION};

// The lines of a sheet in three tables. The tables of every ledger hold some lines, which no rule of a line turns away.
// Kept: no table of structs, in fixed memory: it would take 24 bytes a place, those without a second amount too, and a converted sheet holds the marks
// alone.
#[derive(Drop)]
pub struct Ledger {
    firsts: [u64; PLACES],
    seconds: [u64; SECOND_PLACES],
    marks: [u8; PLACES],
    pub ghost held: { ∥ HoldSome firsts seconds marks ∥₁ },
}

// The two amounts of a line.
#[derive(Clone, Copy)]
pub struct Amounts {
    pub first: u64,
    pub second: u64,
}

impl Ledger {
    ghost use Rattle.std.specs.Prelude.{◌≡◌, ◌+◌, ◌≤◌};
    ghost use Rattle.codes.specs.Codes.{general_classes, scalar_class, Key};
    ghost use Rattle.sizes.specs.Sizes.{blocks};
    ghost use Rattle.places.specs.Places.{tabled};
    ghost use Rattle.places.specs.Marks.{has_mark, block_marked};
    ghost use Rattle.ledger.specs.Numbers.{block_by};
    ghost use Rattle.ledger.specs.Lines.{Empty, Sound, Entered};

    // A ledger without a line.
    pub fn new() -> Ledger
        ensures { Empty result }
    {
        Ledger {
            firsts: [0; PLACES],
            seconds: [0; SECOND_PLACES],
            marks: [0; PLACES],
        }
    }

    // Admits a line after those before it, and enters one that no rule turns away.
    pub fn admit(&mut self, line: Result<Entry, Rule>, last: u64) -> Result<Entry, Rule>
        requires { Sound line }
        ensures { Entered line last self.old result self.new }
    {
        let admitted = order::admit(line, last, &mut self.marks);
        if let Ok(e) = admitted {
            let at = places::index_for(e);
            self.firsts[at] = e.first;
            if at < SECOND_PLACES {
                self.seconds[at] = e.second;
            }
        }
        admitted
    }

    // The first amounts, each at the place of its line.
    pub fn firsts(&self) -> &[u64; PLACES]
        ensures { result.now ≡ self.now.firsts }
    {
        &self.firsts
    }

    // The second amounts, each at the place of its line.
    pub fn seconds(&self) -> &[u64; SECOND_PLACES]
        ensures { result.now ≡ self.now.seconds }
    {
        &self.seconds
    }

    // The numbers of a block, in the order of the block call: seven pairs IR, LT, then PC, credit, market.
    // Kept: the block's range as a clause, here and below, as in credits, which says why.
    #[tactic(auto, unfolding(places::specs::Places::index_of))]
    pub fn block_numbers(&self, block: usize) -> [u64; BLOCK_NUMBERS]
        requires { (1 ≤ block) × (block ≤ blocks) }
        ensures { result ≡ block_by (tabled self.now.firsts) (tabled self.now.seconds) block }
    {
        let mut numbers = [0u64; BLOCK_NUMBERS];
        for i in 0..RISK_CLASSES {
            let at = places::index_of(Code::Rsk, block, i + 1);
            numbers[2 * i] = self.firsts[at];
            numbers[2 * i + 1] = self.seconds[at];
        }
        numbers[PC_POSITION] = self.firsts[places::index_of(Code::Oth, block, PC_CLASS)];
        numbers[CREDIT_POSITION] = self.firsts[places::index_of(Code::Oth, block, CREDIT_CLASS)];
        numbers[MARKET_POSITION] = self.firsts[places::index_of(Code::Oth, block, MARKET_CLASS)];
        numbers
    }

    // The current volume of a class in a territory, and the prior one, joined with the acquired one: two amounts of lines fit a word.
    pub fn volume(&self, territory: usize, class: usize) -> Amounts
        requires { Key Code.Vol territory class }
        ensures first { result.first ≡ tabled self.now.firsts Code.Vol territory class }
        ensures second { result.second ≡ tabled self.now.seconds Code.Vol territory class + tabled self.now.firsts Code.Acq territory class }
    {
        let own = self.amounts(Code::Vol, territory, class);
        let acquired = amount_of(&self.firsts, Code::Acq, territory, class);
        Amounts {
            first: own.first,
            second: own.second + acquired,
        }
    }

    // The amount of a GEN line.
    pub fn general_amount(&self, class: usize) -> u64
        requires { (1 ≤ class) × (class ≤ general_classes) }
        ensures { result ≡ tabled self.now.firsts Code.Gen 0 class }
    {
        amount_of(&self.firsts, Code::Gen, 0, class)
    }

    // The amounts of a code, block and class, zeros where there is no such line.
    pub fn amounts(&self, code: Code, block: usize, class: usize) -> Amounts
        requires { Key code block class }
        ensures first { result.first ≡ tabled self.now.firsts code block class }
        ensures second { result.second ≡ tabled self.now.seconds code block class }
    {
        let at = places::index_of(code, block, class);
        Amounts {
            first: self.firsts[at],
            second: second_at(&self.seconds, at),
        }
    }

    // Whether there is a line of a code, block and class.
    pub fn has_line(&self, code: Code, block: usize, class: usize) -> bool
        requires { Key code block class }
        ensures { result ≡ has_mark self.now.marks code block class }
    {
        places::has_mark(&self.marks, code, block, class)
    }

    // Whether a block has an RSK or OTH line.
    pub fn block_exists(&self, block: usize) -> bool
        requires { (1 ≤ block) × (block ≤ blocks) }
        ensures { result ≡ block_marked self.now.marks block }
    {
        places::block_exists(&self.marks, block)
    }

    // Whether the sheet has the scalar's line.
    pub fn has_scalar(&self) -> bool
        ensures { result ≡ has_mark self.now.marks Code.Gen 0 scalar_class }
    {
        places::has_scalar(&self.marks)
    }
}

// The first amount of a code, block and class.
// Kept: tables, here and below, which any caller may fill; a ledger would ask more of callers.
pub fn amount_of(firsts: &[u64; PLACES], code: Code, block: usize, class: usize) -> u64
    requires { Key code block class }
    ensures { result ≡ tabled firsts.now code block class }
{
    firsts[places::index_of(code, block, class)]
}

// The amount that the table of second amounts has at an index, and 0 behind its places.
pub fn second_at(seconds: &[u64; SECOND_PLACES], at: usize) -> u64
    ensures { result ≡ get_or seconds.now at 0 }
{
    if at < SECOND_PLACES { seconds[at] } else { 0 }
}
