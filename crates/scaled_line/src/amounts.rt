// The amounts of a line in the two sorts of sheet: rules 20 and 21.
ghost use Rattle.std.specs.Prelude.{◌≡◌};
ghost use Rattle.scaled_line.specs.Amounts.{barred, barred_by, has_barred, convertible, convertible_by_number};

use super::Scale;
use amount::LARGEST_AMOUNT;
use refusal::Rule;
use sheet_line::{Entry, rules};

// The cents of a thousand dollars.
const THOUSAND_DOLLARS: u64 = 100000;

// The most thousands whose cents have 14 digits.
const MOST_THOUSANDS: u64 = LARGEST_AMOUNT / THOUSAND_DOLLARS;

impl Scale {
    // The last test of a line: rule 20 of a sheet in cents, rule 21 of one in thousands.
    #[tactic(auto, unfolding(crate::specs::Amounts::rule20or21, basics::specs::Pick::pick))]
    pub fn convertible(self, line: Result<Entry, Rule>) -> Result<Entry, Rule>
        ensures { result ≡ convertible self line }
    {
        let e = line?;
        if self.has_barred(e) {
            return Err(self.barred_by());
        }
        Ok(e)
    }

    // The same of a line that was turned away by any number, a caller's own too: it is handed on with its number.
    #[tactic(auto, unfolding(basics::specs::Pick::pick))]
    pub fn convertible_by_number(self, line: Result<Entry, u64>) -> Result<Entry, u64>
        ensures { result ≡ convertible_by_number self line }
    {
        let e = line?;
        let barred = self.has_barred(e);
        if barred {
            return Err(self.barred_by().number());
        }
        Ok(e)
    }

    // The rule that an amount is refused by.
    fn barred_by(self) -> Rule
        ensures { result ≡ barred_by self }
    {
        match self {
            Scale::Cents => Rule::NotWholeThousands,
            Scale::Thousands => Rule::ThousandsAboveLimit,
        }
    }

    // Whether an entry has an amount that the other sort of sheet can't have; the scalar's line keeps its number.
    #[tactic(auto, unfolding(crate::specs::Amounts::has_barred, basics::specs::Pick::pick))]
    fn has_barred(self, e: Entry) -> bool
        ensures { result ≡ has_barred self e }
    {
        !rules::is_scalar(e) && (self.barred(e.first) || self.barred(e.second))
    }

    // Whether an amount isn't whole thousands; or one of thousands has more than 14 digits in cents.
    fn barred(self, amount: u64) -> bool
        ensures { result ≡ barred self amount }
    {
        match self {
            Scale::Cents => amount % THOUSAND_DOLLARS != 0,
            Scale::Thousands => MOST_THOUSANDS < amount,
        }
    }
}
