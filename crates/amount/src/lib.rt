// Amounts of money: whole cents, 14 digits at most.
#![tactic(auto)]

ghost use Rattle.std.specs.Prelude.{◌≡◌, ◌-◌, length};
ghost use Rattle.basics.specs.First.{FoundAt};
ghost use Rattle.amount.specs.Amount.{first_above};

// The largest amount, in cents.
pub const LARGEST_AMOUNT: u64 = 99999999999999;

// The position of the first amount above the limit, where there is one.
#[tactic(auto, using(crate::proofs::Amounts::first_at))]
pub fn first_above(amounts: &[u64]) -> Option<usize>
    ensures { FoundAt (length amounts.now) (first_above amounts.now) result }
{
    amounts.iter().position(|amount| LARGEST_AMOUNT < *amount)
}

// How far x is above y: nothing where it is not.
pub fn excess(x: u64, y: u64) -> u64
    ensures { result ≡ x - y }
{
    x.saturating_sub(y)
}
