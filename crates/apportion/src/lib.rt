// A number divided among ten parts by their margins, to the whole cent: the second step of request #112.
#![tactic(auto)]

ghost use Rattle.std.specs.Prelude.{◌≡◌, ◌+◌, ◌*◌, ◌/◌, ◌%◌, ◌^◌, ◌≤◌, ◌<◌, ltb, eqb};
ghost use Rattle.basics.specs.Pick.{pick};
ghost use Rattle.basics.specs.Total.{one};
ghost use Rattle.basics.specs.Ascending.{list_to};
ghost use Rattle.sizes.specs.Sizes.{parts};
ghost use Rattle.apportion.specs.Shares.{value_of_part, total, base, remainder, left_over, rank, shares};
ghost use Rattle.apportion.specs.Steps.{Shareable, quotients, rests};

use division::Division;
use sizes::PARTS;
use wide::Wide;

// The shares of k by margins that are not all zero, whose sum is handed with them.
// Kept: k and the sum as two parameters, here and in two below; a struct of them would be filled by one caller and opened at once.
#[tactic(auto, using(crate::proofs::Parts::base_fits, crate::proofs::Parts::shared))]
pub fn shared_out(k: u64, margins: &[u64; PARTS], sum: u64) -> [u64; PARTS]
    requires { Shareable k (value_of_part margins.now) sum }
    ensures { result ≡ shares k (value_of_part margins.now) }
{
    let mut shares = [Division {
        quotient: 0,
        rest: 0,
    }; PARTS];
    let left = divided(k, margins, sum, &mut shares);
    with_cents(&shares, left)
}

// Each share rounded down with its remainder, and the cents left over: what is left of k when they are taken off it. The shares are lent: given
// back, an array of more than 128 bytes is copied by a call of memcpy, which the archive for C does without.
#[tactic(auto, using(crate::proofs::Parts::parts_divided), unfolding(basics::specs::Total::sum_to))]
fn divided(k: u64, margins: &[u64; PARTS], sum: u64, shares: &mut [Division<u64>; PARTS]) -> u64
    requires { Shareable k (value_of_part margins.now) sum }
    ensures quotients { (quotients shares.new ≡ list_to (base k (value_of_part margins.now)) parts) × (result ≡ left_over k (value_of_part margins.now)) }
    ensures remainders { rests shares.new ≡ list_to (remainder k (value_of_part margins.now)) parts }
{
    let mut left = k;
    for part in 0..PARTS {
        let by = part_of(k, margins[part], sum);
        shares[part] = by;
        left -= by.quotient;
    }
    left
}

// k × margin over the sum of the margins. No margin is above the sum, so the quotient is at most k: one word.
fn part_of(k: u64, margin: u64, sum: u64) -> Division<u64>
    requires { (0 < sum) × (sum < 2 ^ 63) × (margin ≤ sum) }
    ensures { (result.quotient ≡ k * margin / sum) × (result.rest ≡ k * margin % sum) }
{
    let by = division::divide(Wide::product(k, margin), sum);
    Division {
        quotient: by.quotient.low,
        rest: by.rest,
    }
}

// The quotients with the cents that are left, one each to the parts with the largest rests.
fn with_cents(divided: &[Division<u64>; PARTS], left: u64) -> [u64; PARTS]
    requires { total (value_of_part (quotients divided.now)) < 2 ^ 63 }
    ensures { result ≡ list_to (λ p. value_of_part (quotients divided.now) p + one (ltb (rank (value_of_part (rests divided.now)) parts p) left)) parts }
{
    let mut shares = [0u64; PARTS];
    for part in 0..PARTS {
        shares[part] = divided[part].quotient + cent(divided, part + 1, left);
    }
    shares
}

// One where fewer parts come before this one than cents are left.
#[tactic(auto, using(crate::proofs::Parts::as_number))]
fn cent(divided: &[Division<u64>; PARTS], part: usize, left: u64) -> u64
    requires { (1 ≤ part) × (part ≤ parts) }
    ensures { result ≡ one (ltb (rank (value_of_part (rests divided.now)) parts part) left) }
{
    u64::from(rank_of(divided, part) < left)
}

// How many parts come before this one in the order of the rests.
// Kept: the range of a part's number as a clause, here and in shares; a type would be opened at each use, as an index and as a number.
#[tactic(auto, using(basics::proofs::Totals::sum_step, basics::proofs::Totals::count_most, crate::proofs::Parts::counted), unfolding(basics::specs::Total::sum_to, crate::specs::Shares::rank))]
fn rank_of(divided: &[Division<u64>; PARTS], part: usize) -> u64
    requires { (1 ≤ part) × (part ≤ parts) }
    ensures { result ≡ rank (value_of_part (rests divided.now)) parts part }
{
    let rest = divided[part - 1].rest;
    let mut before = 0u64;
    for (other, share) in divided.iter().enumerate() {
        before += one_if_before(share.rest, other + 1, rest, part);
    }
    before
}

// One where a part with rest r and number q comes before one with rest s and number p: the larger rest first, and of equal ones the lower number.
#[tactic(auto, using(basics::proofs::Picks::if_eq, basics::proofs::Picks::if_ne, crate::proofs::Parts::as_number))]
fn one_if_before(r: u64, q: usize, s: u64, p: usize) -> u64
    ensures { result ≡ one (pick (eqb r s) (ltb q p) (ltb s r)) }
{
    u64::from((s, q) < (r, p))
}
