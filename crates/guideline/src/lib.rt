// The constants of chapters 8 and 11, each with the function that reads it; and a block that rules 7, 8 and 9 let pass.
#![tactic(auto)]

ghost use Rattle.std.specs.Prelude.{◌≡◌, ◌≤◌, ◌<◌, get_or};
ghost use Rattle.sizes.specs.Sizes.{products, risks, volume_classes};
ghost use Rattle.guideline.specs.Factors.{factor};
ghost use Rattle.guideline.specs.Block.{AcceptedBlock, ir, lt, PC, credit, market};
ghost use Rattle.guideline.specs.Operational.{volume_factors};

use sizes::{
    BLOCK_NUMBERS, CREDIT_POSITION, MARKET_POSITION, PC_POSITION, PRODUCTS, TEN_THOUSANDTHS,
    VOLUME_CLASSES,
};

// What the operational figure is over before it is rounded: fifths of a ten-thousandth.
pub const OPERATIONAL_DENOMINATOR: u64 = 5 * TEN_THOUSANDTHS;

// The correlation factors of section 11.2.1, in quarters, row by row.
const FACTORS: [i8; PRODUCTS] = [
    // 1 mortality
    4, -1, 2, -1, 1, 0, 2,
    // 2 longevity
    -1, 4, -1, 2, 1, -1, 1,
    // 3 morbidity incidence
    2, -1, 4, 1, 2, 0, 2,
    // 4 morbidity termination
    -1, 2, 1, 4, 2, -1, 2,
    // 5 lapse-sensitive
    1, 1, 2, 2, 4, -2, 2,
    // 6 lapse-supported
    0, -1, 0, -1, -2, 4, -1,
    // 7 expenses
    2, 1, 2, 2, 2, -1, 4,
];

// The factor of the k-th of the 49 products: row k / RISKS, column k % RISKS.
pub fn factor_at(k: usize) -> i64
    requires { k < products }
    ensures { result ≡ factor k }
{
    i64::from(FACTORS[k])
}

// The factors of the eight volume classes of section 8.2.1, in ten-thousandths.
const VOLUME_FACTORS: [u8; VOLUME_CLASSES] = [250, 250, 250, 175, 40, 15, 10, 10];

// The factor of a volume class, counted from 0.
pub fn volume_factor(class: usize) -> u64
    requires { class < volume_classes }
    ensures { result ≡ get_or volume_factors class 0 }
{
    cast::byte(VOLUME_FACTORS[class])
}

// A block that rules 7, 8 and 9 let pass, by its numbers: seven pairs IR, LT, then PC, credit, market.
#[derive(Clone, Copy)]
pub struct Block {
    numbers: [u64; BLOCK_NUMBERS],
    pub ghost accepted: { AcceptedBlock numbers },
}

impl Block {
    // The block of numbers that the rules let pass.
    pub fn new(numbers: [u64; BLOCK_NUMBERS]) -> Block
        requires { AcceptedBlock numbers }
        ensures { result.numbers ≡ numbers }
    {
        // A number at a time: an array of more than 128 bytes that is copied as one is a call of memcpy, which the archive for C does without.
        let [a, b, c, d, e, f, g, h, i, j, k, l, m, n, o, p, q] = numbers;
        let numbers = [a, b, c, d, e, f, g, h, i, j, k, l, m, n, o, p, q];
        Block { numbers }
    }

    // A block's numbers.
    pub fn numbers(&self) -> &[u64; BLOCK_NUMBERS]
        ensures { result.now ≡ self.now.numbers }
    {
        &self.numbers
    }

    // The gross component IR(i) of a risk, from 1 to 7.
    pub fn ir(&self, i: usize) -> u64
        requires { (1 ≤ i) × (i ≤ risks) }
        ensures { result ≡ ir self.now.numbers i }
    {
        self.numbers[2 * i - 2]
    }

    // The level and trend part LT(i) of a risk, from 1 to 7.
    pub fn lt(&self, i: usize) -> u64
        requires { (1 ≤ i) × (i ≤ risks) }
        ensures { result ≡ lt self.now.numbers i }
    {
        self.numbers[2 * i - 1]
    }

    // Property and casualty.
    pub fn pc(&self) -> u64
        ensures { result ≡ PC self.now.numbers }
    {
        self.numbers[PC_POSITION]
    }

    // Credit.
    pub fn credit(&self) -> u64
        ensures { result ≡ credit self.now.numbers }
    {
        self.numbers[CREDIT_POSITION]
    }

    // Market.
    pub fn market(&self) -> u64
        ensures { result ≡ market self.now.numbers }
    {
        self.numbers[MARKET_POSITION]
    }
}
