// Numbers of two machine words: products, sums and quarters.
#![tactic(auto, unfolding(crate::specs::Value::value))]

ghost use Rattle.std.specs.Prelude.{◌≡◌, ◌+◌, ◌*◌, ◌/◌, ◌^◌, ◌<◌};
ghost use Rattle.wide.specs.Value.{value};

use std::ops::{Add, Mul};

// A number of two words: the upper one counts 2^64 each.
#[derive(Clone, Copy)]
pub struct Wide {
    pub high: u64,
    pub low: u64,
}

// 2^62, a quarter of what one of the upper word counts.
const QUARTER: u64 = 4611686018427387904;

impl Wide {
    // The product of two words, which the machine makes by one instruction.
    pub fn product(a: u64, b: u64) -> Wide
        ensures { value result ≡ a * b }
    {
        let (low, high) = a.carrying_mul(b, 0);
        Wide { high, low }
    }

    // A quarter, rounded up.
    pub fn quarter_up(self) -> Wide
        ensures { value result ≡ (value self + 3) / 4 }
    {
        let high = self.high;
        let low = self.low;
        let down = Wide {
            high: high / 4,
            low: high % 4 * QUARTER + low / 4,
        };
        if low % 4 == 0 {
            down
        } else {
            down + Wide::from(1)
        }
    }
}

// A word as a number of two.
impl From<u64> for Wide {
    ghost from_gives = { λ low n. value n ≡ low };

    fn from(low: u64) -> Wide {
        Wide { high: 0, low }
    }
}

// The sum, where it fits two words.
impl Add for Wide {
    type Output = Wide;

    ghost can_add = { λ a b. value a + value b < 2 ^ 128 };

    ghost add_gives = { λ a b sum. value sum ≡ value a + value b };

    fn add(self, b: Wide) -> Wide {
        let (low, carry) = self.low.carrying_add(b.low, false);
        Wide {
            high: self.high + b.high + u64::from(carry),
            low,
        }
    }
}

// n times m, where that fits two words.
impl Mul<u64> for Wide {
    type Output = Wide;

    ghost can_mul = { λ n m. value n * m < 2 ^ 128 };

    ghost mul_gives = { λ n m product. value product ≡ value n * m };

    fn mul(self, m: u64) -> Wide {
        let (low, carry) = self.low.carrying_mul(m, 0);
        Wide {
            high: self.high * m + carry,
            low,
        }
    }
}
