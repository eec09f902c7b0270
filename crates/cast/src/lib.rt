// Numbers of another width, none of which changes: a byte or a size as a word, and a word as a size.
#![tactic(auto)]

ghost use Rattle.std.specs.Prelude.{◌≡◌};

// A byte as a word.
pub fn byte(b: u8) -> u64
    ensures { result ≡ b }
{
    u64::from(b)
}

// A size as a word.
pub fn word(n: usize) -> u64
    ensures { result ≡ n }
{
    // Kept: the library has no From between a size and a word, and a TryFrom would have a failure that never comes.
    n as u64
}

// A word as a size.
pub fn size(x: u64) -> usize
    ensures { result ≡ x }
{
    // Kept: the library has no From between a word and a size, and a TryFrom would have a failure that never comes.
    x as usize
}
