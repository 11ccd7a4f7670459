// Sets of small numbers as the binary digits of a word.
#![tactic(auto)]

ghost use Rattle.std.specs.Prelude.{◌≡◌, ◌&&◌, ℕ, ◌+◌, ◌*◌, ◌%◌, ◌<◌, ◌≤◌, leb};
ghost use Rattle.bits.specs.Bit.{bit, add_bit};

// Whether b is in a set of up to 64 digits: digit b of the word is 1.
pub fn has(word: u64, b: usize) -> bool
    requires { b < 64 }
    ensures { result ≡ bit word b }
{
    (word >> b) % 2 == 1
}

// The set m with b.
pub fn with(m: u32, b: usize) -> u32
    requires { b < 32 }
    ensures { result ≡ add_bit m b }
{
    m | (1 << b)
}

// The members of m from b on.
pub fn from(m: u32, b: usize) -> u32
    requires { b ≤ 32 }
    ensures { (k : ℕ) → bit result k ≡ (leb b k && bit m k) }
{
    let kept = ((m as u64) >> b) << b;
    kept as u32
}

// Two sets in one word: b of low is its member b, b of high its member 32 + b.
pub fn joined(low: u32, high: u32) -> u64
    ensures { result ≡ low + high * 4294967296 }
{
    low as u64 + high as u64 * 4294967296
}

// The first of the two.
pub fn low_half(m: u64) -> u32
    ensures { result ≡ m % 4294967296 }
{
    (m % 4294967296) as u32
}
