// Counts up to 2^64 - 1, with one value for all greater ones: their sums and products.
#![tactic(auto)]

ghost use Rattle.std.specs.Prelude.{◌≡◌, ◌+◌, ◌*◌, ◌-◌, ◌≤◌, ltb};
ghost use Rattle.capped.specs.Capped.{cap, value};

// How many there are, exactly; None: more than 2^64 - 1.
pub type Count = Option<u64>;

pub fn sum(a: Count, b: Count) -> Count
    ensures { value result ≡ cap (value a + value b) }
{
    a?.checked_add(b?)
}

// None times any number is none, however many they are.
pub fn product(a: Count, b: Count) -> Count
    ensures { value result ≡ cap (value a * value b) }
{
    match (a, b) {
        (Some(a), Some(b)) => a.checked_mul(b),
        (Some(0), None) | (None, Some(0)) => Some(0),
        _ => None,
    }
}

// Whether k is below a count.
pub fn is_below(k: u64, n: Count) -> bool
    ensures { result ≡ ltb k (value n) }
{
    n.is_none_or(|n| k < n)
}

// What k is more than a count.
pub fn minus(k: u64, n: Count) -> u64
    requires { value n ≤ k }
    ensures { result ≡ k - value n }
{
    n.map_or(0, |n| k - n)
}
