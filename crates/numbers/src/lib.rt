// Bytes to numbers: one number at a place of a file, of three bytes at most, and a number that must stay below a limit.
#![tactic(auto)]

ghost use Rattle.std.specs.Prelude.{◌≡◌, ◌<◌, ◌≤◌, ◌/◌, ◌%◌, length};
ghost use Rattle.numbers.specs.believed.Number.{with_group, number_within, number_at};
ghost use Rattle.numbers.specs.Written.{shortest};
ghost use Rattle.numbers.specs.believed.Field.{field_at, count_at};

use refusal::Refusal;

// What is read at a place, and the place after it; or what is wrong.
pub type Read<T> = Result<(T, usize), Refusal>;

// How many bytes a number is written in.
#[tactic(auto, using(crate::proofs::Written::one_byte, crate::proofs::Written::two_bytes, crate::proofs::Written::three_bytes))]
pub fn size_of(n: u32) -> usize
    ensures { result ≡ length (shortest n) }
{
    if n < 128 {
        return 1;
    }
    if n < 16384 {
        return 2;
    }
    3
}

// The third byte of a number, behind two groups that are worth `low`. It is the last that is allowed.
#[tactic(auto, unfolding(crate::specs::believed::Number::number_within))]
fn third_at(s: &[u8], last: usize, low: u32) -> Read<u32>
    requires { low < 16384 }
    ensures { result ≡ with_group (low % 128) (with_group (low / 128) (number_within 1 s.now last)) }
{
    if s.len() <= last {
        return Err(Refusal::Truncated);
    }
    let high = s[last] as u32;
    if high == 0 {
        return Err(Refusal::NotShortest);
    }
    if 128 <= high {
        return Err(Refusal::NotShortest);
    }
    Ok((low + high * 16384, last + 1))
}

// The second byte of a number, behind one group, and a third where there is one.
#[tactic(auto, unfolding(crate::specs::believed::Number::number_within))]
fn second_at(s: &[u8], next: usize, low: u32) -> Read<u32>
    requires { low < 128 }
    ensures { result ≡ with_group low (number_within 2 s.now next) }
{
    if s.len() <= next {
        return Err(Refusal::Truncated);
    }
    let middle = s[next] as u32;
    if middle == 0 {
        return Err(Refusal::NotShortest);
    }
    // Worked out once for both lengths: what a rule's reader takes in of this has to stay small (docs/SPEED.md).
    let both = low + middle % 128 * 128;
    if middle < 128 {
        return Ok((both, next + 1));
    }
    third_at(s, next + 1, both)
}

#[tactic(auto, unfolding(crate::specs::believed::Number::number_within, crate::specs::believed::Number::number_at))]
pub fn number_at(s: &[u8], at: usize) -> Read<u32>
    ensures { result ≡ number_at s.now at }
{
    if s.len() <= at {
        return Err(Refusal::Truncated);
    }
    let low = s[at] as u32;
    if low < 128 {
        return Ok((low, at + 1));
    }
    second_at(s, at + 1, low - 128)
}

// The number at a place, which must be below the limit.
#[tactic(auto, unfolding(crate::specs::believed::Field::field_at))]
pub fn field_at(s: &[u8], at: usize, limit: u32, refusal: Refusal) -> Read<u16>
    requires { limit ≤ 65536 }
    ensures { result ≡ field_at (number_at s.now) at limit refusal }
{
    let (n, next) = number_at(s, at)?;
    if n < limit {
        Ok((n as u16, next))
    } else {
        Err(refusal)
    }
}

// The number at a place, which must be from 1 to the most.
#[tactic(auto, unfolding(crate::specs::believed::Field::count_at))]
pub fn count_at(s: &[u8], at: usize, most: u32, refusal: Refusal) -> Read<u16>
    requires { most ≤ 65535 }
    ensures { result ≡ count_at (number_at s.now) at most refusal }
{
    let (n, next) = field_at(s, at, most + 1, refusal)?;
    if n == 0 {
        return Err(refusal);
    }
    Ok((n, next))
}
