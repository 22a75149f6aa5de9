// Ids: the step from i64 to u64 and back, and an id's chunk and offset.
ghost use Rattle.std.specs.Prelude.{◌≡◌, ◌^◌, ◌<◌, pos};
ghost use Rattle.numbers.specs.Ids.{natural_of, split_of, chunk_of};

use crate::power;

// 2 ^ 63: every id is below it.
pub const LIMIT: u64 = 1 << 63;

// 2 ^ 63 - 1: the largest id.
pub const LARGEST: u64 = LIMIT - 1;

// The smallest i64.
pub const SMALLEST: i64 = i64::MIN;

// The one place where an id's sign is looked at.
pub fn natural(id: i64) -> Option<u64>
    ensures { result ≡ natural_of id }
{
    u64::try_from(id).ok()
}

// A number back to an id.
pub fn signed(n: u64) -> i64
    requires { n < 2 ^ 63 }
    ensures { result ≡ pos n }
{
    n as i64
}

// The chunk that an id lives in and its offset there, or none for a negative one. Chunks have 2 ^ s ids.
pub fn split(id: i64, s: u64) -> Option<(u64, u64)>
    requires { s < 64 }
    ensures { result ≡ split_of s id }
{
    let n = natural(id)?;
    Some((power::high(n, s), power::low(n, s)))
}

// The chunk alone.
pub fn chunk_of(id: i64, s: u64) -> Option<u64>
    requires { s < 64 }
    ensures { result ≡ chunk_of s id }
{
    Some(power::high(natural(id)?, s))
}
