// Ids asked for, clipped: a start to 0, a run of entries to its first, the ends of a range to one chunk.
ghost use Rattle.std.specs.Prelude.{◌≡◌, true, List, ℕ, ◌/◌, ◌^◌, ◌<◌, get_or};
ghost use Rattle.layout.specs.Mem.{mem};
ghost use Rattle.calls.specs.Counts.{entries_ok};
ghost use Rattle.calls.specs.Range.{entry_from, clip_low, clip_high};
ghost use Rattle.calls.specs.Iteration.{from_zero};

use layout::head;
use numbers::{id as ids, power};

// A negative start is read as 0.
pub fn from_zero(id: i64) -> u64
    ensures { result ≡ from_zero id }
{
    ids::natural(id).unwrap_or(0)
}

// The first entry that may have an id of lo or more. What else memory holds is all one.
pub fn first(table: &[u64], lo: u64) -> u64
    requires { entries_ok table.now ≡ true }
    ensures { (pages rows blocks : List ℕ) → result ≡ entry_from (mem pages rows blocks table.now) (lo / 2 ^ get_or table.now 0 0) }
{
    let c = power::high(lo, head::shift(table));
    crate::from(table, c)
}

// The first offset of chunk c whose id is not below lo, where lo's chunk is not past it.
pub fn low(s: u64, lo: u64, c: u64) -> u64
    requires { s < 64 }
    ensures { (result ≡ clip_low (2 ^ s) lo c) × (result < 2 ^ s) }
{
    if c == power::high(lo, s) {
        power::low(lo, s)
    } else {
        0
    }
}

// The last offset of chunk c whose id is not above hi, where hi's chunk is not before it.
pub fn high(s: u64, hi: u64, c: u64) -> u64
    requires { s < 64 }
    ensures { (result ≡ clip_high (2 ^ s) hi c) × (result < 2 ^ s) }
{
    if c == power::high(hi, s) {
        power::low(hi, s)
    } else {
        power::pow2(s) - 1
    }
}
