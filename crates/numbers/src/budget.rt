// Two bounds on memory: slots that a budget buys, and the highest id that a file's length allows.
ghost use Rattle.std.specs.Prelude.{◌≡◌};
ghost use Rattle.numbers.specs.Budget.{bits_of, slots_for_budget, by_size, file_bounded_max_id};

use crate::id;

// Bits one slot costs: the word plus the two bit sets.
const BITS_PER_SLOT: u64 = 66;

// The bits in b bytes, held to 64 bits.
pub fn bits_of(b: u64) -> u64
    ensures { result ≡ bits_of b }
{
    b.saturating_mul(8)
}

// The slots that a store budget of b bytes buys, at least one.
pub fn slots_for_budget(b: u64) -> u64
    ensures { result ≡ slots_for_budget b }
{
    (bits_of(b) / BITS_PER_SLOT).max(1)
}

// File length times ids per byte, held to the largest id.
pub fn by_size(len: u64, per: u64) -> u64
    ensures { result ≡ by_size len per }
{
    len.saturating_mul(per).min(id::LARGEST)
}

// What `pre_allocate` may be asked for where a file claims a highest id. A negative claim stays.
pub fn file_bounded_max_id(claim: i64, len: u64, per: u64) -> i64
    ensures { result ≡ file_bounded_max_id claim len per }
{
    let Some(n) = id::natural(claim) else {
        return claim;
    };
    id::signed(n.min(by_size(len, per)))
}
