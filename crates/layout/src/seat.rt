// A chunk's word and the members of the chunks before it, on any table.
ghost use Rattle.std.specs.Prelude.{◌≡◌, ◌+◌, ◌*◌, ◌^◌, ◌≤◌, ◌<◌, length};
ghost use Rattle.layout.specs.Seat.{over_seat, overflow_seat, seat_in};

use crate::{find, head};
use document::refusal::Refusal;

// Overflow entry k of n: past the last one come no members.
pub fn over_seat(table: &[u64], a: u64, n: u64, c: u64, k: u64) -> Result<(u64, u64), Refusal>
    requires { (a ≤ 1048576) × (k ≤ 65536) × (a + 3 * n ≤ length table.now) }
    ensures { result ≡ over_seat table.now a n c k }
{
    if n <= k {
        return Ok((0, head::total(table)));
    }
    let i = (a + 3 * k + 2) as usize;
    Ok((find::over_word(table, a, n, c, k), table[i]))
}

// A chunk past the d direct entries.
pub fn overflow_seat(table: &[u64], d: u64, c: u64) -> Result<(u64, u64), Refusal>
    ensures { result ≡ overflow_seat table.now d c }
{
    let n = head::over_count(table);
    if 262144 < d {
        return Err(Refusal::NotLaidOut);
    }
    if 65536 < n {
        return Err(Refusal::NotLaidOut);
    }
    let a = 16 + 2 * d;
    if (table.len() as u64) < a + 3 * n {
        return Err(Refusal::NotLaidOut);
    }
    if head::overflow(table) < n {
        return Err(Refusal::NotLaidOut);
    }
    over_seat(table, a, n, c, find::over_place(table, a, n, c))
}

// Chunk c's word and the members of the chunks before it: an entry and its prefix side by side, a search past the direct ones.
// A table that is too short to say is refused.
pub fn seat_of(table: &[u64], c: u64) -> Result<(u64, u64), Refusal>
    requires { c < 2 ^ 62 }
    ensures { result ≡ seat_in table.now c }
{
    let d = head::direct(table);
    if d <= c {
        return overflow_seat(table, d, c);
    }
    let i = (16 + 2 * c) as usize;
    let j = i + 1;
    if j < table.len() {
        return Ok((table[i], table[j]));
    }
    Err(Refusal::NotLaidOut)
}
