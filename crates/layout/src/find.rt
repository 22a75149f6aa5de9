// The short test: what a call on one chunk looks at, on any memory.
ghost use Rattle.std.specs.Prelude.{◌≡◌, ◌+◌, ◌*◌, ◌^◌, ◌≤◌, ◌<◌, length};
ghost use Rattle.layout.specs.Sizes.{over_start, header_at, over_count};
ghost use Rattle.layout.specs.Short.{over_place, over_word, entries_in, overflow_word, word_in, spot_at, spot_of};
ghost use Rattle.layout.specs.declared.place.Place.TheVariants.{Sparse, Dense};

use crate::place::Place;
use crate::{head, place};
use document::refusal::Refusal;
use document::sizes::Sizes;
use numbers::{element, power};

// A place's part of its pool: where it starts, how long it is, a row's members.
#[derive(Clone, Copy, Debug, PartialEq, Eq)]
pub enum Spot {
    Nowhere,
    Row(usize, usize, usize),
    Page(usize, usize),
}

// The first of n overflow ids from a on that is not below c, by halving.
pub fn over_place(table: &[u64], a: u64, n: u64, c: u64) -> u64
    requires { (a ≤ 1048576) × (n ≤ 65536) }
    ensures { (result ≡ over_place table.now a n c) × (result ≤ n) }
{
    let mut lo: u64 = 0;
    let mut hi = n;
    while lo < hi {
        let mid = lo + (hi - lo) / 2;
        if element::at(table, a + 3 * mid, 0) < c {
            lo = mid + 1;
        } else {
            hi = mid;
        }
    }
    lo
}

// How many overflow ids are below c.
pub fn over_below(table: &[u64], h: Sizes, c: u64) -> u64
    requires { (h.d ≤ 262144) × (over_count table.now ≤ 65536) }
    ensures { let t = table.now in
        (result ≡ over_place t (over_start h.d) (over_count t) c) × (result ≤ over_count t) }
{
    over_place(table, 16 + 2 * h.d, head::over_count(table), c)
}

// The word of overflow entry k where its id is c, else 0.
pub fn over_word(table: &[u64], a: u64, n: u64, c: u64, k: u64) -> u64
    requires { (a ≤ 1048576) × (k ≤ 65536) }
    ensures { result ≡ over_word table.now a n c k }
{
    if n <= k {
        return 0;
    }
    if element::at(table, a + 3 * k, 0) != c {
        return 0;
    }
    element::at(table, a + 3 * k + 1, 0)
}

// The entries in use, with d direct ones, are at most the table's V and lie inside it.
pub fn entries_in(table: &[u64], d: u64) -> bool
    ensures { result ≡ entries_in table.now d }
{
    let n = head::over_count(table);
    if !((d <= 262144) & (n <= 65536)) {
        return false;
    }
    (16 + 2 * d + 3 * n <= table.len() as u64) & (n <= head::overflow(table))
}

// The word of a chunk past the d direct entries. The tests of `entries_in` stand here and in `overflow_seat`, since a lookup that calls it is not compiled in (docs/DECISIONS.md).
pub fn overflow_word(table: &[u64], d: u64, c: u64) -> Result<u64, Refusal>
    ensures { result ≡ overflow_word table.now d c }
{
    let n = head::over_count(table);
    if 262144 < d {
        return Err(Refusal::NotLaidOut);
    }
    if 65536 < n {
        return Err(Refusal::NotLaidOut);
    }
    let a = 16 + 2 * d;
    if (table.len() as u64) < a + 3 * n {
        return Err(Refusal::NotLaidOut);
    }
    if head::overflow(table) < n {
        return Err(Refusal::NotLaidOut);
    }
    Ok(over_word(table, a, n, c, over_place(table, a, n, c)))
}

// The word of a chunk below D: one look at its entry. Small, so that a call compiles it in and leaves the search to `word_of`.
pub fn direct_word(table: &[u64], c: u64) -> Result<u64, Refusal>
    requires { (c < 2 ^ 62) × (c < (header_at table.now).d) }
    ensures { result ≡ word_in table.now c }
{
    let i = (16 + 2 * c) as usize;
    if i < table.len() {
        return Ok(table[i]);
    }
    Err(Refusal::NotLaidOut)
}

// Chunk c's word: one look at a direct entry, a search past them. A table that is too short to say is refused.
pub fn word_of(table: &[u64], c: u64) -> Result<u64, Refusal>
    requires { c < 2 ^ 62 }
    ensures { result ≡ word_in table.now c }
{
    let d = head::direct(table);
    if d <= c {
        return overflow_word(table, d, c);
    }
    direct_word(table, c)
}

// The part of row r with l members: one of the table's R, in rows that are so long.
fn row_spot(table: &[u64], rows: u64, r: u64, l: u64) -> Result<Spot, Refusal>
    requires { r ≤ 262144 }
    ensures { result ≡ spot_at (header_at table.now) 0 rows (Sparse r l) }
{
    let m = head::row_size(table);
    if !((r < head::rows(table)) & (m <= 1024) & (l <= m)) {
        return Err(Refusal::NotLaidOut);
    }
    let a = power::times(r, m);
    if rows < a + m {
        return Err(Refusal::NotLaidOut);
    }
    Ok(Spot::Row(a as usize, m as usize, l as usize))
}

// The part of page p: one of the table's P, and of the pages that fit into so many words.
fn page_spot(table: &[u64], pages: u64, p: u64) -> Result<Spot, Refusal>
    requires { (9 ≤ (header_at table.now).s) × ((header_at table.now).s ≤ 25) }
    ensures { result ≡ spot_at (header_at table.now) pages 0 (Dense p) }
{
    let k = head::shift(table) - 6;
    if !((p < head::pages(table)) & (p < power::high(pages, k))) {
        return Err(Refusal::NotLaidOut);
    }
    Ok(Spot::Page(power::shifted(p, k) as usize, power::pow2(k) as usize))
}

// The part of a pool that word w names; one that is not inside the pool is refused.
pub fn spot_of(pages: &[u64], rows: &[u32], table: &[u64], w: u64) -> Result<Spot, Refusal>
    requires { (9 ≤ (header_at table.now).s) × ((header_at table.now).s ≤ 25) }
    ensures { result ≡ spot_of (header_at table.now) (length pages.now) (length rows.now) w }
{
    match place::decode(w) {
        Place::Absent => Ok(Spot::Nowhere),
        Place::Sparse(r, l) => row_spot(table, rows.len() as u64, r, l),
        Place::Dense(p) => page_spot(table, pages.len() as u64, p),
    }
}
