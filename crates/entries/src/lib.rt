// The entries one by one: whether they lie in the table, how many there are, the first for a chunk, the next with a word, each one's chunk and part of a pool.
#![tactic(auto)]

pub mod clip;

ghost use Rattle.std.specs.Prelude.{◌≡◌, ◌≢◌, true, List, ℕ, ◌≤◌, ◌<◌};
ghost use Rattle.layout.specs.Mem.{mem};
ghost use Rattle.layout.specs.Sizes.{header_at};
ghost use Rattle.layout.specs.Entries.{entries, chunk_at, word_at};
ghost use Rattle.calls.specs.Reading.{spot_by};
ghost use Rattle.calls.specs.Counts.{entries_ok, word_by};
ghost use Rattle.calls.specs.Range.{entry_from};

use document::refusal::Refusal;
use layout::find::Spot;
use layout::{entry, find, head};

// They are within the sizes and lie inside the table.
pub fn are(table: &[u64]) -> bool
    ensures { result ≡ entries_ok table.now }
{
    let s = head::shift(table);
    (9 <= s) & (s <= 25) & find::entries_in(table, head::direct(table))
}

// How many there are.
pub fn number(table: &[u64]) -> u64
    requires { entries_ok table.now ≡ true }
    ensures { (result ≡ entries (header_at table.now) table.now) × (result ≤ 327680) }
{
    head::direct(table) + head::over_count(table)
}

// The first whose chunk id is not below c: of a direct chunk its own, past them by search. What else memory holds is all one.
pub fn from(table: &[u64], c: u64) -> u64
    requires { entries_ok table.now ≡ true }
    ensures { ((pages rows blocks : List ℕ) → result ≡ entry_from (mem pages rows blocks table.now) c) × (result ≤ 327680) }
{
    let h = head::read(table);
    if c < h.d {
        c
    } else {
        h.d + find::over_below(table, h, c)
    }
}

// The first from e on that has a word, else n. Most entries are absent: eight of them are passed over at once.
pub fn next_used(table: &[u64], e: u64, n: u64) -> u64
    requires { (entries_ok table.now ≡ true) × (n ≡ entries (header_at table.now) table.now) × (e ≤ n) }
    ensures { let t = table.now in let h = header_at t in
        (e ≤ result) × (result ≤ n) × ((i : ℕ) → e ≤ i → i < result → word_at h t i ≡ 0) × (result < n → word_at h t result ≢ 0) }
{
    let d = head::direct(table);
    let mut i = e;
    // No `for`: it goes on by eight or by one.
    while i < n {
        if entry::eight_absent(table, d, i) {
            i += 8;
        } else if entry::word_by(table, i) != 0 {
            return i;
        } else {
            i += 1;
        }
    }
    i
}

// The chunk id of entry e.
pub fn chunk(table: &[u64], e: u64) -> u64
    requires { (entries_ok table.now ≡ true) × (e ≤ 327680) }
    ensures { result ≡ chunk_at (header_at table.now) table.now e }
{
    entry::chunk_by(table, e)
}

// The part that entry e names, refused where it is not inside its pool.
pub fn spot_at(
    pages: &[u64],
    rows: &[u32],
    blocks: &[u32],
    table: &[u64],
    e: u64,
) -> Result<Spot, Refusal>
    requires { (entries_ok table.now ≡ true) × (e ≤ 327680) }
    ensures { let x = mem pages.now rows.now blocks.now table.now in
        result ≡ spot_by x (word_by x e) }
{
    find::spot_of(pages, rows, table, entry::word_by(table, e))
}
