// The directory as one run of entries, and the owners of rows and pages.
ghost use Rattle.std.specs.Prelude.{◌≡◌, ◌+◌, ◌≤◌, length, get_or};
ghost use Rattle.document.specs.Sizes.{InRange};
ghost use Rattle.layout.specs.Sizes.{header_at, direct_at, over_at};
ghost use Rattle.layout.specs.Places.{row_owner, page_owner};
ghost use Rattle.layout.specs.Entries.{chunk_at, word_at, prefix_at, place_at};
ghost use Rattle.layout.specs.Eight.{eight_are, eight_absent};

use crate::place::Place;
use crate::{head, place};
use document::sizes::Sizes;
use numbers::element;

// The chunk id of entry e: e itself for a direct one.
pub fn chunk_at(table: &[u64], h: Sizes, e: u64) -> u64
    requires { InRange h × (e ≤ 327680) }
    ensures { result ≡ chunk_at h table.now e }
{
    if e < h.d {
        return e;
    }
    element::at(table, 16 + 2 * h.d + 3 * (e - h.d), 0)
}

// The word of entry e.
pub fn word_at(table: &[u64], h: Sizes, e: u64) -> u64
    requires { InRange h × (e ≤ 327680) }
    ensures { result ≡ word_at h table.now e }
{
    if e < h.d {
        return element::at(table, 16 + 2 * e, 0);
    }
    element::at(table, 16 + 2 * h.d + 3 * (e - h.d) + 1, 0)
}

// The word of overflow entry j.
pub fn over_word(table: &[u64], h: Sizes, j: u64) -> u64
    requires { InRange h × (j ≤ 65536) }
    ensures { result ≡ get_or table.now (over_at h j + 1) 0 }
{
    element::at(table, 16 + 2 * h.d + 3 * j + 1, 0)
}

// The word of entry e by D alone.
pub fn word_by(table: &[u64], e: u64) -> u64
    requires { ((header_at table.now).d ≤ 262144) × (e ≤ 327680) }
    ensures { result ≡ word_at (header_at table.now) table.now e }
{
    let d = head::direct(table);
    if e < d {
        return element::at(table, 16 + 2 * e, 0);
    }
    element::at(table, 16 + 2 * d + 3 * (e - d) + 1, 0)
}

// The prefix of entry e.
pub fn prefix_at(table: &[u64], h: Sizes, e: u64) -> u64
    requires { InRange h × (e ≤ 327680) }
    ensures { result ≡ prefix_at h table.now e }
{
    if e < h.d {
        return element::at(table, 16 + 2 * e + 1, 0);
    }
    element::at(table, 16 + 2 * h.d + 3 * (e - h.d) + 2, 0)
}

// What the word of entry e says.
pub fn place_at(table: &[u64], h: Sizes, e: u64) -> Place
    requires { InRange h × (e ≤ 327680) }
    ensures { result ≡ place_at h table.now e }
{
    place::decode(word_at(table, h, e))
}

// The chunk that has row r, plus 1; 0 where it is free.
pub fn row_owner(table: &[u64], h: Sizes, r: u64) -> u64
    requires { InRange h × (r ≤ 65536) }
    ensures { result ≡ row_owner h table.now r }
{
    element::at(table, 16 + 2 * h.d + 3 * h.v + r, 0)
}

// The chunk that has page p, plus 1; 0 where it is free.
pub fn page_owner(table: &[u64], h: Sizes, p: u64) -> u64
    requires { InRange h × (p ≤ 65536) }
    ensures { result ≡ page_owner h table.now p }
{
    element::at(table, 16 + 2 * h.d + 3 * h.v + h.r + p, 0)
}

// The chunk id of entry e by header word 2 alone.
pub fn chunk_by(table: &[u64], e: u64) -> u64
    requires { (get_or table.now 2 0 ≤ 262144) × (e ≤ 327680) }
    ensures { result ≡ chunk_at (header_at table.now) table.now e }
{
    let d = head::direct(table);
    if e < d {
        return e;
    }
    element::at(table, 16 + 2 * d + 3 * (e - d), 0)
}

// ---- eight direct entries at once

// The words at a, a + 2, .., a + 14 are all v.
fn eight_are(table: &[u64], a: u64, v: u64) -> bool
    requires { (a ≤ 1048576) × (a + 15 ≤ length table.now) }
    ensures { result ≡ eight_are table.now a v }
{
    let mut ok = true;
    let mut i: u64 = 0;
    while i < 8 {
        let k = (a + 2 * i) as usize;
        ok = ok & (table[k] == v);
        i += 1;
    }
    ok
}

// Of d direct entries, those from e to e + 7 are there and absent. Asked at every eighth entry, so that none is looked at twice.
pub fn eight_absent(table: &[u64], d: u64, e: u64) -> bool
    requires { (d ≤ 262144) × (e ≤ 327680) × (direct_at d ≤ length table.now) }
    ensures { result ≡ eight_absent table.now d e }
{
    if !((e % 8 == 0) & (e + 8 <= d)) {
        return false;
    }
    eight_are(table, 16 + 2 * e, 0)
}

// Their prefixes are all n.
pub fn eight_prefixes(table: &[u64], e: u64, n: u64) -> bool
    requires { (e ≤ 327680) × (direct_at (e + 8) ≤ length table.now) }
    ensures { result ≡ eight_are table.now (direct_at e + 1) n }
{
    eight_are(table, 16 + 2 * e + 1, n)
}
