// A chunk's word, the prefixes and the owners of rows and pages, written to the table.
ghost use Rattle.std.specs.Prelude.{◌≡◌, ◌+◌, ◌^◌, ◌≤◌, ◌<◌, length, get_or};
ghost use Rattle.document.specs.Sizes.{InRange};
ghost use Rattle.layout.specs.Sizes.{header_at, over_at, over_count};
ghost use Rattle.layout.specs.Writes.{added, over_put, put_word, put_prefix, from_after, put_owner, put_row_owner, put_page_owner};

use document::sizes::Sizes;
use layout::{find, head};
use numbers::element;

// A new overflow entry at its place: those from k on move up by one entry.
pub fn add_entry(table: &mut [u64], h: Sizes, c: u64, w: u64, k: u64)
    requires { (h.d ≤ 262144) × (over_count table.old ≤ 65536) × (k ≤ over_count table.old)
        × (over_at h (over_count table.old + 1) ≤ length table.old) }
    ensures { table.new ≡ added h table.old c w k }
{
    let n = table[7];
    let a = (16 + 2 * h.d + 3 * k) as usize;
    let e = (16 + 2 * h.d + 3 * n) as usize;
    table.copy_within(a..e, a + 3);
    table[a] = c;
    table[a + 1] = w;
    table[a + 2] = 0;
    table[7] = n + 1;
}

// The word of a chunk past the direct ones, where its place is k: in the entry that is there, or in a new one.
pub fn put_over(table: &mut [u64], h: Sizes, c: u64, w: u64, k: u64)
    requires { (h.d ≤ 262144) × (over_count table.old ≤ 65536) × (k ≤ over_count table.old) }
    ensures { table.new ≡ over_put h table.old c w k }
{
    let n = head::over_count(table);
    let a = 16 + 2 * h.d + 3 * k;
    if (k < n) & (element::at(table, a, 0) == c) {
        element::put(table, a + 1, w);
    } else if 16 + 2 * h.d + 3 * (n + 1) <= table.len() as u64 {
        add_entry(table, h, c, w, k);
    }
}

// Chunk c's word: in its direct entry, in its overflow entry, or in a new one.
#[tactic(auto, unfolding(layout::specs::Writes::put_word))]
pub fn put_word(table: &mut [u64], h: Sizes, c: u64, w: u64)
    requires { (h.d ≤ 262144) × (h.d ≤ c → over_count table.old ≤ 65536) }
    ensures { table.new ≡ put_word h table.old c w }
{
    if c < h.d {
        element::put(table, 16 + 2 * c, w);
        return;
    }
    let k = find::over_place(table, 16 + 2 * h.d, head::over_count(table), c);
    put_over(table, h, c, w, k);
}

// The same by the table's own header, of which a direct entry needs word 2 alone.
#[tactic(auto, unfolding(layout::specs::Writes::put_word))]
pub fn set_word(table: &mut [u64], c: u64, w: u64)
    requires { (c < 2 ^ 62) × (get_or table.old 2 0 ≤ c → (get_or table.old 2 0 ≤ 262144) × (over_count table.old ≤ 65536)) }
    ensures { table.new ≡ put_word (header_at table.old) table.old c w }
{
    if c < head::direct(table) {
        element::put(table, 16 + 2 * c, w);
        return;
    }
    let h = head::read(table);
    put_word(table, h, c, w);
}

// The prefix of entry e.
pub fn put_prefix(table: &mut [u64], h: Sizes, e: u64, v: u64)
    requires { InRange h × (e ≤ 327680) }
    ensures { table.new ≡ put_prefix h table.old e v }
{
    if e < h.d {
        element::put(table, 16 + 2 * e + 1, v);
    } else {
        element::put(table, 16 + 2 * h.d + 3 * (e - h.d) + 2, v);
    }
}

// The word below which nothing is free, once slot i, which had the owner `old`, has the owner w.
fn from_after(from: u64, i: u64, old: u64, w: u64) -> u64
    requires { i ≤ 65536 }
    ensures { result ≡ from_after from i old w }
{
    if w == 0 {
        return from.min(i);
    }
    if old == 0 { i + 1 } else { from }
}

// The owner of slot i, the owners starting at a, and header word k.
#[tactic(auto, unfolding(layout::specs::Writes::put_owner))]
fn put_owner(table: &mut [u64], k: u64, a: u64, i: u64, w: u64)
    requires { (a ≤ 1048576) × (i ≤ 65536) }
    ensures { table.new ≡ put_owner k a table.old i w }
{
    let from = from_after(element::at(table, k, 0), i, element::at(table, a + i, 0), w);
    element::put(table, a + i, w);
    element::put(table, k, from);
}

// The owner of row r: a chunk id plus 1, or 0 for a free one.
pub fn put_row_owner(table: &mut [u64], h: Sizes, r: u64, w: u64)
    requires { InRange h × (r ≤ 65536) }
    ensures { table.new ≡ put_row_owner h table.old r w }
{
    put_owner(table, 9, head::row_owners_at(h), r, w);
}

// The owner of page p.
pub fn put_page_owner(table: &mut [u64], h: Sizes, p: u64, w: u64)
    requires { InRange h × (p ≤ 65536) }
    ensures { table.new ≡ put_page_owner h table.old p w }
{
    put_owner(table, 10, head::page_owners_at(h), p, w);
}
