// The header's words, the test of its sizes, and where the parts of the pools start.
ghost use Rattle.std.specs.Prelude.{◌≡◌, ◌*◌, ◌-◌, ◌≤◌};
ghost use Rattle.document.specs.Sizes.{InRange};
ghost use Rattle.layout.specs.Sizes.{header_at, mode_at, over_count, total_at, rows_from, pages_from, wide, blocks_of, over_at, row_owners_at, page_owners_at};
ghost use Rattle.layout.specs.Tests.{in_range, roomy};
ghost use Rattle.layout.specs.Writes.{put_mode, put_total};

use document::sizes::Sizes;
use numbers::{element, power};

// The modes.
pub const OPEN: u64 = 0;

pub const RANKED: u64 = 1;

// ---- the words

// s: a chunk has 2^s ids.
pub fn shift(table: &[u64]) -> u64
    ensures { result ≡ (header_at table.now).s }
{
    element::at(table, 0, 0)
}

// m, the members that a row has room for.
pub fn row_size(table: &[u64]) -> u64
    ensures { result ≡ (header_at table.now).m }
{
    element::at(table, 1, 0)
}

// D, the direct entries.
pub fn direct(table: &[u64]) -> u64
    ensures { result ≡ (header_at table.now).d }
{
    element::at(table, 2, 0)
}

// V, the overflow entries.
pub fn overflow(table: &[u64]) -> u64
    ensures { result ≡ (header_at table.now).v }
{
    element::at(table, 3, 0)
}

// R, the rows.
pub fn rows(table: &[u64]) -> u64
    ensures { result ≡ (header_at table.now).r }
{
    element::at(table, 4, 0)
}

// P, the pages.
pub fn pages(table: &[u64]) -> u64
    ensures { result ≡ (header_at table.now).p }
{
    element::at(table, 5, 0)
}

// Open or ranked.
pub fn mode(table: &[u64]) -> u64
    ensures { result ≡ mode_at table.now }
{
    element::at(table, 6, 0)
}

// The overflow entries in use.
pub fn over_count(table: &[u64]) -> u64
    ensures { result ≡ over_count table.now }
{
    element::at(table, 7, 0)
}

// The members, where the set is ranked.
pub fn total(table: &[u64]) -> u64
    ensures { result ≡ total_at table.now }
{
    element::at(table, 8, 0)
}

// No row below it is free.
pub fn rows_from(table: &[u64]) -> u64
    ensures { result ≡ rows_from table.now }
{
    element::at(table, 9, 0)
}

// No page below it is free.
pub fn pages_from(table: &[u64]) -> u64
    ensures { result ≡ pages_from table.now }
{
    element::at(table, 10, 0)
}

// The set is open or ranked from now on.
pub fn put_mode(table: &mut [u64], n: u64)
    ensures { table.new ≡ put_mode table.old n }
{
    element::put(table, 6, n);
}

// The members, 0 where the set is open.
pub fn put_total(table: &mut [u64], n: u64)
    ensures { table.new ≡ put_total table.old n }
{
    element::put(table, 8, n);
}

// ---- the sizes

// The sizes that a table's header says.
pub fn read(table: &[u64]) -> Sizes
    ensures { result ≡ header_at table.now }
{
    Sizes {
        s: shift(table),
        m: row_size(table),
        d: direct(table),
        v: overflow(table),
        r: rows(table),
        p: pages(table),
    }
}

// Document 01's table of sizes.
pub fn in_range(h: Sizes) -> bool
    ensures { result ≡ in_range h }
{
    (9 <= h.s)
        & (h.s <= 25)
        & (1 <= h.m)
        & (h.m <= 1024)
        & (h.d <= 262144)
        & (h.v <= 65536)
        & (h.r <= 65536)
        & (h.p <= 65536)
}

// ---- where things start

// Where overflow entry j starts.
pub fn over_at(h: Sizes, j: u64) -> u64
    requires { InRange h × (j ≤ 65536) }
    ensures { result ≡ over_at h j }
{
    16 + 2 * h.d + 3 * j
}

// How many words the overflow entries from j on have.
pub fn over_words(h: Sizes, j: u64) -> u64
    requires { InRange h × (j ≤ h.v) }
    ensures { result ≡ 3 * (h.v - j) }
{
    3 * (h.v - j)
}

// Where the owners of rows start.
pub fn row_owners_at(h: Sizes) -> u64
    requires { InRange h }
    ensures { result ≡ row_owners_at h }
{
    16 + 2 * h.d + 3 * h.v
}

// Where the owners of pages start.
pub fn page_owners_at(h: Sizes) -> u64
    requires { InRange h }
    ensures { result ≡ page_owners_at h }
{
    row_owners_at(h) + h.r
}

// Where row r starts.
pub fn row_at(h: Sizes, r: u64) -> u64
    requires { InRange h × (r ≤ 65536) }
    ensures { result ≡ r * h.m }
{
    power::times(r, h.m)
}

// Where page p starts.
pub fn page_at(h: Sizes, p: u64) -> u64
    requires { InRange h × (p ≤ 65536) }
    ensures { result ≡ p * wide h }
{
    power::scaled(p, h.s - 6)
}

// Where the block counts of page p start.
pub fn block_at(h: Sizes, p: u64) -> u64
    requires { InRange h × (p ≤ 65536) }
    ensures { result ≡ p * blocks_of h }
{
    power::scaled(p, h.s - 9)
}

// Slices of these lengths are as long as the sizes ask.
pub fn has_room(h: Sizes, pages: u64, rows: u64, blocks: u64, table: u64) -> bool
    requires { InRange h }
    ensures { result ≡ roomy h pages rows blocks table }
{
    (page_at(h, h.p) <= pages)
        & (row_at(h, h.r) <= rows)
        & (block_at(h, h.p) <= blocks)
        & (16 + 2 * h.d + 3 * h.v + h.r + h.p <= table)
}
