// The walk over the table that calls make before they write to many chunks, or plan: every rule that is the table's alone.
ghost use Rattle.std.specs.Prelude.{◌≡◌, true, not, ◌&&◌, ◌||◌, ◌+◌, ◌^◌, ◌≤◌, length, leb, ltb, eqb};
ghost use Rattle.sums.specs.Rules.{all_to};
ghost use Rattle.layout.specs.Mem.{mem};
ghost use Rattle.document.specs.Sizes.{InRange};
ghost use Rattle.layout.specs.Sizes.{table_size, over_count, total_at};
ghost use Rattle.layout.specs.Entries.{entries};
ghost use Rattle.layout.specs.Tests.{key_is, word_is, place_is, ranked_at, head_is, over_is, table_is, walked};
ghost use Rattle.layout_walk.specs.Seen.{SeenTo, EightAlike};

use crate::{owners, zeros};
use document::sizes::Sizes;
use layout::place::Place;
use layout::{entry, head, place};
use numbers::{element, id, power};

// An owner names chunk c when it is c + 1; a chunk id of 2^64 - 1 has no owner.
pub fn owner_is(o: u64, c: u64) -> bool
    ensures { result ≡ eqb o (c + 1) }
{
    (1 <= o) & (o.saturating_sub(1) == c)
}

// Overflow entry j's id: at least D, below 2^(63-s), below the next.
#[tactic(auto, unfolding(layout::specs::Tests::key_is))]
pub fn key_is(table: &[u64], h: Sizes, j: u64) -> bool
    requires { InRange h × (j ≤ 65536) }
    ensures { result ≡ key_is h table.now j }
{
    let k = element::at(table, 16 + 2 * h.d + 3 * j, 0);
    let next = element::at(table, 16 + 2 * h.d + 3 * (j + 1), 0);
    (h.d <= k) & (k < power::pow2(63 - h.s)) & ((head::over_count(table) <= j + 1) | (k < next))
}

#[tactic(auto, using(sums::proofs::Rules::all_none, sums::proofs::Rules::all_more))]
pub fn keys_are(table: &[u64], h: Sizes) -> bool
    requires { InRange h × (over_count table.now ≤ 65536) }
    ensures { result ≡ all_to (key_is h table.now) (over_count table.now) }
{
    let mut ok = true;
    for j in 0..head::over_count(table) {
        ok &= key_is(table, h, j);
    }
    ok
}

// The words of overflow entries in use are not 0.
#[tactic(auto, using(sums::proofs::Rules::all_none, sums::proofs::Rules::all_more), unfolding(layout::specs::Tests::word_is))]
pub fn words_are(table: &[u64], h: Sizes) -> bool
    requires { InRange h × (over_count table.now ≤ 65536) }
    ensures { result ≡ all_to (word_is h table.now) (over_count table.now) }
{
    let mut ok = true;
    for j in 0..head::over_count(table) {
        ok &= entry::over_word(table, h, j) != 0;
    }
    ok
}

// Overflow entries: ids, words, and zeros past those in use.
#[tactic(auto, unfolding(layout::specs::Tests::over_is, layout::specs::Tests::zeros, layout::specs::Tests::zero_at))]
pub fn over_is(table: &[u64], h: Sizes) -> bool
    requires { InRange h × (table_size h ≤ length table.now) × (over_count table.now ≤ h.v) }
    ensures { result ≡ over_is h table.now }
{
    let n = head::over_count(table);
    keys_are(table, h)
        & words_are(table, h)
        & zeros::all_are(table, head::over_at(h, n), head::over_words(h, n), 0)
}

// Entry e's word names a row or page inside its pool whose owner is the entry's chunk.
#[tactic(auto, unfolding(layout::specs::Tests::place_is))]
pub fn place_is(table: &[u64], h: Sizes, e: u64) -> bool
    requires { InRange h × (e ≤ 327680) }
    ensures { result ≡ place_is h table.now e }
{
    let c = entry::chunk_at(table, h, e);
    match entry::place_at(table, h, e) {
        Place::Absent => true,
        Place::Sparse(r, l) => {
            r < h.r && (1 <= l) & (l <= h.m) & owner_is(entry::row_owner(table, h, r), c)
        }
        Place::Dense(p) => p < h.p && owner_is(entry::page_owner(table, h, p), c),
    }
}

// What one pass over the entries has seen.
#[derive(Clone, Copy)]
pub struct Seen {
    // their places are good
    pub ok: bool,
    // rows and pages that they name
    pub rows: u64,
    pub pages: u64,
    // no prefix is above the next
    pub rise: bool,
    // the last one's prefix
    pub prefix: u64,
}

// Entries e to e + 7 are absent and their prefixes all n: nothing changes but e. Absent entries are the many.
fn eight_alike(table: &[u64], h: Sizes, e: u64, n: u64) -> bool
    requires { InRange h × (table_size h ≤ length table.now) × (e ≤ 327680) }
    ensures { result ≡ true → EightAlike h table.now e n }
{
    entry::eight_absent(table, h.d, e) && entry::eight_prefixes(table, e, n)
}

// All entries in one pass.
pub fn pass(table: &[u64], h: Sizes) -> Seen
    requires { InRange h × (table_size h ≤ length table.now) × (over_count table.now ≤ 65536) }
    ensures { let t = table.now in SeenTo h t (entries h t) result.ok result.rows result.pages result.rise result.prefix }
{
    let n = h.d + head::over_count(table);
    let mut ok = true;
    let mut rows: u64 = 0;
    let mut pages: u64 = 0;
    let mut rise = true;
    let mut prefix: u64 = 0;
    let mut e: u64 = 0;
    // Not a `for`: a step is by eight entries or by one.
    while e < n {
        if eight_alike(table, h, e, prefix) {
            e += 8;
        } else {
            let q = entry::place_at(table, h, e);
            let next = entry::prefix_at(table, h, e);
            ok &= place_is(table, h, e);
            rows += u64::from(place::has_row(q));
            pages += u64::from(place::has_page(q));
            rise &= prefix <= next;
            prefix = next;
            e += 1;
        }
    }
    Seen {
        ok,
        rows,
        pages,
        rise,
        prefix,
    }
}

// The last prefix and the total, after prefixes that rise or not; an open set keeps none.
pub fn ranks_rise(table: &[u64], rise: bool, prefix: u64) -> bool
    ensures { let t = table.now in result ≡ (not (ranked_at t) || (rise && leb prefix (total_at t) && ltb (total_at t) (2 ^ 63))) }
{
    let total = head::total(table);
    (head::mode(table) != head::RANKED) | (rise & (prefix <= total) & (total < id::LIMIT))
}

// The sizes are allowed, the slices long enough, the mode is known and the overflow entries in use fit.
#[tactic(auto, using(layout::proofs::Tests::range_of), unfolding(layout::specs::Tests::head_is))]
pub fn head_is(h: Sizes, pages: &[u64], rows: &[u32], blocks: &[u32], table: &[u64]) -> bool
    ensures { result ≡ head_is h (mem pages.now rows.now blocks.now table.now) }
{
    head::in_range(h)
        && head::has_room(
            h,
            pages.len() as u64,
            rows.len() as u64,
            blocks.len() as u64,
            table.len() as u64,
        )
        && (head::mode(table) <= head::RANKED) & (head::over_count(table) <= h.v)
}

// The table past its sizes: unused words, overflow entries, all entries, prefixes.
pub fn table_is(table: &[u64], h: Sizes) -> bool
    requires { InRange h × (table_size h ≤ length table.now) × (over_count table.now ≤ h.v) }
    ensures { result ≡ table_is h table.now }
{
    let p = pass(table, h);
    zeros::all_are(table, 11, 5, 0)
        & over_is(table, h)
        & (p.ok & owners::owners_are(table, h, p.rows, p.pages))
        & ranks_rise(table, p.rise, p.prefix)
        & owners::froms_are(table, h)
}

// After it nothing of the table can be found wrong.
#[tactic(auto, using(layout::proofs::Tests::head_of), unfolding(layout::specs::Tests::walked))]
pub fn walk(pages: &[u64], rows: &[u32], blocks: &[u32], table: &[u64]) -> bool
    ensures { result ≡ walked (mem pages.now rows.now blocks.now table.now) }
{
    let h = head::read(table);
    head_is(h, pages, rows, blocks, table) && table_is(table, h)
}
