// Rows: those of sparse entries list their offsets, the free ones hold zeros.
ghost use Rattle.std.specs.Prelude.{◌≡◌, ◌+◌, ◌*◌, ◌≤◌, ◌<◌, length};
ghost use Rattle.sums.specs.Rules.{all_to};
ghost use Rattle.document.specs.Sizes.{InRange};
ghost use Rattle.layout.specs.Places.{row_part};
ghost use Rattle.layout.specs.Entries.{entries};
ghost use Rattle.fullcheck.specs.Check.{WalkShown, offset_is, list_is, row_is, free_row_is, rows_are};

use document::sizes::Sizes;
use layout::place::Place;
use layout::{entry, head};
use layout_walk::zeros;
use numbers::{element, power};

// The i-th of a row's l offsets: below u, and below the next.
#[tactic(auto, unfolding(crate::specs::Check::offset_is))]
pub fn offset_is(row: &[u32], u: u64, l: u64, i: u64) -> bool
    requires { i < l }
    ensures { result ≡ offset_is row.now u l i }
{
    let x = element::at(row, i, 0);
    (u64::from(x) < u) & ((l <= i + 1) | (x < element::at(row, i + 1, 0)))
}

// All l of them.
#[tactic(auto, using(sums::proofs::Rules::all_none, sums::proofs::Rules::all_more))]
pub fn rising(row: &[u32], u: u64, l: u64) -> bool
    ensures { result ≡ all_to (offset_is row.now u l) l }
{
    let mut ok = true;
    for i in 0..l {
        ok &= offset_is(row, u, l, i);
    }
    ok
}

// A row of l offsets: they rise, and the rest is 0.
#[tactic(auto, unfolding(crate::specs::Check::list_is, layout::specs::Tests::zeros, layout::specs::Tests::zero_at))]
pub fn list_is(row: &[u32], h: Sizes, l: u64) -> bool
    requires { InRange h × (l ≤ h.m) × (h.m ≤ length row.now) }
    ensures { result ≡ list_is h row.now l }
{
    rising(row, power::pow2(h.s), l) & zeros::all_are(row, l, h.m - l, 0)
}

// The same of row r of the pool.
pub fn list_in(rows: &[u32], h: Sizes, r: u64, l: u64) -> bool
    requires { InRange h × (r < h.r) × (l ≤ h.m) × (h.r * h.m ≤ length rows.now) }
    ensures { result ≡ list_is h (row_part h rows.now r) l }
{
    let a = head::row_at(h, r);
    let lo = a as usize;
    let hi = (a + h.m) as usize;
    list_is(&rows[lo..hi], h, l)
}

// What the row of entry e holds.
#[tactic(auto, unfolding(crate::specs::Check::row_is))]
pub fn row_is(rows: &[u32], table: &[u64], h: Sizes, e: u64) -> bool
    requires { WalkShown h table.now × (h.r * h.m ≤ length rows.now) × (e < entries h table.now) }
    ensures { result ≡ row_is h rows.now table.now e }
{
    match entry::place_at(table, h, e) {
        Place::Sparse(r, l) => list_in(rows, h, r, l),
        Place::Absent | Place::Dense(_) => true,
    }
}

// A row without an owner holds zeros.
#[tactic(auto, unfolding(crate::specs::Check::free_row_is, layout::specs::Tests::zeros, layout::specs::Tests::zero_at))]
pub fn free_row(rows: &[u32], table: &[u64], h: Sizes, r: u64) -> bool
    requires { InRange h × (r < h.r) × (h.r * h.m ≤ length rows.now) }
    ensures { result ≡ free_row_is h rows.now table.now r }
{
    entry::row_owner(table, h, r) != 0 || zeros::all_are(rows, head::row_at(h, r), h.m, 0)
}

// Sentence 10, of every entry.
#[tactic(auto, using(sums::proofs::Rules::all_none, sums::proofs::Rules::all_more))]
pub fn lists_are(rows: &[u32], table: &[u64], h: Sizes) -> bool
    requires { WalkShown h table.now × (h.r * h.m ≤ length rows.now) }
    ensures { result ≡ all_to (row_is h rows.now table.now) (entries h table.now) }
{
    let n = h.d + head::over_count(table);
    let mut ok = true;
    for e in 0..n {
        ok &= row_is(rows, table, h, e);
    }
    ok
}

// Sentence 11, of every row.
#[tactic(auto, using(sums::proofs::Rules::all_none, sums::proofs::Rules::all_more))]
pub fn free_rows(rows: &[u32], table: &[u64], h: Sizes) -> bool
    requires { InRange h × (h.r * h.m ≤ length rows.now) }
    ensures { result ≡ all_to (free_row_is h rows.now table.now) h.r }
{
    let mut ok = true;
    for r in 0..h.r {
        ok &= free_row(rows, table, h, r);
    }
    ok
}

// Sentences 10 and 11.
#[tactic(auto, unfolding(crate::specs::Check::rows_are))]
pub fn rows_are(rows: &[u32], table: &[u64], h: Sizes) -> bool
    requires { WalkShown h table.now × (h.r * h.m ≤ length rows.now) }
    ensures { result ≡ rows_are h rows.now table.now }
{
    lists_are(rows, table, h) & free_rows(rows, table, h)
}
