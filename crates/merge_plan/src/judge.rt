// The verdict before anything is written: what the map after needs, beside what there is.
ghost use Rattle.std.specs.Prelude.{◌≡◌, ◌+◌, ◌<◌};
ghost use Rattle.layout.specs.Mem.{Mem};
ghost use Rattle.layout.specs.Entries.{entries};
ghost use Rattle.unions.specs.Union.{source_entries, judged};
ghost use Rattle.merge_plan.specs.Judging.{Passed, OnAny, Small, with_chunk, growth_to};

use crate::{kind, place as places};
use document::refusal::Refusal;
use document::sizes::Sizes;
use layout::place::Place;
use layout::{entry, head, place};
use layout_walk::owners;

// How the map grows: overflow entries, rows, rows that are set free, pages.
#[derive(Clone, Copy, Default)]
pub struct Growth {
    pub entries: u64,
    pub rows: u64,
    pub freed: u64,
    pub pages: u64,
}

// By n, and by chunk c, at o here and at q there.
fn with_chunk(n: Growth, h: Sizes, c: u64, o: Place, q: Place, dense: bool) -> Growth
    requires { Small n }
    ensures { result ≡ with_chunk n h c o q dense }
{
    let row = place::has_row(o);
    let page = place::has_page(o);
    let new = !(row | page);
    let source_row = place::has_row(q);
    Growth {
        entries: n.entries + ((source_row | place::has_page(q)) & ((h.d <= c) & new)) as u64,
        rows: n.rows + (source_row & new) as u64,
        freed: n.freed + (dense & row) as u64,
        pages: n.pages + (dense & !page) as u64,
    }
}

// By the source's entries up to e, where it grows by n before that.
#[tactic(auto, using(sums::proofs::Counts::count_next), unfolding(crate::specs::Judging::growth_to, unions::specs::Union::new_entry, unions::specs::Union::new_row, unions::specs::Union::freed_row, unions::specs::Union::new_page))]
fn with_entry(
    rows: &[u32],
    table: &[u64],
    h: Sizes,
    srows: &[u32],
    stable: &[u64],
    g: Sizes,
    e: u64,
    n: Growth,
) -> Growth
    requires { Passed h rows.now table.now × Passed g srows.now stable.now × (e < entries g stable.now)
        × OnAny rows.now table.now srows.now stable.now (λ (x y : Mem). n ≡ growth_to x y e) }
    ensures { OnAny rows.now table.now srows.now stable.now
        (λ (x y : Mem). result ≡ growth_to x y (e + 1)) }
{
    let c = entry::chunk_at(stable, g, e);
    let o = places::standing(table, h, c);
    let q = places::source(stable, g, e);
    with_chunk(n, h, c, o, q, kind::is_dense(rows, h, o, srows, g, q))
}

// By all of the source's entries.
#[tactic(auto, using(sums::proofs::Counts::count_zero), unfolding(crate::specs::Judging::growth_to))]
fn grown(rows: &[u32], table: &[u64], h: Sizes, srows: &[u32], stable: &[u64], g: Sizes) -> Growth
    requires { Passed h rows.now table.now × Passed g srows.now stable.now }
    ensures small { Small result }
    ensures grown { OnAny rows.now table.now srows.now stable.now
        (λ (x y : Mem). result ≡ growth_to x y (source_entries y)) }
{
    let n = g.d + head::over_count(stable);
    let mut k = Growth::default();
    for e in 0..n {
        k = with_entry(rows, table, h, srows, stable, g, e, k);
    }
    k
}

// 6, 7, 8. A row that its chunk leaves for a page is free for another.
#[tactic(auto, using(sums::proofs::Counts::count_le), unfolding(unions::specs::Union::judged, crate::specs::Judging::growth_to))]
pub fn judge(
    rows: &[u32],
    table: &[u64],
    h: Sizes,
    srows: &[u32],
    stable: &[u64],
    g: Sizes,
) -> Result<(), Refusal>
    requires { Passed h rows.now table.now × Passed g srows.now stable.now }
    ensures { OnAny rows.now table.now srows.now stable.now
        (λ (x y : Mem). result ≡ judged x y) }
{
    let n = grown(rows, table, h, srows, stable, g);
    if h.v < head::over_count(table) + n.entries {
        return Err(Refusal::OverflowFull);
    }
    if h.r < (owners::rows_owned(table, h) + n.rows).saturating_sub(n.freed) {
        return Err(Refusal::RowsFull);
    }
    if h.p < owners::pages_owned(table, h) + n.pages {
        return Err(Refusal::PagesFull);
    }
    Ok(())
}
