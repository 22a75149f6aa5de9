// The two passes over the source's entries: first chunks whose union is dense, which frees rows, then those whose union is sparse.
ghost use Rattle.std.specs.Prelude.{◌≡◌, List, ℕ, length};
ghost use Rattle.layout.specs.Mem.{mem};
ghost use Rattle.layout.specs.Sizes.{header_at};
ghost use Rattle.layout.specs.Free.{free_row_in, free_page_in};
ghost use Rattle.unions.specs.Union.{source_entries, dense_to, sparse_to, united_by};
ghost use Rattle.merge_slots.specs.Pools.{PagePools, RowPools};
ghost use Rattle.merging.specs.Ready.{Entry, Sound, RowsSound};
ghost use Rattle.merging.specs.Effects.{DenseTurn, SparseTurn};

use document::sizes::Sizes;
use layout::{entry, head};
use layout_walk::owners;
use merge_plan::place;

// Entry e of the source, where the union of its chunk is dense; p is the lowest free page.
fn dense_turn(
    pages: &mut [u64],
    rows: &mut [u32],
    table: &mut [u64],
    h: Sizes,
    p: u64,
    spages: &[u64],
    srows: &[u32],
    stable: &[u64],
    g: Sizes,
    e: u64,
)
    requires { PagePools h g (length pages.old) (length spages.now) × RowPools h g (length rows.old) (length srows.now)
        × Entry h g table.old stable.now e × (p ≡ free_page_in h table.old) }
    ensures { DenseTurn pages.old rows.old table.old pages.new rows.new table.new
        spages.now srows.now stable.now e }
{
    let c = entry::chunk_at(stable, g, e);
    let o = place::standing(table, h, c);
    let q = place::source(stable, g, e);
    merge_chunk::densely(pages, rows, table, h, c, o, p, spages, srows, g, q);
}

// All entries. Pages are only taken, so that none below p is free again.
#[tactic(auto, unfolding(unions::specs::Union::dense_to))]
fn dense_pass(
    pages: &mut [u64],
    rows: &mut [u32],
    table: &mut [u64],
    h: Sizes,
    spages: &[u64],
    srows: &[u32],
    stable: &[u64],
    g: Sizes,
)
    requires { Sound pages.old rows.old table.old spages.now srows.now stable.now × (h ≡ header_at table.old) × (g ≡ header_at stable.now) }
    ensures { (b sb : List ℕ) → mem pages.new rows.new b table.new
        ≡ (let y = mem spages.now srows.now sb stable.now in
        dense_to (mem pages.old rows.old b table.old) y (source_entries y)) }
{
    let n = g.d + head::over_count(stable);
    let mut p = owners::free_page(table, h);
    for e in 0..n {
        dense_turn(pages, rows, table, h, p, spages, srows, stable, g, e);
        p = owners::next_page(table, h, p);
    }
}

// Entry e of the source, where the union of its chunk is sparse; r is the lowest free row.
fn sparse_turn(
    rows: &mut [u32],
    table: &mut [u64],
    h: Sizes,
    r: u64,
    srows: &[u32],
    stable: &[u64],
    g: Sizes,
    e: u64,
)
    requires { RowPools h g (length rows.old) (length srows.now) × Entry h g table.old stable.now e
        × (r ≡ free_row_in h table.old) }
    ensures { SparseTurn rows.old table.old rows.new table.new
        srows.now stable.now e }
{
    let c = entry::chunk_at(stable, g, e);
    let o = place::standing(table, h, c);
    let q = place::source(stable, g, e);
    merge_chunk::sparsely(rows, table, h, c, o, r, srows, g, q);
}

// All entries. Rows are only taken now, so that none below r is free again.
#[tactic(auto, unfolding(unions::specs::Union::sparse_to))]
fn sparse_pass(
    rows: &mut [u32],
    table: &mut [u64],
    h: Sizes,
    srows: &[u32],
    stable: &[u64],
    g: Sizes,
)
    requires { RowsSound rows.old table.old srows.now stable.now × (h ≡ header_at table.old) × (g ≡ header_at stable.now) }
    ensures { (p b sp sb : List ℕ) → mem p rows.new b table.new
        ≡ (let y = mem sp srows.now sb stable.now in sparse_to (mem p rows.old b table.old) y (source_entries y)) }
{
    let n = g.d + head::over_count(stable);
    let mut r = owners::free_row(table, h);
    for e in 0..n {
        sparse_turn(rows, table, h, r, srows, stable, g, e);
        r = owners::next_row(table, h, r);
    }
}

// Both passes, whatever the block counts are.
#[tactic(auto, unfolding(unions::specs::Union::united_by))]
pub fn unite(
    pages: &mut [u64],
    rows: &mut [u32],
    table: &mut [u64],
    spages: &[u64],
    srows: &[u32],
    stable: &[u64],
)
    requires { Sound pages.old rows.old table.old spages.now srows.now stable.now }
    ensures { (b sb : List ℕ) → mem pages.new rows.new b table.new
        ≡ (let y = mem spages.now srows.now sb stable.now in
        united_by (mem pages.old rows.old b table.old) y) }
{
    let h = head::read(table);
    let g = head::read(stable);
    dense_pass(pages, rows, table, h, spages, srows, stable, g);
    sparse_pass(rows, table, h, srows, stable, g);
}
