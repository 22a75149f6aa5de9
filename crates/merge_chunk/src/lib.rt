// One chunk's turn: what is written where the union of the chunk is dense, and where it is sparse.
#![tactic(auto)]

ghost use Rattle.std.specs.Prelude.{◌≡◌, List, true, ℕ, ◌*◌, ◌<◌, length};
ghost use Rattle.layout.specs.Mem.{mem};
ghost use Rattle.layout.specs.Sizes.{header_at};
ghost use Rattle.layout.specs.Places.{page_part};
ghost use Rattle.layout.specs.Free.{free_row_in, free_page_in};
ghost use Rattle.layout.specs.Writes.{put_page};
ghost use Rattle.layout.specs.declared.place.Place.TheVariants.{Absent, Sparse, Dense};
ghost use Rattle.calls.specs.Prepare.{into_page};
ghost use Rattle.unions.specs.Union.{fits, with_source};
ghost use Rattle.merge_slots.specs.Pools.{PagePools, RowPools};
ghost use Rattle.merge_chunk.specs.Ready.{Into, Turn};
ghost use Rattle.merge_chunk.specs.Effects.{page_or, Densely, Sparsely};

use document::sizes::Sizes;
use layout::place::Place;
use merge_plan::kind;
use merge_slots::{page, row};
use steps::turn;

// ---- dense

// The page that a chunk has, or takes: p is the lowest free one.
fn page_or(o: Place, p: u64) -> u64
    ensures { result ≡ page_or o p }
{
    match o {
        Place::Absent | Place::Sparse(_, _) => p,
        Place::Dense(i) => i,
    }
}

// Chunk c, at o until now, goes into page p with its members; a dense one stays where it is.
#[tactic(auto, using(steps::proofs::Fills::blank_paged))]
fn into_page(
    pages: &mut [u64],
    rows: &mut [u32],
    table: &mut [u64],
    h: Sizes,
    c: u64,
    o: Place,
    p: u64,
)
    requires { Into h (length pages.old) (length rows.old) table.old c o p }
    ensures { (b : List ℕ) → mem pages.new rows.new b table.new
        ≡ into_page h (mem pages.old rows.old b table.old) c p o }
{
    match o {
        Place::Absent => turn::enter_page(table, h, c, p),
        Place::Sparse(r, l) => turn::turn_row(pages, rows, table, h, c, r, l, p),
        Place::Dense(_) => {}
    }
}

// Page p of a chunk that stood at o gets the members of the source's page i: a copy where there was no chunk.
fn join_dense(pages: &mut [u64], h: Sizes, p: u64, o: Place, spages: &[u64], g: Sizes, i: u64)
    requires { PagePools h g (length pages.old) (length spages.now) × (p < h.p) × (i < g.p) }
    ensures { (sr sb st : List ℕ) → g ≡ header_at st → pages.new ≡ put_page h pages.old p
        (with_source (mem spages.now sr sb st) o (page_part h pages.old p) (Dense i)) }
{
    match o {
        Place::Absent => page::copy(pages, h, p, spages, g, i),
        Place::Sparse(_, _) | Place::Dense(_) => page::unite(pages, h, p, spages, g, i),
    }
}

// Page p gets the source's members, at q. Its row is read by the sizes of both: their rows are as wide.
#[tactic(auto, using(steps::proofs::Fills::put_back))]
fn join_page(
    pages: &mut [u64],
    h: Sizes,
    p: u64,
    o: Place,
    spages: &[u64],
    srows: &[u32],
    g: Sizes,
    q: Place,
)
    requires { PagePools h g (length pages.old) (length spages.now) × RowPools h g (h.r * h.m) (length srows.now)
        × (p < h.p) × (fits g q ≡ true) }
    ensures { (sb st : List ℕ) → g ≡ header_at st → pages.new ≡ put_page h pages.old p
        (with_source (mem spages.now srows.now sb st) o (page_part h pages.old p) q) }
{
    match q {
        Place::Absent => {}
        Place::Sparse(i, k) => {
            let f = Sizes { r: g.r, ..h };
            turn::fill_page(pages, srows, f, i, k as usize, p)
        }
        Place::Dense(i) => join_dense(pages, h, p, o, spages, g, i),
    }
}

// Chunk c, at o here and at q there, where their union is dense; p is the lowest free page.
pub fn densely(
    pages: &mut [u64],
    rows: &mut [u32],
    table: &mut [u64],
    h: Sizes,
    c: u64,
    o: Place,
    p: u64,
    spages: &[u64],
    srows: &[u32],
    g: Sizes,
    q: Place,
)
    requires { PagePools h g (length pages.old) (length spages.now) × RowPools h g (length rows.old) (length srows.now)
        × Turn h g table.old c o q × (p ≡ free_page_in h table.old) }
    ensures { Densely pages.old rows.old table.old
        pages.new rows.new table.new spages.now srows.now g c o q }
{
    if !kind::is_dense(rows, h, o, srows, g, q) {
        return;
    }
    let k = page_or(o, p);
    if h.p <= k {
        return;
    }
    into_page(pages, rows, table, h, c, o, k);
    join_page(pages, h, k, o, spages, srows, g, q);
}

// ---- sparse

// Chunk c, absent here, takes the lowest free row, r, with the source's k offsets.
#[tactic(auto, unfolding(steps::specs::Steps::rowed))]
fn take_row(
    rows: &mut [u32],
    table: &mut [u64],
    h: Sizes,
    c: u64,
    r: u64,
    srows: &[u32],
    g: Sizes,
    i: u64,
    k: u64,
)
    requires { RowPools h g (length rows.old) (length srows.now) × Turn h g table.old c Absent (Sparse i k)
        × (r ≡ free_row_in h table.old) }
    ensures { Sparsely rows.old table.old rows.new table.new
        srows.now g c Absent (Sparse i k) }
{
    if h.r <= r {
        return;
    }
    row::copy(rows, h, r, srows, g, i, k);
    row::enter(table, h, c, r, k);
}

// Chunk c, with l members in row r, stays there with the source's k offsets.
#[tactic(auto, unfolding(steps::specs::Steps::rowed))]
fn join_row(
    rows: &mut [u32],
    table: &mut [u64],
    h: Sizes,
    c: u64,
    r: u64,
    l: u64,
    srows: &[u32],
    g: Sizes,
    i: u64,
    k: u64,
)
    requires { RowPools h g (length rows.old) (length srows.now) × Turn h g table.old c (Sparse r l) (Sparse i k) }
    ensures { Sparsely rows.old table.old rows.new table.new
        srows.now g c (Sparse r l) (Sparse i k) }
{
    let n = row::join(rows, h, r, l, srows, g, i, k);
    if h.m < n {
        return;
    }
    row::enter(table, h, c, r, n);
}

// Chunk c, at o here, with k offsets of the source's row i.
fn with_row(
    rows: &mut [u32],
    table: &mut [u64],
    h: Sizes,
    c: u64,
    o: Place,
    r: u64,
    srows: &[u32],
    g: Sizes,
    i: u64,
    k: u64,
)
    requires { RowPools h g (length rows.old) (length srows.now) × Turn h g table.old c o (Sparse i k)
        × (r ≡ free_row_in h table.old) }
    ensures { Sparsely rows.old table.old rows.new table.new
        srows.now g c o (Sparse i k) }
{
    match o {
        Place::Absent => take_row(rows, table, h, c, r, srows, g, i, k),
        Place::Sparse(j, l) => join_row(rows, table, h, c, j, l, srows, g, i, k),
        Place::Dense(_) => {}
    }
}

// Chunk c, at o here and at q there, where their union is sparse; r is the lowest free row.
pub fn sparsely(
    rows: &mut [u32],
    table: &mut [u64],
    h: Sizes,
    c: u64,
    o: Place,
    r: u64,
    srows: &[u32],
    g: Sizes,
    q: Place,
)
    requires { RowPools h g (length rows.old) (length srows.now) × Turn h g table.old c o q
        × (r ≡ free_row_in h table.old) }
    ensures { Sparsely rows.old table.old rows.new table.new srows.now g c o q }
{
    match q {
        Place::Absent | Place::Dense(_) => {}
        Place::Sparse(i, k) => with_row(rows, table, h, c, o, r, srows, g, i, k),
    }
}
