// Whether the union of a chunk is dense, by where it stands here and there.
ghost use Rattle.std.specs.Prelude.{◌≡◌, length, take};
ghost use Rattle.sparse.specs.Union.{union};
ghost use Rattle.layout.specs.Mem.{Mem};
ghost use Rattle.layout.specs.Places.{row_part};
ghost use Rattle.layout.specs.declared.place.Place.TheVariants.{Sparse};
ghost use Rattle.unions.specs.Union.{union_dense};
ghost use Rattle.merge_plan.specs.Sides.{Side, WithRows};

use document::sizes::Sizes;
use layout::head;
use layout::place::Place;

// How many members l offsets of row r and k offsets of the source's row i have together.
#[tactic(auto, using(crate::proofs::Rows::row_lent))]
fn rows_len(rows: &[u32], h: Sizes, r: u64, l: u64, srows: &[u32], g: Sizes, i: u64, k: u64) -> u64
    requires { Side h rows.now (Sparse r l) × Side g srows.now (Sparse i k) }
    ensures { result ≡ length (union (take l (row_part h rows.now r)) (take k (row_part g srows.now i))) }
{
    let a = head::row_at(h, r) as usize;
    let b = head::row_at(g, i) as usize;
    let e = a + l as usize;
    let f = b + k as usize;
    sparse::union_len(&rows[a..e], &srows[b..f]) as u64
}

// With k offsets of the source's row i: two sparse chunks stay sparse up to m members.
fn with_row(rows: &[u32], h: Sizes, o: Place, srows: &[u32], g: Sizes, i: u64, k: u64) -> bool
    requires { Side h rows.now o × Side g srows.now (Sparse i k) }
    ensures { (x y : Mem) → WithRows h rows.now x → WithRows g srows.now y → result ≡ union_dense x y o (Sparse i k) }
{
    match o {
        Place::Absent => false,
        Place::Sparse(r, l) => h.m < rows_len(rows, h, r, l, srows, g, i, k),
        Place::Dense(_) => true,
    }
}

// A chunk at o here and at q there: any dense side gives dense.
pub fn is_dense(rows: &[u32], h: Sizes, o: Place, srows: &[u32], g: Sizes, q: Place) -> bool
    requires { Side h rows.now o × Side g srows.now q }
    ensures { (x y : Mem) → WithRows h rows.now x → WithRows g srows.now y → result ≡ union_dense x y o q }
{
    match q {
        Place::Absent => false,
        Place::Sparse(i, k) => with_row(rows, h, o, srows, g, i, k),
        Place::Dense(_) => true,
    }
}
