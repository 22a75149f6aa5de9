// Rows of the destination with rows of the source.
ghost use Rattle.std.specs.Prelude.{◌≡◌, cond, ◌+◌, ◌*◌, ◌^◌, ◌≤◌, ◌<◌, length, take, leb};
ghost use Rattle.sparse.specs.Edit.{copied};
ghost use Rattle.sparse.specs.Union.{union, on_front};
ghost use Rattle.document.specs.Sizes.{InRange};
ghost use Rattle.layout.specs.Sizes.{over_count};
ghost use Rattle.layout.specs.Places.{encoded, row_part};
ghost use Rattle.layout.specs.Writes.{put_word, put_row_owner, put_row};
ghost use Rattle.layout.specs.declared.place.Place.TheVariants.{Sparse};
ghost use Rattle.merge_slots.specs.Pools.{RowPools};

use document::sizes::Sizes;
use layout::{head, place};
use layout_writes::write;

// Row r of a pool.
fn part(rows: &[u32], h: Sizes, r: u64) -> &[u32]
    requires { InRange h × (h.r * h.m ≤ length rows.now) × (r < h.r) }
    ensures { result.now ≡ row_part h rows.now r }
{
    let a = head::row_at(h, r) as usize;
    let e = a + h.m as usize;
    &rows[a..e]
}

// A row's l offsets become the union with another row's k, where there is room for all. Answers how many they are.
fn unite(row: &mut [u32], l: usize, other: &[u32], k: usize) -> usize
    requires { (l ≤ length row.old) × (k ≤ length other.now) × (l ≤ 1024) × (k ≤ 1024) }
    ensures { let a = row.old in
        let u = union (take l a) (take k other.now) in
        (result ≡ length u) × (row.new ≡ cond (leb (length u) (length a)) (on_front u a) a) }
{
    let mut both = [0u32; 2048];
    let n = sparse::union_sorted(&row[..l], &other[..k], &mut both);
    if n <= row.len() {
        row[..n].copy_from_slice(&both[..n]);
    }
    n
}

// Row r gets the first k offsets of the source's row i.
pub fn copy(rows: &mut [u32], h: Sizes, r: u64, srows: &[u32], g: Sizes, i: u64, k: u64)
    requires { RowPools h g (length rows.old) (length srows.now) × (r < h.r) × (i < g.r) × (k ≤ g.m) }
    ensures { rows.new ≡ put_row h rows.old r
        (copied (row_part g srows.now i) (row_part h rows.old r) k) }
{
    let a = head::row_at(h, r) as usize;
    let e = a + h.m as usize;
    sparse::copy(part(srows, g, i), &mut rows[a..e], k as usize);
}

// Row r's l offsets become the union with the first k of the source's row i, where a row has room for them. Answers how many they are.
pub fn join(
    rows: &mut [u32],
    h: Sizes,
    r: u64,
    l: u64,
    srows: &[u32],
    g: Sizes,
    i: u64,
    k: u64,
) -> u64
    requires { RowPools h g (length rows.old) (length srows.now) × (r < h.r) × (l ≤ h.m) × (i < g.r) × (k ≤ g.m) }
    ensures { let row = row_part h rows.old r in
        let u = union (take l row) (take k (row_part g srows.now i)) in
        (result ≡ length u) × (rows.new ≡ cond (leb (length u) h.m) (put_row h rows.old r (on_front u row)) rows.old) }
{
    let a = head::row_at(h, r) as usize;
    let e = a + h.m as usize;
    unite(&mut rows[a..e], l as usize, part(srows, g, i), k as usize) as u64
}

// Chunk c stands in row r with l members.
pub fn enter(table: &mut [u64], h: Sizes, c: u64, r: u64, l: u64)
    requires { InRange h × (r < h.r) × (l ≤ h.m) × (over_count table.old ≤ 65536) × (c < 2 ^ 62) }
    ensures { table.new ≡ put_row_owner h (put_word h table.old c (encoded (Sparse r l))) r (c + 1) }
{
    write::put_word(table, h, c, place::row_word(r, l));
    write::put_row_owner(table, h, r, c + 1);
}
