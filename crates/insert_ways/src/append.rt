// The short way of an insert for ids that rise: to the end of a row whose chunk has a direct entry, in an open set.
ghost use Rattle.std.specs.Prelude.{◌≡◌, true, ◌+◌, ◌^◌, ◌≤◌, ◌<◌, length};
ghost use Rattle.layout.specs.Mem.{mem};
ghost use Rattle.layout.specs.Sizes.{header_at};
ghost use Rattle.calls.specs.Insert.{insert_plan, acted, insert_by};
ghost use Rattle.insert_ways.specs.Ways.{Next, Appends};

use insert_plan::gate;
use layout::find::Spot;
use layout::{find, head};
use numbers::id as ids;

// Offset o is above the last of the row's l members, and the row, n places from a on, has room.
fn is_next(rows: &[u32], a: usize, n: usize, l: usize, o: u64) -> bool
    requires { (a + n ≤ length rows.now) × (o < 2 ^ 32) }
    ensures { result ≡ true → Next rows.now a n l o }
{
    if l == 0 {
        return false;
    }
    if n <= l {
        return false;
    }
    rows[a + (l - 1)] < o as u32
}

// Offset o of chunk c: true where it is appended, else nothing is done.
pub fn into(
    pages: &[u64],
    rows: &mut [u32],
    blocks: &[u32],
    table: &mut [u64],
    s: u64,
    c: u64,
    o: u64,
) -> bool
    requires { (9 ≤ s) × (s ≤ 25) × (s ≡ (header_at table.old).s) × (c < 2 ^ 62) × (o < 2 ^ s) }
    ensures { let x = mem pages.now rows.old blocks.now table.old in
        let y = mem pages.now rows.new blocks.now table.new in
        Appends (acted x c o (insert_plan x c o)) x result y }
{
    if head::direct(table) <= c {
        return false;
    }
    let Ok(w) = find::direct_word(table, c) else {
        return false;
    };
    let Ok(Spot::Row(a, n, l)) = find::spot_of(pages, rows, table, w) else {
        return false;
    };
    if !is_next(rows, a, n, l, o) {
        return false;
    }
    insert_writes::append(rows, table, c, o, w, a + l);
    true
}

// An id. The first test spares a test for each header word.
#[tactic(auto, unfolding(insert_plan::specs::Gate::admission, calls::specs::Insert::insert_by))]
pub fn put(pages: &[u64], rows: &mut [u32], blocks: &[u32], table: &mut [u64], id: i64) -> bool
    ensures { let x = mem pages.now rows.old blocks.now table.old in
        let y = mem pages.now rows.new blocks.now table.new in
        Appends (insert_by x id) x result y }
{
    if table.len() < 16 {
        return false;
    }
    if gate::open(table).is_err() {
        return false;
    }
    let s = head::shift(table);
    let Some((c, o)) = ids::split(id, s) else {
        return false;
    };
    into(pages, rows, blocks, table, s, c, o)
}
