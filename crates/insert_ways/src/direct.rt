// The short way of both inserts, for the chunk that takes most ids: dense, with a direct entry, in an open set. Small enough to be compiled into each call.
ghost use Rattle.std.specs.Prelude.{◌≡◌, ◌^◌, ◌≤◌, ◌<◌};
ghost use Rattle.layout.specs.Mem.{mem};
ghost use Rattle.layout.specs.Sizes.{header_at};
ghost use Rattle.insert_ways.specs.Ways.{Into, Short};

use insert_plan::gate;
use layout::find::Spot;
use layout::{find, head};
use numbers::id as ids;

// Offset o of chunk c: the call's answer, or none, and nothing is done. The first test leaves the search past the direct entries to the whole way.
pub fn into(
    pages: &mut [u64],
    rows: &[u32],
    blocks: &[u32],
    table: &[u64],
    s: u64,
    c: u64,
    o: u64,
) -> Option<bool>
    requires { (9 ≤ s) × (s ≤ 25) × (s ≡ (header_at table.now).s) × (c < 2 ^ 62) × (o < 2 ^ s) }
    ensures { let x = mem pages.old rows.now blocks.now table.now in
        let y = mem pages.new rows.now blocks.now table.now in
        Into x c o result y }
{
    if head::direct(table) <= c {
        return None;
    }
    let w = find::direct_word(table, c).ok()?;
    let Ok(Spot::Page(a, n)) = find::spot_of(pages, rows, table, w) else {
        return None;
    };
    Some(insert_writes::mark(pages, a, n, o))
}

// An id. The first test spares a test for each header word.
#[tactic(auto, unfolding(insert_plan::specs::Gate::admission, calls::specs::Insert::insert_by, calls::specs::Insert::prepared_by))]
pub fn put(pages: &mut [u64], rows: &[u32], blocks: &[u32], table: &[u64], id: i64) -> Option<bool>
    ensures { let x = mem pages.old rows.now blocks.now table.now in
        let y = mem pages.new rows.now blocks.now table.now in
        Short x id result y }
{
    if table.len() < 16 {
        return None;
    }
    gate::open(table).ok()?;
    let s = head::shift(table);
    let (c, o) = ids::split(id, s)?;
    into(pages, rows, blocks, table, s, c, o)
}
