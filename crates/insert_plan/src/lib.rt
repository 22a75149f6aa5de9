// What an insert into an absent or a sparse chunk is to do, found before anything is written. Only what is touched is tested.
#![tactic(auto)]

pub mod gate;

ghost use Rattle.std.specs.Prelude.{◌≡◌, ◌^◌, ◌<◌};
ghost use Rattle.sparse.specs.Search.{spot_in};
ghost use Rattle.layout.specs.Mem.{mem};
ghost use Rattle.layout.specs.Sizes.{head, header_at};
ghost use Rattle.layout.specs.Places.{row_part};
ghost use Rattle.calls.specs.Insert.{start_chunk, turn_dense, into_row};
ghost use Rattle.insert_plan.specs.Ready.{RowReady};

use calls::plan::Plan;
use document::refusal::Refusal;
use layout::head;
use layout_walk::{owners, walk};
use numbers::power;

// A new sparse chunk: 6 where it needs an overflow entry and none is left, then 7 where no row is free.
pub fn begin(
    pages: &[u64],
    rows: &[u32],
    blocks: &[u32],
    table: &[u64],
    c: u64,
) -> Result<Plan, Refusal>
    ensures { let x = mem pages.now rows.now blocks.now table.now in result ≡ start_chunk x c }
{
    let h = head::read(table);
    if !walk::head_is(h, pages, rows, blocks, table) {
        return Err(Refusal::NotLaidOut);
    }
    let n = head::over_count(table);
    if (h.d <= c) & (h.v <= n) {
        return Err(Refusal::OverflowFull);
    }
    let r = owners::free_row(table, h);
    if r < h.r {
        return Ok(Plan::Begin(r));
    }
    Err(Refusal::RowsFull)
}

// A full row r of l members gets one more: 8 where no page is free.
pub fn turn(
    pages: &[u64],
    rows: &[u32],
    blocks: &[u32],
    table: &[u64],
    r: u64,
    l: usize,
) -> Result<Plan, Refusal>
    ensures { let x = mem pages.now rows.now blocks.now table.now in result ≡ turn_dense x r l }
{
    let h = head::read(table);
    if !walk::head_is(h, pages, rows, blocks, table) {
        return Err(Refusal::NotLaidOut);
    }
    if h.r <= r {
        return Err(Refusal::NotLaidOut);
    }
    let p = owners::free_page(table, h);
    if p < h.p {
        return Ok(Plan::Turn(r, l, p));
    }
    Err(Refusal::PagesFull)
}

// Into row r of l members. A member is never a promotion.
pub fn row(
    pages: &[u64],
    rows: &[u32],
    blocks: &[u32],
    table: &[u64],
    o: u64,
    r: u64,
    l: usize,
) -> Result<Plan, Refusal>
    requires { RowReady rows.now r l (header_at table.now) × (o < 2 ^ 32) }
    ensures { let x = mem pages.now rows.now blocks.now table.now in
        result ≡ into_row x r l (spot_in (row_part (head x) x.rows r) l o) }
{
    let m = head::row_size(table);
    let n = m as usize;
    let a = power::times(r, m) as usize;
    match sparse::spot(&rows[a..a + n], l, o as u32) {
        Ok(_) => Ok(Plan::Known),
        Err(k) if l < n => Ok(Plan::Enter(r, l, k)),
        Err(_) => turn(pages, rows, blocks, table, r, l),
    }
}
