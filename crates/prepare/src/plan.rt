// What preparation is to do, judged by arithmetic on a table that passed the walk.
ghost use Rattle.std.specs.Prelude.{◌≡◌, ◌&&◌, ◌^◌, ◌≤◌, ◌<◌, ltb};
ghost use Rattle.layout.specs.Mem.{mem};
ghost use Rattle.document.specs.Sizes.{InRange};
ghost use Rattle.layout.specs.Sizes.{over_count};
ghost use Rattle.layout.specs.Places.{has_page};
ghost use Rattle.layout.specs.Entries.{chunk_at, place_at};
ghost use Rattle.calls.specs.Prepare.{over_needed, pages_needed};
ghost use Rattle.prepare.specs.PreparePlan.{plan_to, plan_prepare};

use document::refusal::Refusal;
use document::sizes::Sizes;
use layout::{entry, find, head, place};
use layout_walk::walk;
use numbers::id as ids;

// A chunk past c that has a page already.
pub fn dense_past(table: &[u64], h: Sizes, c: u64, e: u64) -> bool
    requires { InRange h × (e ≤ 327680) }
    ensures { result ≡ (ltb c (chunk_at h table.now e) && has_page (place_at h table.now e)) }
{
    (c < entry::chunk_at(table, h, e)) & place::has_page(entry::place_at(table, h, e))
}

// Pages in use once chunks 0 to c are dense.
pub fn pages_needed(table: &[u64], h: Sizes, c: u64) -> u64
    requires { InRange h × (over_count table.now ≤ 65536) × (c < 2 ^ 62) }
    ensures { result ≡ pages_needed h table.now c }
{
    let n = h.d + head::over_count(table);
    let mut k: u64 = 0;
    for e in 0..n {
        k += dense_past(table, h, c, e) as u64;
    }
    k + (c + 1)
}

// Overflow entries in use once chunks 0 to c are dense.
pub fn over_needed(table: &[u64], h: Sizes, c: u64) -> u64
    requires { InRange h × (over_count table.now ≤ 65536) × (c < 2 ^ 62) }
    ensures { result ≡ over_needed h table.now c }
{
    let n = head::over_count(table);
    let k = find::over_below(table, h, c + 1);
    n - k + (c + 1).saturating_sub(h.d)
}

// Chunk c where there is room: 6 before 8, and no loop before 6, so that however large the maximum is, it is answered at once.
pub fn judge(table: &[u64], h: Sizes, c: u64) -> Result<Option<u64>, Refusal>
    requires { InRange h × (over_count table.now ≤ 65536) × (c < 2 ^ 62) }
    ensures { result ≡ plan_to h table.now c }
{
    if h.v < over_needed(table, h, c) {
        return Err(Refusal::OverflowFull);
    }
    if h.p < pages_needed(table, h, c) {
        return Err(Refusal::PagesFull);
    }
    Ok(Some(c))
}

// The last chunk to make dense, none for a negative maximum. 3 for a table that fails the walk, 4 for a ranked set, then the maximum.
pub fn plan_for(
    pages: &[u64],
    rows: &[u32],
    blocks: &[u32],
    table: &[u64],
    max_id: i64,
) -> Result<Option<u64>, Refusal>
    ensures { result ≡ plan_prepare (mem pages.now rows.now blocks.now table.now) max_id }
{
    if !walk::walk(pages, rows, blocks, table) {
        return Err(Refusal::NotLaidOut);
    }
    if head::mode(table) == head::RANKED {
        return Err(Refusal::IsRanked);
    }
    let h = head::read(table);
    let Some(c) = ids::chunk_of(max_id, h.s) else {
        return Ok(None);
    };
    judge(table, h, c)
}
