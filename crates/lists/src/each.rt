// What one id of a list is answered, as a number. After the walk no single call is refused, so what stands in a refusal's place is never read.
ghost use Rattle.std.specs.Prelude.{◌≡◌, true, ◌^◌, ◌<◌, Some};
ghost use mir.Val.{bool_byte};
ghost use Rattle.numbers.specs.Ids.{split_of};
ghost use Rattle.layout.specs.Mem.{mem};
ghost use Rattle.layout.specs.Meaning.{ranked};
ghost use Rattle.layout.specs.Sizes.{head};
ghost use Rattle.layout.specs.Entries.{word_of};
ghost use Rattle.layout.specs.Seat.{seat_in};
ghost use Rattle.calls.specs.Reading.{spot_by, has_at};
ghost use Rattle.ranks.specs.Rank.{rank_seat};
ghost use Rattle.lists.specs.Lists.{get_all, rank_all, rank_if_all, one_by};
ghost use Rattle.lists.specs.Ways.{Judged};

use crate::spot;
use document::refusal::Refusal;
use document::sizes::Sizes;
use layout::{entry, part};
use numbers::id as ids;
use ranked::rank;

// Stands for none: no rank is that large.
pub const NO_RANK: u64 = u64::MAX;

// ---- membership

// Offset o of a chunk past the direct entries.
fn far_has(
    pages: &[u64],
    rows: &[u32],
    blocks: &[u32],
    table: &[u64],
    h: Sizes,
    c: u64,
    o: u64,
) -> Result<bool, Refusal>
    requires { Judged (mem pages.now rows.now blocks.now table.now) h × (c < 2 ^ 62) × (o < 2 ^ h.s) }
    ensures { let x = mem pages.now rows.now blocks.now table.now in
        result ≡ has_at x o (spot_by x (word_of (head x) x.table c)) }
{
    let q = spot::far(pages, rows, blocks, table, h, c);
    part::has(pages, rows, q, o)
}

// An id that is offset o of chunk c. Compiled into the loops of both its callers.
#[inline(always)]
fn has(
    pages: &[u64],
    rows: &[u32],
    blocks: &[u32],
    table: &[u64],
    h: Sizes,
    id: i64,
    c: u64,
    o: u64,
) -> bool
    requires { let x = mem pages.now rows.now blocks.now table.now in
        Judged x h × (Some (c, o) ≡ split_of h.s id) × (c < 2 ^ 62) }
    ensures { bool_byte result ≡ one_by (mem pages.now rows.now blocks.now table.now) get_all id }
{
    if h.d <= c {
        return far_has(pages, rows, blocks, table, h, c, o).unwrap_or(false);
    }
    let q = spot::of_chunk(pages, rows, blocks, table, h, c);
    part::has(pages, rows, Ok(q), o).unwrap_or(false)
}

// 1 for a member, 0 for another id.
pub fn got(pages: &[u64], rows: &[u32], blocks: &[u32], table: &[u64], h: Sizes, id: i64) -> u8
    requires { Judged (mem pages.now rows.now blocks.now table.now) h }
    ensures { result ≡ one_by (mem pages.now rows.now blocks.now table.now) get_all id }
{
    let Some((c, o)) = ids::split(id, h.s) else {
        return 0;
    };
    u8::from(has(pages, rows, blocks, table, h, id, c, o))
}

// ---- the rank of an id

// Offset o of a chunk below D: the members of the chunks before, and those within. Compiled into both loops, as `rank_in` is: else each id of `rank_all` costs a call.
#[inline(always)]
fn placed(
    pages: &[u64],
    rows: &[u32],
    blocks: &[u32],
    table: &[u64],
    h: Sizes,
    c: u64,
    o: u64,
) -> Result<u64, Refusal>
    requires { Judged (mem pages.now rows.now blocks.now table.now) h × (c < h.d) × (o < 2 ^ h.s) }
    ensures { let x = mem pages.now rows.now blocks.now table.now in
        result ≡ rank_seat x o (seat_in x.table c) }
{
    let q = spot::of_chunk(pages, rows, blocks, table, h, c);
    rank_chunk::after(
        entry::prefix_at(table, h, c),
        rank_chunk::below_in(pages, rows, blocks, Ok(q), o),
    )
}

// An id that is offset o of chunk c. A chunk past the direct entries is left to the single call. Compiled into the loops of both its callers.
#[inline(always)]
fn rank_in(
    pages: &[u64],
    rows: &[u32],
    blocks: &[u32],
    table: &[u64],
    h: Sizes,
    id: i64,
    c: u64,
    o: u64,
) -> u64
    requires { let x = mem pages.now rows.now blocks.now table.now in
        Judged x h × (ranked x ≡ true) × (Some (c, o) ≡ split_of h.s id) × (c < 2 ^ 62) }
    ensures { result ≡ one_by (mem pages.now rows.now blocks.now table.now) rank_all id }
{
    if h.d <= c {
        return rank::rank(pages, rows, blocks, table, id).unwrap_or(0);
    }
    placed(pages, rows, blocks, table, h, c, o).unwrap_or(0)
}

pub fn rank_of(pages: &[u64], rows: &[u32], blocks: &[u32], table: &[u64], h: Sizes, id: i64) -> u64
    requires { let x = mem pages.now rows.now blocks.now table.now in Judged x h × (ranked x ≡ true) }
    ensures { result ≡ one_by (mem pages.now rows.now blocks.now table.now) rank_all id }
{
    let Some((c, o)) = ids::split(id, h.s) else {
        return 0;
    };
    rank_in(pages, rows, blocks, table, h, id, c, o)
}

// The rank of a member: is it there, and then where.
pub fn rank_if(pages: &[u64], rows: &[u32], blocks: &[u32], table: &[u64], h: Sizes, id: i64) -> u64
    requires { let x = mem pages.now rows.now blocks.now table.now in Judged x h × (ranked x ≡ true) }
    ensures { result ≡ one_by (mem pages.now rows.now blocks.now table.now) rank_if_all id }
{
    let Some((c, o)) = ids::split(id, h.s) else {
        return NO_RANK;
    };
    if has(pages, rows, blocks, table, h, id, c, o) {
        rank_in(pages, rows, blocks, table, h, id, c, o)
    } else {
        NO_RANK
    }
}
