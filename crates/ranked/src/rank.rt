// Ranks of a ranked set: `rank`, `rank_if_set`, `total_count`.
ghost use Rattle.std.specs.Prelude.{◌≡◌, ◌^◌, ◌≤◌, ◌<◌};
ghost use Rattle.layout.specs.Mem.{mem};
ghost use Rattle.layout.specs.Sizes.{header_at};
ghost use Rattle.layout.specs.Seat.{seat_in};
ghost use Rattle.ranks.specs.Rank.{rank_seat, rank_if_seat};
ghost use Rattle.document.specs.Calls.{rank_of, rank_if_set, total_count, many, maybe};
ghost use Rattle.contracts.specs.Does.{Answers};

use crate::mode;
use crate::mode::Form;
use document::refusal::Refusal;
use layout::{find, head, part, seat};
use numbers::id as ids;

// Members below offset o of chunk c: one entry with its prefix, then the chunk itself.
fn rank_at(
    pages: &[u64],
    rows: &[u32],
    blocks: &[u32],
    table: &[u64],
    s: u64,
    c: u64,
    o: u64,
) -> Result<u64, Refusal>
    requires { (9 ≤ s) × (s ≤ 25) × (s ≡ (header_at table.now).s) × (c < 2 ^ 62) × (o < 2 ^ s) }
    ensures { result ≡ rank_seat (mem pages.now rows.now blocks.now table.now) o (seat_in table.now c) }
{
    let (w, before) = seat::seat_of(table, c)?;
    rank_chunk::after(
        before,
        rank_chunk::below(pages, rows, blocks, table, s, w, o),
    )
}

// The same where the offset is a member, else none.
fn rank_if_at(
    pages: &[u64],
    rows: &[u32],
    blocks: &[u32],
    table: &[u64],
    s: u64,
    c: u64,
    o: u64,
) -> Result<Option<u64>, Refusal>
    requires { (9 ≤ s) × (s ≤ 25) × (s ≡ (header_at table.now).s) × (c < 2 ^ 62) × (o < 2 ^ s) }
    ensures { result ≡ rank_if_seat (mem pages.now rows.now blocks.now table.now) o (seat_in table.now c) }
{
    let (w, before) = seat::seat_of(table, c)?;
    if !part::has(pages, rows, find::spot_of(pages, rows, table, w), o)? {
        return Ok(None);
    }
    let within = rank_chunk::below(pages, rows, blocks, table, s, w, o);
    Ok(Some(rank_chunk::after(before, within)?))
}

// The members strictly below an id, 0 for an id of 0 or less.
pub fn rank(
    pages: &[u64],
    rows: &[u32],
    blocks: &[u32],
    table: &[u64],
    id: i64,
) -> Result<u64, Refusal>
    ensures { let x = mem pages.now rows.now blocks.now table.now in Answers x (rank_of id) (many result) }
{
    match mode::form_in(table)? {
        Form::Open => Err(Refusal::IsOpen),
        Form::Ranked => {
            let s = head::shift(table);
            let Some((c, o)) = ids::split(id, s) else {
                return Ok(0);
            };
            rank_at(pages, rows, blocks, table, s, c, o)
        }
    }
}

// A member's rank, none for another id.
pub fn rank_if_set(
    pages: &[u64],
    rows: &[u32],
    blocks: &[u32],
    table: &[u64],
    id: i64,
) -> Result<Option<u64>, Refusal>
    ensures { let x = mem pages.now rows.now blocks.now table.now in Answers x (rank_if_set id) (maybe result) }
{
    match mode::form_in(table)? {
        Form::Open => Err(Refusal::IsOpen),
        Form::Ranked => {
            let s = head::shift(table);
            let Some((c, o)) = ids::split(id, s) else {
                return Ok(None);
            };
            rank_if_at(pages, rows, blocks, table, s, c, o)
        }
    }
}

// The members, as ranking counted them.
pub fn total_count(
    pages: &[u64],
    rows: &[u32],
    blocks: &[u32],
    table: &[u64],
) -> Result<u64, Refusal>
    ensures { let x = mem pages.now rows.now blocks.now table.now in Answers x total_count (many result) }
{
    match mode::form_in(table)? {
        Form::Open => Err(Refusal::IsOpen),
        Form::Ranked => Ok(head::total(table)),
    }
}
