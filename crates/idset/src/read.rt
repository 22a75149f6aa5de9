// Membership and chunk ids, in both modes.
ghost use Rattle.std.specs.Prelude.{◌≡◌, cond, Ok, Err};
ghost use Rattle.document.specs.Calls.{get, chunk_id, whether, maybe};
ghost use Rattle.document.specs.Refusals.{not_laid_out};
ghost use Rattle.layout.specs.Mem.{mem};
ghost use Rattle.layout.specs.Sizes.{header_at};
ghost use Rattle.calls.specs.Reading.{shift_ok};
ghost use Rattle.contracts.specs.Does.{Answers};

use crate::chunk;
use document::refusal::Refusal;
use layout::head;
use numbers::id as ids;

// The table's s, refused where it is none of document 01's.
fn shift(table: &[u64]) -> Result<u64, Refusal>
    ensures { result ≡ cond (shift_ok table.now) (Ok (header_at table.now).s) (Err not_laid_out) }
{
    let s = head::shift(table);
    if (9 <= s) & (s <= 25) {
        Ok(s)
    } else {
        Err(Refusal::NotLaidOut)
    }
}

// Whether an id is a member. A negative one never is.
pub fn get(
    pages: &[u64],
    rows: &[u32],
    blocks: &[u32],
    table: &[u64],
    id: i64,
) -> Result<bool, Refusal>
    ensures { let x = mem pages.now rows.now blocks.now table.now in Answers x (get id) (whether result) }
{
    let s = shift(table)?;
    match ids::split(id, s) {
        None => Ok(false),
        Some((c, o)) => chunk::has(pages, rows, blocks, table, s, c, o),
    }
}

// The chunk that an id lives in, none for a negative one.
pub fn chunk_of(
    pages: &[u64],
    rows: &[u32],
    blocks: &[u32],
    table: &[u64],
    id: i64,
) -> Result<Option<u64>, Refusal>
    ensures { let x = mem pages.now rows.now blocks.now table.now in Answers x (chunk_id id) (maybe result) }
{
    let s = shift(table)?;
    Ok(ids::chunk_of(id, s))
}
