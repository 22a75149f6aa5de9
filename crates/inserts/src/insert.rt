// Inserts: `set_if_new`, `set`, and the prepared insert. Each tries the short way into a dense chunk first.
ghost use Rattle.std.specs.Prelude.{◌≡◌};
ghost use Rattle.layout.specs.Mem.{mem};
ghost use Rattle.calls.specs.Insert.{told, prepared_by};
ghost use Rattle.document.specs.Insert.{done};
ghost use Rattle.document.specs.Calls.{insert, put, prepared, whether, that};
ghost use Rattle.contracts.specs.Does.{Does};

use document::refusal::Refusal;
use insert_plan::gate;
use insert_ways::{chunk, direct, whole};
use layout::head;
use numbers::id as ids;

// Inserts an id, and answers whether it is new.
pub fn set_if_new(
    pages: &mut [u64],
    rows: &mut [u32],
    blocks: &mut [u32],
    table: &mut [u64],
    id: i64,
) -> Result<bool, Refusal>
    ensures { let x = mem pages.old rows.old blocks.old table.old in
        let y = mem pages.new rows.new blocks.new table.new in
        Does x (insert id) (whether result) y }
{
    match direct::put(pages, rows, blocks, table, id) {
        Some(b) => Ok(b),
        None => whole::anywhere(pages, rows, blocks, table, id),
    }
}

// Inserts an id, and drops the answer.
pub fn set(
    pages: &mut [u64],
    rows: &mut [u32],
    blocks: &mut [u32],
    table: &mut [u64],
    id: i64,
) -> Result<(), Refusal>
    ensures { let x = mem pages.old rows.old blocks.old table.old in
        let y = mem pages.new rows.new blocks.new table.new in
        Does x (put id) (that result) y }
{
    match direct::put(pages, rows, blocks, table, id) {
        Some(_) => Ok(()),
        None => {
            whole::anywhere(pages, rows, blocks, table, id)?;
            Ok(())
        }
    }
}

// The whole way of the prepared insert.
#[tactic(auto, unfolding(insert_plan::specs::Gate::admission, calls::specs::Insert::prepared_by))]
fn prepared(
    pages: &mut [u64],
    rows: &[u32],
    blocks: &[u32],
    table: &[u64],
    id: i64,
) -> Result<bool, Refusal>
    ensures { let x = mem pages.old rows.now blocks.now table.now in
        let y = mem pages.new rows.now blocks.now table.now in
        told result y ≡ prepared_by x id }
{
    gate::open(table)?;
    let s = head::shift(table);
    let (c, o) = ids::split(id, s).ok_or(Refusal::NotPrepared)?;
    chunk::put_prepared(pages, rows, blocks, table, s, c, o)
}

// Inserts an id into a dense chunk, and answers whether it is new; else 9.
pub fn set_prepared(
    pages: &mut [u64],
    rows: &mut [u32],
    blocks: &mut [u32],
    table: &mut [u64],
    id: i64,
) -> Result<bool, Refusal>
    ensures { let x = mem pages.old rows.old blocks.old table.old in
        let y = mem pages.new rows.new blocks.new table.new in
        Does x (prepared id) (whether result) y }
{
    match direct::put(pages, rows, blocks, table, id) {
        Some(b) => Ok(b),
        None => prepared(pages, rows, blocks, table, id),
    }
}
