// The whole way of an insert: the tests of the header, then the chunk. A function of its own, for every call that tries the short way into a dense chunk first.
ghost use Rattle.std.specs.Prelude.{◌≡◌};
ghost use Rattle.layout.specs.Mem.{mem};
ghost use Rattle.calls.specs.Insert.{told, insert_by};

use crate::{append, chunk};
use document::refusal::Refusal;
use insert_plan::gate;
use layout::head;
use numbers::id as ids;

// `set_if_new` into any chunk, by the place that its word names.
#[tactic(auto, unfolding(insert_plan::specs::Gate::admission, calls::specs::Insert::insert_by))]
fn planned(
    pages: &mut [u64],
    rows: &mut [u32],
    blocks: &[u32],
    table: &mut [u64],
    id: i64,
) -> Result<bool, Refusal>
    ensures { let x = mem pages.old rows.old blocks.now table.old in
        let y = mem pages.new rows.new blocks.now table.new in
        told result y ≡ insert_by x id }
{
    gate::open(table)?;
    let s = head::shift(table);
    let Some((c, o)) = ids::split(id, s) else {
        return Ok(false);
    };
    chunk::put(pages, rows, blocks, table, s, c, o)
}

// The same, with the short way to the end of a row before it.
pub fn anywhere(
    pages: &mut [u64],
    rows: &mut [u32],
    blocks: &[u32],
    table: &mut [u64],
    id: i64,
) -> Result<bool, Refusal>
    ensures { let x = mem pages.old rows.old blocks.now table.old in
        let y = mem pages.new rows.new blocks.now table.new in
        told result y ≡ insert_by x id }
{
    if append::put(pages, rows, blocks, table, id) {
        return Ok(true);
    }
    planned(pages, rows, blocks, table, id)
}
