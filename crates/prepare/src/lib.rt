// Preparation: every chunk up to a maximum becomes dense. A plan that only reads, then a loop over chunk ids that writes.
#![tactic(auto)]

mod plan;
mod write;

ghost use Rattle.layout.specs.Mem.{mem};
ghost use Rattle.document.specs.Calls.{prepare, that};
ghost use Rattle.contracts.specs.Does.{Does};

use document::refusal::Refusal;

// Chunks 0 to the maximum's become dense, with the members that they have; or 3, 4, 6, 8 and nothing is changed.
pub fn pre_allocate(
    pages: &mut [u64],
    rows: &mut [u32],
    blocks: &mut [u32],
    table: &mut [u64],
    max_id: i64,
) -> Result<(), Refusal>
    ensures { let x = mem pages.old rows.old blocks.old table.old in
        let y = mem pages.new rows.new blocks.new table.new in
        Does x (prepare max_id) (that result) y }
{
    match plan::plan_for(pages, rows, blocks, table, max_id)? {
        None => Ok(()),
        Some(c) => {
            write::make_all(pages, rows, table, c);
            Ok(())
        }
    }
}
