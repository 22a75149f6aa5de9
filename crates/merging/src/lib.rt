// Union: a source's members into a destination. Judged by a crate that only reads, then written in two passes over the source's entries.
#![tactic(auto)]

mod pass;

ghost use Rattle.document.specs.Union.{merge_from, merge};
ghost use Rattle.layout.specs.Mem.{mem};
ghost use Rattle.contracts.specs.Does.{Joins};

use document::refusal::Refusal;
use layout::head;
use layout_writes::setup;
use merge_plan::plan;

// The destination gets the source's members, and the source stays; or 3, 4, 10, 6, 7, 8 and nothing is changed.
pub fn merge_from(
    pages: &mut [u64],
    rows: &mut [u32],
    blocks: &mut [u32],
    table: &mut [u64],
    spages: &[u64],
    srows: &[u32],
    sblocks: &[u32],
    stable: &[u64],
) -> Result<(), Refusal>
    ensures { let x = mem pages.old rows.old blocks.old table.old in
        let y = mem spages.now srows.now sblocks.now stable.now in
        let u = mem pages.new rows.new blocks.new table.new in
        Joins x y merge_from result u y }
{
    plan::union_plan(
        pages, rows, blocks, table, spages, srows, sblocks, stable, false,
    )?;
    pass::unite(pages, rows, table, spages, srows, stable);
    Ok(())
}

// The same, and then the source is empty and open.
pub fn merge(
    pages: &mut [u64],
    rows: &mut [u32],
    blocks: &mut [u32],
    table: &mut [u64],
    spages: &mut [u64],
    srows: &mut [u32],
    sblocks: &mut [u32],
    stable: &mut [u64],
) -> Result<(), Refusal>
    ensures { let x = mem pages.old rows.old blocks.old table.old in
        let y = mem spages.old srows.old sblocks.old stable.old in
        let u = mem pages.new rows.new blocks.new table.new in
        let v = mem spages.new srows.new sblocks.new stable.new in
        Joins x y merge result u v }
{
    plan::union_plan(
        pages, rows, blocks, table, spages, srows, sblocks, stable, true,
    )?;
    pass::unite(pages, rows, table, spages, srows, stable);
    let g = head::read(stable);
    setup::make_fresh(g, spages, srows, sblocks, stable);
    Ok(())
}
