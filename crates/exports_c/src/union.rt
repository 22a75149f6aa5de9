// Union, for C: each calls the entry of exports that it is named for, under that one's clauses.
ghost use Rattle.layout.specs.Mem.{mem};
ghost use Rattle.document.specs.Union.{merge_from, merge};
ghost use Rattle.contracts.specs.Does.{Joins};
ghost use Rattle.codes.specs.Codes.{Coded, outcome_code};
ghost use Rattle.document.specs.Results.{Outcome};

use codes::answer::DoneAnswer;
use exports::union;

// The destination gets the source's members; the source is only read.
#[unsafe(no_mangle)]
pub extern "C" fn bp_merge_from(
    pages: &mut [u64],
    rows: &mut [u32],
    blocks: &mut [u32],
    table: &mut [u64],
    spages: &[u64],
    srows: &[u32],
    sblocks: &[u32],
    stable: &[u64],
) -> DoneAnswer
    ensures { let x = mem pages.old rows.old blocks.old table.old in
        let y = mem spages.now srows.now sblocks.now stable.now in
        let u = mem pages.new rows.new blocks.new table.new in
        Coded outcome_code (λ (a : Outcome). Joins x y merge_from a u y) result }
{
    union::bp_merge_from(pages, rows, blocks, table, spages, srows, sblocks, stable)
}

// The same, and then the source is empty and open.
#[unsafe(no_mangle)]
pub extern "C" fn bp_merge(
    pages: &mut [u64],
    rows: &mut [u32],
    blocks: &mut [u32],
    table: &mut [u64],
    spages: &mut [u64],
    srows: &mut [u32],
    sblocks: &mut [u32],
    stable: &mut [u64],
) -> DoneAnswer
    ensures { let x = mem pages.old rows.old blocks.old table.old in
        let y = mem spages.old srows.old sblocks.old stable.old in
        let u = mem pages.new rows.new blocks.new table.new in
        let v = mem spages.new srows.new sblocks.new stable.new in
        Coded outcome_code (λ (a : Outcome). Joins x y merge a u v) result }
{
    union::bp_merge(pages, rows, blocks, table, spages, srows, sblocks, stable)
}
