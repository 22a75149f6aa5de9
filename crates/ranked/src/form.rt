// `into_ranked`, and leaving the ranked form.
ghost use Rattle.std.specs.Prelude.{◌≡◌};
ghost use Rattle.layout.specs.Mem.{mem};
ghost use Rattle.layout.specs.Tests.{Walked};
ghost use Rattle.ranks.specs.Form.{to_ranked, to_open};
ghost use Rattle.document.specs.Calls.{rank_up, leave, that};
ghost use Rattle.contracts.specs.Does.{Does};

use crate::mode;
use crate::mode::Form;
use document::refusal::Refusal;
use document::sizes::Sizes;
use layout::head;
use rank_counts::{blocks, prefixes};

// Counts every block, then every entry.
#[tactic(auto, using(crate::proofs::Forms::walked_over, crate::proofs::Forms::walked_places, rank_counts::proofs::Counting::all_told, crate::proofs::Forms::all_counted))]
fn count_all(h: Sizes, pages: &[u64], rows: &[u32], blocks: &mut [u32], table: &mut [u64])
    requires { Walked (mem pages.now rows.now blocks.old table.old) h }
    ensures { let x = mem pages.now rows.now blocks.old table.old in
        mem pages.now rows.now blocks.new table.new ≡ to_ranked h x }
{
    blocks::count_pages(h, pages, blocks);
    let n = prefixes::put_prefixes(h, pages, blocks, table);
    prefixes::mark(table, head::RANKED, n);
}

// Clears what ranking counted.
#[tactic(auto, using(crate::proofs::Forms::walked_over, layout_writes::proofs::Fills::front_zeroed, crate::proofs::Forms::all_cleared))]
fn clear_all(h: Sizes, pages: &[u64], rows: &[u32], blocks: &mut [u32], table: &mut [u64])
    requires { Walked (mem pages.now rows.now blocks.old table.old) h }
    ensures { let x = mem pages.now rows.now blocks.old table.old in
        mem pages.now rows.now blocks.new table.new ≡ to_open h x }
{
    blocks[..head::block_at(h, h.p) as usize].fill(0);
    prefixes::clear_prefixes(h, table);
    prefixes::mark(table, head::OPEN, 0);
}

// An open set becomes a ranked one.
pub fn into_ranked(
    pages: &[u64],
    rows: &[u32],
    blocks: &mut [u32],
    table: &mut [u64],
) -> Result<(), Refusal>
    ensures { let x = mem pages.now rows.now blocks.old table.old in
        let y = mem pages.now rows.now blocks.new table.new in
        Does x rank_up (that result) y }
{
    match mode::form_of(pages, rows, blocks, table)? {
        Form::Ranked => Err(Refusal::IsRanked),
        Form::Open => {
            count_all(head::read(table), pages, rows, blocks, table);
            Ok(())
        }
    }
}

// A ranked set becomes an open one.
pub fn into_open(
    pages: &[u64],
    rows: &[u32],
    blocks: &mut [u32],
    table: &mut [u64],
) -> Result<(), Refusal>
    ensures { let x = mem pages.now rows.now blocks.old table.old in
        let y = mem pages.now rows.now blocks.new table.new in
        Does x leave (that result) y }
{
    match mode::form_of(pages, rows, blocks, table)? {
        Form::Open => Err(Refusal::IsOpen),
        Form::Ranked => {
            clear_all(head::read(table), pages, rows, blocks, table);
            Ok(())
        }
    }
}
