// The full check: whether memory follows the layout.
#![tactic(auto)]

mod blocks;
mod counts;
mod pages;
mod rows;

ghost use Rattle.std.specs.Prelude.{◌≡◌, Ok};
ghost use Rattle.layout.specs.Mem.{mem};
ghost use Rattle.layout.specs.Tests.{Walked};
ghost use Rattle.document.specs.Calls.{check, whether};
ghost use Rattle.contracts.specs.Does.{Answers};
ghost use Rattle.fullcheck.specs.Check.{rest_is};

use document::sizes::Sizes;
use layout::head;
use layout_walk::walk;

// What the walk over the table leaves of the rule. Block counts come first: where they are right, members are read from them, and no word is counted twice.
#[tactic(auto, unfolding(crate::specs::Check::rest_is))]
fn rest_is(pages: &[u64], rows: &[u32], blocks: &[u32], table: &[u64], h: Sizes) -> bool
    requires { Walked (mem pages.now rows.now blocks.now table.now) h }
    ensures { result ≡ rest_is h (mem pages.now rows.now blocks.now table.now) }
{
    if !blocks::blocks_are(pages, blocks, table, h) {
        return false;
    }
    rows::rows_are(rows, table, h)
        & pages::free_pages(pages, table, h)
        & counts::ranks_are(pages, blocks, table, h)
}

// Yes exactly when memory follows the layout.
pub fn check(pages: &[u64], rows: &[u32], blocks: &[u32], table: &[u64]) -> bool
    ensures { let x = mem pages.now rows.now blocks.now table.now in Answers x check (whether (Ok result)) }
{
    walk::walk(pages, rows, blocks, table) && rest_is(pages, rows, blocks, table, head::read(table))
}
