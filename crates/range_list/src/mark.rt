// What the marks by range test go by: the walk, and the test of one record's ends.
ghost use Rattle.std.specs.Prelude.{◌≡◌};
ghost use Rattle.layout.specs.Mem.{mem};
ghost use Rattle.range_list.specs.Marks.{hit_by, range_answer};

use document::refusal::Refusal;
use layout_walk::walk;
use scan::range;

// 3 where the walk finds the table wrong. After it no range test is refused.
pub fn walked(pages: &[u64], rows: &[u32], blocks: &[u32], table: &[u64]) -> Result<(), Refusal>
    ensures { result ≡ range_answer (mem pages.now rows.now blocks.now table.now) }
{
    if walk::walk(pages, rows, blocks, table) {
        Ok(())
    } else {
        Err(Refusal::NotLaidOut)
    }
}

// Whether a member lies in low to high. A refusal is read as no: after the walk there is none.
pub fn hit(low: i64, high: i64, pages: &[u64], rows: &[u32], blocks: &[u32], table: &[u64]) -> bool
    ensures { result ≡ hit_by (mem pages.now rows.now blocks.now table.now) low high }
{
    range::any_in_range(pages, rows, blocks, table, low, high).unwrap_or(false)
}
