// Marks of a lent list of records: low and high stay.
ghost use Rattle.std.specs.Prelude.{◌≡◌, ℤ, Bool};
ghost use Rattle.document.specs.RangeList.{marks};
ghost use Rattle.document.specs.Spans.{ids_answer};
ghost use Rattle.layout.specs.Mem.{mem};
ghost use Rattle.range_list.specs.Marks.{Tells, MarksByRange, MarksByPartition};

use crate::mark;
use document::plan::Plan;
use document::range::Range;
use document::refusal::Refusal;
use intervals::interval;

// Sets each mark by a test of the record's ends.
fn mark_by<F: Fn(i64, i64) -> bool>(list: &mut [Range], test: F)
    requires { F.IsAlwaysCallable test }
    ensures { (f : ℤ → ℤ → Bool) → Tells (F.post test) f → list.new ≡ marks f list.old }
{
    for r in list.iter_mut() {
        r.mark = test(r.low, r.high);
    }
}

// Sets each mark by a range test of the set.
pub fn mark_by_range(
    list: &mut [Range],
    pages: &[u64],
    rows: &[u32],
    blocks: &[u32],
    table: &[u64],
) -> Result<(), Refusal>
    ensures { let x = mem pages.now rows.now blocks.now table.now in
        MarksByRange x list.old result list.new }
{
    mark::walked(pages, rows, blocks, table)?;
    mark_by(
        list,
        |low, high| mark::hit(low, high, pages, rows, blocks, table),
    );
    Ok(())
}

// Sets each mark as `range_meets` answers of partition k.
pub fn mark_by_partition(list: &mut [Range], p: Plan, bounds: &[i64], k: u64) -> Result<(), Refusal>
    ensures { MarksByPartition (ids_answer p bounds.now k) list.old result list.new }
{
    let span = interval::ids(p, bounds, k)?;
    mark_by(list, |low, high| interval::range_meets(low, high, span));
    Ok(())
}
