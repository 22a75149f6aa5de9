// Marks of a range list that stands in three lent slices, of lows, highs and marks of 0 or 1: as many records as the shortest has.
// C has these, since a slice of records can't be exported.
ghost use Rattle.std.specs.Prelude.{◌≡◌, ℤ, Bool};
ghost use Rattle.document.specs.RangeList.{marks_in};
ghost use Rattle.document.specs.Spans.{ids_answer};
ghost use Rattle.layout.specs.Mem.{mem};
ghost use Rattle.range_list.specs.Marks.{Tells, EndsByRange, EndsByPartition};

use crate::mark;
use document::plan::Plan;
use document::refusal::Refusal;
use intervals::interval;

// Sets each mark by a test of the record's ends.
fn mark_by<F: Fn(i64, i64) -> bool>(lows: &[i64], highs: &[i64], marks: &mut [u8], test: F)
    requires { F.IsAlwaysCallable test }
    ensures { (f : ℤ → ℤ → Bool) → Tells (F.post test) f → marks.new ≡ marks_in f lows.now highs.now marks.old }
{
    let n = lows.len().min(highs.len()).min(marks.len());
    // By index: what is written through a `zip` of `iter_mut` is not known to a proof.
    for i in 0..n {
        marks[i] = test(lows[i], highs[i]) as u8;
    }
}

// Sets each mark by a range test of the set.
pub fn mark_ends_by_range(
    lows: &[i64],
    highs: &[i64],
    marks: &mut [u8],
    pages: &[u64],
    rows: &[u32],
    blocks: &[u32],
    table: &[u64],
) -> Result<(), Refusal>
    ensures { let x = mem pages.now rows.now blocks.now table.now in
        EndsByRange x lows.now highs.now marks.old result marks.new }
{
    mark::walked(pages, rows, blocks, table)?;
    mark_by(
        lows,
        highs,
        marks,
        |low, high| mark::hit(low, high, pages, rows, blocks, table),
    );
    Ok(())
}

// Sets each mark as `range_meets` answers of partition k.
pub fn mark_ends_by_partition(
    lows: &[i64],
    highs: &[i64],
    marks: &mut [u8],
    p: Plan,
    bounds: &[i64],
    k: u64,
) -> Result<(), Refusal>
    ensures { EndsByPartition (ids_answer p bounds.now k)
        lows.now highs.now marks.old result marks.new }
{
    let span = interval::ids(p, bounds, k)?;
    mark_by(
        lows,
        highs,
        marks,
        |low, high| interval::range_meets(low, high, span),
    );
    Ok(())
}
