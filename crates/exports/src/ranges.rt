// The range list, as slices of lows, highs and marks of 0 or 1. Answer and marks after are those of the call that each wraps.
ghost use Rattle.layout.specs.Mem.{mem};
ghost use Rattle.document.specs.Spans.{ids_answer};
ghost use Rattle.range_list.specs.Marks.{EndsByRange, EndsByPartition};
ghost use Rattle.codes.specs.Codes.{Coded, outcome_code, plan_in};
ghost use Rattle.document.specs.Results.{Outcome};

use codes::answer::DoneAnswer;
use document::plan::Plan;
use range_list::ends;

// Sets each mark by a range test of the set.
#[unsafe(no_mangle)]
pub extern "C" fn bp_mark_ends_by_range(
    lows: &[i64],
    highs: &[i64],
    marks: &mut [u8],
    pages: &[u64],
    rows: &[u32],
    blocks: &[u32],
    table: &[u64],
) -> DoneAnswer
    ensures { let x = mem pages.now rows.now blocks.now table.now in
        Coded outcome_code (λ (a : Outcome). EndsByRange x lows.now highs.now marks.old a marks.new) result }
{
    DoneAnswer::from(ends::mark_ends_by_range(lows, highs, marks, pages, rows, blocks, table))
}

// Sets each mark as `range_meets` answers of partition k.
#[unsafe(no_mangle)]
pub extern "C" fn bp_mark_ends_by_partition(
    lows: &[i64],
    highs: &[i64],
    marks: &mut [u8],
    total: u64,
    slots: u64,
    partitions: u64,
    bounds: &[i64],
    k: u64,
) -> DoneAnswer
    ensures { let i = ids_answer (plan_in total slots partitions) bounds.now k in
        Coded outcome_code (λ (a : Outcome). EndsByPartition i lows.now highs.now marks.old a marks.new) result }
{
    let p = Plan {
        total,
        slots,
        partitions,
    };
    DoneAnswer::from(ends::mark_ends_by_partition(lows, highs, marks, p, bounds, k))
}
