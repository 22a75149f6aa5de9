// The plan, for C: each calls the entry of exports that it is named for, under that one's clauses.
ghost use Rattle.std.specs.Prelude.{◌≡◌};
ghost use Rattle.layout.specs.Mem.{mem};
ghost use Rattle.document.specs.Spans.{in_partition, ids_answer, ranks_answer, range_meets};
ghost use Rattle.cuts.specs.Promise.{Plans};
ghost use Rattle.codes.specs.Codes.{Coded, planning_code, spanned_code, ranks_code, plan_in, span_in};
ghost use Rattle.document.specs.Results.{Planning};

use codes::cut::{IntervalAnswer, PlanAnswer, RanksAnswer};
use exports::partition;

// Cuts a ranked set into partitions of at most so many slots: boundaries to the lent slice.
#[unsafe(no_mangle)]
pub extern "C" fn bp_plan(
    pages: &[u64],
    rows: &[u32],
    blocks: &[u32],
    table: &[u64],
    slots: u64,
    bounds: &mut [i64],
) -> PlanAnswer
    ensures { let x = mem pages.now rows.now blocks.now table.now in
        Coded planning_code (λ (a : Planning). Plans x slots bounds.old a bounds.new) result }
{
    partition::bp_plan(pages, rows, blocks, table, slots, bounds)
}

// Partition k's interval of ids.
#[unsafe(no_mangle)]
pub extern "C" fn bp_ids(
    total: u64,
    slots: u64,
    partitions: u64,
    bounds: &[i64],
    k: u64,
) -> IntervalAnswer
    ensures { result ≡ spanned_code (ids_answer (plan_in total slots partitions) bounds.now k) }
{
    partition::bp_ids(total, slots, partitions, bounds, k)
}

// Partition k's first rank and how many members it holds.
#[unsafe(no_mangle)]
pub extern "C" fn bp_ranks(total: u64, slots: u64, partitions: u64, k: u64) -> RanksAnswer
    ensures { result ≡ ranks_code (ranks_answer (plan_in total slots partitions) k) }
{
    partition::bp_ranks(total, slots, partitions, k)
}

// Whether an id lies in an interval.
#[unsafe(no_mangle)]
pub extern "C" fn bp_in_partition(id: i64, has_high: bool, low: i64, high: i64) -> bool
    ensures { result ≡ in_partition id (span_in has_high low high) }
{
    partition::bp_in_partition(id, has_high, low, high)
}

// Whether a range of ids, both ends included, meets an interval.
#[unsafe(no_mangle)]
pub extern "C" fn bp_range_meets(min: i64, max: i64, has_high: bool, low: i64, high: i64) -> bool
    ensures { result ≡ range_meets min max (span_in has_high low high) }
{
    partition::bp_range_meets(min, max, has_high, low, high)
}
