// The plan: boundaries of a ranked set, its partitions, and what lies in them. A plan and an interval come as their numbers.
ghost use Rattle.std.specs.Prelude.{◌≡◌};
ghost use Rattle.layout.specs.Mem.{mem};
ghost use Rattle.document.specs.Spans.{in_partition, ids_answer, ranks_answer, range_meets};
ghost use Rattle.cuts.specs.Promise.{Plans};
ghost use Rattle.codes.specs.Codes.{Coded, planning_code, spanned_code, ranks_code, plan_in, span_in};
ghost use Rattle.document.specs.Results.{Planning};

use codes::cut::{IntervalAnswer, PlanAnswer, RanksAnswer};
use cuts::planning;
use document::plan::{Plan, Span};
use intervals::interval;

// Cuts a ranked set into partitions of at most so many slots: boundaries to the lent slice.
#[unsafe(no_mangle)]
pub extern "C" fn bp_plan(
    pages: &[u64],
    rows: &[u32],
    blocks: &[u32],
    table: &[u64],
    slots: u64,
    bounds: &mut [i64],
) -> PlanAnswer
    ensures { let x = mem pages.now rows.now blocks.now table.now in
        Coded planning_code (λ (a : Planning). Plans x slots bounds.old a bounds.new) result }
{
    PlanAnswer::from(planning::plan(pages, rows, blocks, table, slots, bounds))
}

// A plan from its numbers.
fn plan_of(total: u64, slots: u64, partitions: u64) -> Plan
    ensures { result ≡ plan_in total slots partitions }
{
    Plan {
        total,
        slots,
        partitions,
    }
}

// Partition k's interval of ids.
#[unsafe(no_mangle)]
pub extern "C" fn bp_ids(
    total: u64,
    slots: u64,
    partitions: u64,
    bounds: &[i64],
    k: u64,
) -> IntervalAnswer
    ensures { result ≡ spanned_code (ids_answer (plan_in total slots partitions) bounds.now k) }
{
    IntervalAnswer::from(interval::ids(plan_of(total, slots, partitions), bounds, k))
}

// Partition k's first rank and how many members it holds.
#[unsafe(no_mangle)]
pub extern "C" fn bp_ranks(total: u64, slots: u64, partitions: u64, k: u64) -> RanksAnswer
    ensures { result ≡ ranks_code (ranks_answer (plan_in total slots partitions) k) }
{
    RanksAnswer::from(interval::ranks(plan_of(total, slots, partitions), k))
}

// An interval from its numbers; without a high end the last isn't looked at.
fn span_of(has_high: bool, low: i64, high: i64) -> Span
    ensures { result ≡ span_in has_high low high }
{
    if has_high {
        return Span::Between(low, high);
    }
    Span::From(low)
}

// Whether an id lies in an interval.
#[unsafe(no_mangle)]
pub extern "C" fn bp_in_partition(id: i64, has_high: bool, low: i64, high: i64) -> bool
    ensures { result ≡ in_partition id (span_in has_high low high) }
{
    interval::in_partition(id, span_of(has_high, low, high))
}

// Whether a range of ids, both ends included, meets an interval.
#[unsafe(no_mangle)]
pub extern "C" fn bp_range_meets(min: i64, max: i64, has_high: bool, low: i64, high: i64) -> bool
    ensures { result ≡ range_meets min max (span_in has_high low high) }
{
    interval::range_meets(min, max, span_of(has_high, low, high))
}
