// The intervals of a plan and its boundaries, and what lies in them. Both come from the caller: they are tested before they are used.
ghost use Rattle.std.specs.Prelude.{◌≡◌};
ghost use Rattle.document.specs.Spans.{in_partition, record_ok, plan_ok, low_at, ids_answer, ranks_answer, range_meets};

use crate::round;
use document::plan::{Plan, Ranks, Span};
use document::refusal::Refusal;
use numbers::{element, id};

// How many partitions a plan has.
pub fn partitions(p: Plan) -> u64
    ensures { result ≡ p.partitions }
{
    p.partitions
}

// Slots are not 0, and the number of partitions is that of the total.
fn record_ok(p: Plan) -> bool
    ensures { result ≡ record_ok p }
{
    (p.slots != 0) & (p.partitions == round::parts(p.total, p.slots))
}

// And the boundaries are as many as it needs.
fn plan_ok(p: Plan, bounds: &[i64]) -> bool
    ensures { result ≡ plan_ok p bounds.now }
{
    record_ok(p) & (p.partitions.saturating_sub(1) <= bounds.len() as u64)
}

// Partition k's low end: partition 0 begins at the smallest i64.
fn low(bounds: &[i64], k: u64) -> i64
    ensures { result ≡ low_at bounds.now k }
{
    if k == 0 {
        return id::SMALLEST;
    }
    element::at(bounds, k - 1, 0)
}

// Partition k's interval of ids.
#[tactic(auto, unfolding(document::specs::Spans::ids_answer))]
pub fn ids(p: Plan, bounds: &[i64], k: u64) -> Result<Span, Refusal>
    ensures { result ≡ ids_answer p bounds.now k }
{
    if !plan_ok(p, bounds) {
        return Err(Refusal::NotLaidOut);
    }
    if p.partitions <= k {
        return Err(Refusal::NoPartition);
    }
    let lo = low(bounds, k);
    if k + 1 < p.partitions {
        let hi = element::at(bounds, k, 0);
        return Ok(Span::Between(lo, hi));
    }
    Ok(Span::From(lo))
}

// Partition k's first rank and how many members it holds.
#[tactic(auto, unfolding(document::specs::Spans::ranks_answer))]
pub fn ranks(p: Plan, k: u64) -> Result<Ranks, Refusal>
    ensures { result ≡ ranks_answer p k }
{
    if !record_ok(p) {
        return Err(Refusal::NotLaidOut);
    }
    if p.partitions <= k {
        return Err(Refusal::NoPartition);
    }
    let first = k * p.slots;
    let count = p.slots.min(p.total - first);
    Ok(Ranks { first, count })
}

// Whether an id lies in an interval.
pub fn in_partition(id: i64, i: Span) -> bool
    ensures { result ≡ in_partition id i }
{
    match i {
        Span::Between(lo, hi) => (lo <= id) & (id < hi),
        Span::From(lo) => lo <= id,
    }
}

// Whether a range of ids, both ends included, meets an interval.
pub fn range_meets(min: i64, max: i64, i: Span) -> bool
    ensures { result ≡ range_meets min max i }
{
    match i {
        Span::Between(lo, hi) => (lo <= max) & (min < hi),
        Span::From(lo) => lo <= max,
    }
}
