// A plan's answers for C: one conversion for each kind of answer gives document 01's number and values, case by case.
ghost use Rattle.std.specs.Prelude.{◌≡◌};
ghost use Rattle.codes.specs.Codes.{planning_code, spanned_code, ranks_code};

use document::plan::{Plan, Ranks, Span};
use document::refusal::Refusal;

// The plan that was made.
#[repr(C)]
#[derive(Clone, Copy)]
pub struct PlanAnswer {
    pub refusal: u64,
    pub total: u64,
    pub slots: u64,
    pub partitions: u64,
}

// From low up to high, excluded, where there is a high end: else from low on, and high is 0.
#[repr(C)]
#[derive(Clone, Copy)]
pub struct IntervalAnswer {
    pub refusal: u64,
    pub has_high: bool,
    pub low: i64,
    pub high: i64,
}

// First rank and count.
#[repr(C)]
#[derive(Clone, Copy)]
pub struct RanksAnswer {
    pub refusal: u64,
    pub first: u64,
    pub count: u64,
}

impl From<Result<Plan, Refusal>> for PlanAnswer {
    ghost from_gives = { λ a r. r ≡ planning_code a };

    fn from(a: Result<Plan, Refusal>) -> PlanAnswer {
        match a {
            Ok(p) => PlanAnswer {
                refusal: 0,
                total: p.total,
                slots: p.slots,
                partitions: p.partitions,
            },
            Err(n) => PlanAnswer {
                refusal: n.number(),
                total: 0,
                slots: 0,
                partitions: 0,
            },
        }
    }
}

impl From<Result<Span, Refusal>> for IntervalAnswer {
    ghost from_gives = { λ a r. r ≡ spanned_code a };

    fn from(a: Result<Span, Refusal>) -> IntervalAnswer {
        match a {
            Ok(Span::Between(low, high)) => IntervalAnswer {
                refusal: 0,
                has_high: true,
                low,
                high,
            },
            Ok(Span::From(low)) => IntervalAnswer {
                refusal: 0,
                has_high: false,
                low,
                high: 0,
            },
            Err(n) => IntervalAnswer {
                refusal: n.number(),
                has_high: false,
                low: 0,
                high: 0,
            },
        }
    }
}

impl From<Result<Ranks, Refusal>> for RanksAnswer {
    ghost from_gives = { λ a r. r ≡ ranks_code a };

    fn from(a: Result<Ranks, Refusal>) -> RanksAnswer {
        match a {
            Ok(k) => RanksAnswer {
                refusal: 0,
                first: k.first,
                count: k.count,
            },
            Err(n) => RanksAnswer {
                refusal: n.number(),
                first: 0,
                count: 0,
            },
        }
    }
}
