// Boundary search: the interval of candidate ids is narrowed until one is left.
ghost use Rattle.std.specs.Prelude.{◌≡◌, ◌^◌, ◌≤◌, ◌<◌, pos};
ghost use Rattle.layout.specs.Mem.{mem};
ghost use Rattle.ranks.specs.Rank.{rank_in};
ghost use Rattle.cuts.specs.Plan.{narrowed, Ready, boundary_by};

use numbers::id;
use ranked::rank;

// The rank of id n: after the walk none is refused.
fn rank_of(pages: &[u64], rows: &[u32], blocks: &[u32], table: &[u64], n: u64) -> u64
    requires { Ready (mem pages.now rows.now blocks.now table.now) × (n < 2 ^ 63) }
    ensures { result ≡ rank_in (mem pages.now rows.now blocks.now table.now) n }
{
    rank::rank(pages, rows, blocks, table, id::signed(n)).unwrap()
}

// The smallest id from lo to hi whose rank is at least the target. A recursion, and no loop: its contract is the whole of what a loop would have to keep.
#[tactic(auto, using(crate::proofs::Narrowing::narrowed_end, crate::proofs::Narrowing::step_low, crate::proofs::Narrowing::step_high))]
fn narrow(
    pages: &[u64],
    rows: &[u32],
    blocks: &[u32],
    table: &[u64],
    target: u64,
    lo: u64,
    hi: u64,
) -> u64
    requires { Ready (mem pages.now rows.now blocks.now table.now) × (lo ≤ hi) × (hi < 2 ^ 63) }
    ensures { result ≡ narrowed (rank_in (mem pages.now rows.now blocks.now table.now)) target lo hi }
{
    if hi <= lo {
        return lo;
    }
    let mid = lo + (hi - lo) / 2;
    if target <= rank_of(pages, rows, blocks, table, mid) {
        return narrow(pages, rows, blocks, table, target, lo, mid);
    }
    narrow(pages, rows, blocks, table, target, mid + 1, hi)
}

// The smallest id of 0 or more whose rank is at least the target.
#[tactic(auto, using(numbers::proofs::Signs::signed_hop, crate::proofs::Boundaries::boundary_below), unfolding(crate::specs::Plan::boundary_by))]
pub fn boundary(pages: &[u64], rows: &[u32], blocks: &[u32], table: &[u64], target: u64) -> i64
    requires { Ready (mem pages.now rows.now blocks.now table.now) }
    ensures { result ≡ pos (boundary_by (mem pages.now rows.now blocks.now table.now) target) }
{
    id::signed(narrow(pages, rows, blocks, table, target, 0, id::LARGEST))
}
