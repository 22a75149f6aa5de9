// What a union answers, before anything is written.
ghost use Rattle.std.specs.Prelude.{◌≡◌, cond};
ghost use Rattle.document.specs.Union.{merge_from, merge};
ghost use Rattle.layout.specs.Mem.{Mem, mem};
ghost use Rattle.layout.specs.Sizes.{header_at};
ghost use Rattle.unions.specs.Union.{union_plan};
ghost use Rattle.merge_plan.specs.Judging.{Passed, OnAny};
ghost use Rattle.merge_plan.specs.Planning.{plan_walked};

use crate::judge;
use document::refusal::Refusal;
use layout::head;
use layout_walk::walk;

// Past the walks: 4, then 10, then 6, 7, 8.
#[tactic(auto, unfolding(crate::specs::Planning::plan_walked))]
fn plan_walked(
    rows: &[u32],
    table: &[u64],
    srows: &[u32],
    stable: &[u64],
    both: bool,
) -> Result<(), Refusal>
    requires { Passed (header_at table.now) rows.now table.now × Passed (header_at stable.now) srows.now stable.now }
    ensures { OnAny rows.now table.now srows.now stable.now
        (λ (x y : Mem). result ≡ plan_walked x y (cond both merge merge_from)) }
{
    if (head::mode(table) == head::RANKED) | (both & (head::mode(stable) == head::RANKED)) {
        return Err(Refusal::IsRanked);
    }
    let h = head::read(table);
    let g = head::read(stable);
    if (h.s != g.s) | (h.m != g.m) {
        return Err(Refusal::SizesDiffer);
    }
    judge::judge(rows, table, h, srows, stable, g)
}

// 3 by the destination's walk, then by the source's, then the rest. With `both` it is `merge`, which a ranked source bars too.
#[tactic(auto, unfolding(unions::specs::Union::union_plan, crate::specs::Planning::plan_walked))]
pub fn union_plan(
    pages: &[u64],
    rows: &[u32],
    blocks: &[u32],
    table: &[u64],
    spages: &[u64],
    srows: &[u32],
    sblocks: &[u32],
    stable: &[u64],
    both: bool,
) -> Result<(), Refusal>
    ensures { let x = mem pages.now rows.now blocks.now table.now in
        let y = mem spages.now srows.now sblocks.now stable.now in
        result ≡ union_plan x y (cond both merge merge_from) }
{
    if !walk::walk(pages, rows, blocks, table) || !walk::walk(spages, srows, sblocks, stable) {
        return Err(Refusal::NotLaidOut);
    }
    plan_walked(rows, table, srows, stable, both)
}
