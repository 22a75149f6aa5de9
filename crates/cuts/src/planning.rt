// Planning: boundaries go to a lent slice; total, slots and partitions come back as a record.
ghost use Rattle.std.specs.Prelude.{◌≡◌, ◌*◌, ◌^◌, ◌<◌};
ghost use Rattle.sums.specs.Cuts.{size};
ghost use Rattle.layout.specs.Mem.{mem};
ghost use Rattle.cuts.specs.Plan.{Ready, bounds_to};
ghost use Rattle.cuts.specs.Promise.{Plans};

use crate::search;
use document::plan::Plan;
use document::refusal::Refusal;
use intervals::round;
use layout::head;
use layout_walk::walk;
use numbers::element;

// Boundaries 1 to n.
#[tactic(auto, using(crate::proofs::Plans::bounds_zero, crate::proofs::Plans::bounds_turn))]
fn fill(
    pages: &[u64],
    rows: &[u32],
    blocks: &[u32],
    table: &[u64],
    slots: u64,
    n: u64,
    bounds: &mut [i64],
)
    requires { Ready (mem pages.now rows.now blocks.now table.now) × (n * size slots < 2 ^ 64) }
    ensures { let x = mem pages.now rows.now blocks.now table.now in
        bounds.new ≡ bounds_to x slots bounds.old n }
{
    let size = slots.max(1);
    for k in 0..n {
        let b = search::boundary(pages, rows, blocks, table, (k + 1) * size);
        element::put(bounds, k, b);
    }
}

// Cuts a ranked set into partitions of at most so many slots. Nothing is written before it is known that all of it will be.
pub fn plan(
    pages: &[u64],
    rows: &[u32],
    blocks: &[u32],
    table: &[u64],
    slots: u64,
    bounds: &mut [i64],
) -> Result<Plan, Refusal>
    ensures { let x = mem pages.now rows.now blocks.now table.now in
        Plans x slots bounds.old result bounds.new }
{
    if !walk::walk(pages, rows, blocks, table) {
        return Err(Refusal::NotLaidOut);
    }
    if head::mode(table) != head::RANKED {
        return Err(Refusal::IsOpen);
    }
    let total = head::total(table);
    let n = round::parts(total, slots);
    if (bounds.len() as u64) < n - 1 {
        return Err(Refusal::NoRoom);
    }
    fill(pages, rows, blocks, table, slots, n - 1, bounds);
    Ok(Plan {
        total,
        slots: slots.max(1),
        partitions: n,
    })
}
