// What the program says once its input has ended: a plan of the set, or the first fault met.
#![tactic(auto)]

ghost use Rattle.std.specs.Prelude.{◌≡◌};
ghost use Rattle.layout.specs.Mem.{mem};
ghost use Rattle.program.specs.Reader.{fed, finished};
ghost use Rattle.intake.specs.Puts.{put_by};
ghost use Rattle.planner.specs.Tells.{spoken, run_said};

use cuts::planning;
use document::plan::Plan;
use intake::input;
use program::{Fault, Input};
use ranked::form;

// The input has ended. Planning, for partitions of at most S members, comes last, of the set once it is ranked; only the first fault is told.
pub fn tell(
    pages: &mut [u64],
    rows: &mut [u32],
    blocks: &mut [u32],
    table: &mut [u64],
    i: Input,
    bounds: &mut [i64],
) -> Result<Plan, Fault>
    ensures { let x = mem pages.old rows.old blocks.old table.old in
        let y = mem pages.new rows.new blocks.new table.new in
        spoken result y bounds.new ≡ run_said (finished put_by (fed i x)) bounds.old }
{
    let s = input::end(pages, rows, blocks, table, i)?;
    form::into_ranked(pages, rows, blocks, table)?;
    Ok(planning::plan(pages, rows, blocks, table, s, bounds)?)
}
