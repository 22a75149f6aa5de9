// The input, part by part: each id goes into the set as its line ends.
ghost use Rattle.std.specs.Prelude.{◌≡◌};
ghost use Rattle.layout.specs.Mem.{mem};
ghost use Rattle.layout.specs.SetUp.{set_up_by};
ghost use Rattle.program.specs.Turns.{run};
ghost use Rattle.program.specs.Reader.{fed, perform, feed, finished};
ghost use Rattle.intake.specs.Puts.{sizes, put_by, started};

use idset::setup;
use inserts::insert;
use program::{Act, Fault, Input};

// Before the first byte: an empty set of the program's sizes.
pub fn begin(pages: &mut [u64], rows: &mut [u32], blocks: &mut [u32], table: &mut [u64]) -> Input
    ensures { let x = mem pages.old rows.old blocks.old table.old in
        let y = mem pages.new rows.new blocks.new table.new in
        fed result y ≡ started (set_up_by sizes x) }
{
    match setup::set_up(12, 64, 16, 16, 32, 16, pages, rows, blocks, table) {
        Ok(()) => program::start(),
        Err(c) => Input::Stopped(Fault::Call(c)),
    }
}

// Does what comes next.
fn perform(
    pages: &mut [u64],
    rows: &mut [u32],
    blocks: &mut [u32],
    table: &mut [u64],
    a: Act,
) -> Input
    ensures { let x = mem pages.old rows.old blocks.old table.old in
        let y = mem pages.new rows.new blocks.new table.new in
        fed result y ≡ perform put_by x a }
{
    match a {
        Act::Go(i) => i,
        Act::Insert(id, n, s) => program::go_on(insert::set(pages, rows, blocks, table, id), n, s),
    }
}

// A part of the input, of any length.
#[tactic(auto, unfolding(program::specs::Reader::feed))]
pub fn take(
    pages: &mut [u64],
    rows: &mut [u32],
    blocks: &mut [u32],
    table: &mut [u64],
    i: Input,
    part: &[u8],
) -> Input
    ensures { let x = mem pages.old rows.old blocks.old table.old in
        let y = mem pages.new rows.new blocks.new table.new in
        fed result y ≡ feed put_by (fed i x) part.now }
{
    let mut at = i;
    for b in part {
        at = perform(pages, rows, blocks, table, program::byte(at, *b));
    }
    at
}

// The input has ended.
pub fn end(
    pages: &mut [u64],
    rows: &mut [u32],
    blocks: &mut [u32],
    table: &mut [u64],
    i: Input,
) -> Result<u64, Fault>
    ensures { let x = mem pages.old rows.old blocks.old table.old in
        let y = mem pages.new rows.new blocks.new table.new in
        run result y ≡ finished put_by (fed i x) }
{
    program::settle(perform(pages, rows, blocks, table, program::no_byte(i)))
}
