// The range list: `mark` and `meet`, on the one to eight ranges that a line ends in.
ghost use Rattle.std.specs.Prelude.{◌≤◌};

use exports::ranges;
use lines::words;
use replies::memory::Pools;
use replies::{say, verb};
use std::io::Stdout;
use std::{array, io};

// One end of each range: every other word from word j on.
fn ends(line: &[u8], j: u8) -> [i64; 8] {
    array::from_fn(|i| words::id_or(line, u64::from(j) + 2 * i as u64, 0))
}

// How many ranges there are from word j on.
fn many(line: &[u8], j: u8) -> usize
    ensures { result ≤ 8 }
{
    (words::count(line).saturating_sub(u64::from(j)) / 2).min(8) as usize
}

// `mark K low high low high ..`. Marks begin as set, so that one that isn't cleared shows.
pub fn mark(out: &mut Stdout, line: &[u8], set: &Pools) -> io::Result<()> {
    let n = many(line, 2);
    let lows = ends(line, 2);
    let highs = ends(line, 3);
    let mut marks = [1u8; 8];
    let a = ranges::bp_mark_ends_by_range(
        &lows[..n],
        &highs[..n],
        &mut marks,
        &set.pages,
        &set.rows,
        &set.blocks,
        &set.table,
    );
    say::numbers(out, a, &marks[..n])
}

// `meet K total S n room k low high low high ..`
pub fn meet(out: &mut Stdout, line: &[u8], bounds: &[i64]) -> io::Result<()> {
    let n = many(line, 7);
    let lows = ends(line, 7);
    let highs = ends(line, 8);
    let mut marks = [1u8; 8];
    let [total, slots, partitions, _, k, _] = verb::numbers(line);
    let room = verb::up_to(line, 5, bounds.len());
    let a = ranges::bp_mark_ends_by_partition(
        &lows[..n],
        &highs[..n],
        &mut marks,
        total,
        slots,
        partitions,
        &bounds[..room],
        k,
    );
    say::numbers(out, a, &marks[..n])
}
