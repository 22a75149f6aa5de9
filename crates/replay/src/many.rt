// Calls whose answers are lists: `iter`, and `getall`, `rankall`, `rankifall` and `insertall`, on the one to eight ids that a line ends in.
ghost use Rattle.std.specs.Prelude.{◌≤◌};

use exports::{list, read};
use lines::words;
use replies::memory::Pools;
use replies::say;
use std::io::Stdout;
use std::{array, io};

// The ids, from word 2 on.
fn ids(line: &[u8]) -> [i64; 8] {
    array::from_fn(|i| words::id_or(line, i as u64 + 2, 0))
}

// How many there are.
fn many(line: &[u8]) -> usize
    ensures { result ≤ 8 }
{
    words::count(line).saturating_sub(2).min(8) as usize
}

// `iter K start`
pub fn iter(out: &mut Stdout, line: &[u8], set: &Pools) -> io::Result<()> {
    let start = words::id_or(line, 2, 0);
    say::listing(
        out,
        read::bp_iter_from(&set.pages, &set.rows, &set.blocks, &set.table, start),
    )
}

// `getall K id id ..`. Answers begin as neither, so that one that isn't written shows.
pub fn get(out: &mut Stdout, line: &[u8], set: &Pools) -> io::Result<()> {
    let n = many(line);
    let mut answers = [7u8; 8];
    let a = list::bp_get_all(
        &ids(line)[..n],
        &mut answers,
        &set.pages,
        &set.rows,
        &set.blocks,
        &set.table,
    );
    say::numbers(out, a, &answers[..n])
}

// `rankall K id id ..`
pub fn rank(out: &mut Stdout, line: &[u8], set: &Pools) -> io::Result<()> {
    let n = many(line);
    let mut answers = [7u64; 8];
    let a = list::bp_rank_all(
        &ids(line)[..n],
        &mut answers,
        &set.pages,
        &set.rows,
        &set.blocks,
        &set.table,
    );
    say::numbers(out, a, &answers[..n])
}

// `rankifall K id id ..`
pub fn rank_if(out: &mut Stdout, line: &[u8], set: &Pools) -> io::Result<()> {
    let n = many(line);
    let mut answers = [7u64; 8];
    let a = list::bp_rank_if_set_all(
        &ids(line)[..n],
        &mut answers,
        &set.pages,
        &set.rows,
        &set.blocks,
        &set.table,
    );
    say::numbers(out, a, &answers[..n])
}

// `insertall K id id ..`
pub fn insert(out: &mut Stdout, line: &[u8], set: &mut Pools) -> io::Result<()> {
    let n = many(line);
    let Pools {
        pages,
        rows,
        blocks,
        table,
        ..
    } = set;
    say::inserted(
        out,
        list::bp_insert_all(&ids(line)[..n], pages, rows, blocks, table),
    )
}
