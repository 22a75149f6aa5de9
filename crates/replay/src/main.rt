// Replays calls: one a line from standard input, one answer a line to standard output (docs/REPLAY.md).
#![tactic(auto)]

mod call;
mod many;
mod marks;
mod partition;

use exports::{number, read};
use lines::words;
use replies::input::Input;
use replies::memory::Pools;
use replies::say::Id;
use replies::told::Told;
use replies::verb::Verb;
use replies::{say, verb};
use std::io;
use std::io::{Stdout, Write};

// `slots b`
fn slots(line: &[u8]) -> u64 {
    number::bp_slots_for_budget(words::number_or(line, 1, 0))
}

// `bounded claim length perbyte`
fn bounded(line: &[u8]) -> i64 {
    let claim = words::id_or(line, 1, 0);
    let length = words::number_or(line, 2, 0);
    let per = words::number_or(line, 3, 0);
    number::bp_file_bounded_max_id(claim, length, per)
}

// `check K`
fn check(set: &Pools) -> &'static str {
    if read::bp_check(&set.pages, &set.rows, &set.blocks, &set.table) {
        "yes"
    } else {
        "no"
    }
}

// A call on a set, and maybe on the other.
fn on(
    out: &mut Stdout,
    verb: Verb,
    line: &[u8],
    set: &mut Pools,
    other: &mut Pools,
) -> io::Result<()> {
    match verb {
        Verb::Change(v) => write!(out, "{}", call::change(v, line, set)),
        Verb::Ask(v) => write!(out, "{}", call::ask(v, line, set)),
        Verb::Join(v) => write!(out, "{}", call::join(v, set, other)),
        Verb::Cut(v) => partition::call(out, v, line, &set.bounds),
        Verb::Check => writeln!(out, "{}", check(set)),
        Verb::Dump => set.dump(out),
        Verb::Poke => write!(out, "{}", set.poke(line)),
        Verb::Plan => partition::plan(out, line, set),
        Verb::Iter => many::iter(out, line, set),
        Verb::Mark => marks::mark(out, line, set),
        Verb::Meet => marks::meet(out, line, &set.bounds),
        Verb::GetAll => many::get(out, line, set),
        Verb::RankAll => many::rank(out, line, set),
        Verb::RankIfAll => many::rank_if(out, line, set),
        Verb::InsertAll => many::insert(out, line, set),
        Verb::Slots => writeln!(out, "{}", slots(line)),
        Verb::Bounded => writeln!(out, "{}", Id(bounded(line))),
    }
}

// A line. Where it names a set, that is word 1.
fn answer(out: &mut Stdout, line: &[u8], first: &mut Pools, second: &mut Pools) -> io::Result<()> {
    let Some(verb) = verb::of(line) else {
        return write!(out, "{}", Told::NoCall);
    };
    if words::number_or(line, 1, 0) == 0 {
        on(out, verb, line, first, second)
    } else {
        on(out, verb, line, second, first)
    }
}

fn main(rt: HostRuntime) -> io::Result<()> {
    let mut input = Input::new(rt.stdin());
    let mut out = rt.stdout();
    let mut first = Pools::new();
    let mut second = Pools::new();
    // a proved loop has to end: this many lines no run has
    for _ in 0..u64::MAX {
        if !input.next()? {
            break;
        }
        answer(&mut out, input.line(), &mut first, &mut second)?;
    }
    Ok(())
}
