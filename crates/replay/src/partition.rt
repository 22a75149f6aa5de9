// Plans, and the calls on a partition: number k, word 6, of the record that words 2 to 4 are, with as many of a set's boundaries as word 5 says.
use exports::partition;
use lines::words;
use replies::memory::Pools;
use replies::told::Told;
use replies::verb::Cut;
use replies::{say, verb};
use std::io;
use std::io::{Stdout, Write};

// `plan K S room`
pub fn plan(out: &mut Stdout, line: &[u8], set: &mut Pools) -> io::Result<()> {
    let s = words::number_or(line, 2, 0);
    let room = verb::up_to(line, 3, 256);
    let Pools {
        pages,
        rows,
        blocks,
        table,
        bounds,
    } = set;
    let a = partition::bp_plan(pages, rows, blocks, table, s, &mut bounds[..room]);
    say::plan(out, a, bounds)
}

// `part K total S n room k`, `in .. k id` and `meets .. k min max`
pub fn call(out: &mut Stdout, v: Cut, line: &[u8], bounds: &[i64]) -> io::Result<()> {
    let [total, slots, partitions, _, k, _] = verb::numbers(line);
    let room = verb::up_to(line, 5, bounds.len());
    let i = partition::bp_ids(total, slots, partitions, &bounds[..room], k);
    if i.refusal != 0 {
        return write!(out, "{}", Told::Refused(i.refusal));
    }
    let min = words::id_or(line, 7, 0);
    let max = words::id_or(line, 8, 0);
    match v {
        Cut::Part => say::part(out, i, partition::bp_ranks(total, slots, partitions, k)),
        Cut::In => writeln!(
            out,
            "{}",
            partition::bp_in_partition(min, i.has_high, i.low, i.high)
        ),
        Cut::Meets => writeln!(
            out,
            "{}",
            partition::bp_range_meets(min, max, i.has_high, i.low, i.high)
        ),
    }
}
