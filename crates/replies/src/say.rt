// Answers that are more than a word or a number, each as its line.
use crate::told::Told;
use codes::answer::DoneAnswer;
use codes::cut::{IntervalAnswer, PlanAnswer, RanksAnswer};
use document::answer::Listing;
use lines::signs;
use lists::insert::Inserted;
use std::io::{Stdout, Write};
use std::{fmt, io};

// An id: a sign, and its magnitude.
#[derive(Clone, Copy, Debug, PartialEq, Eq)]
pub struct Id(pub i64);

impl fmt::Display for Id {
    fn fmt<W: fmt::Write>(&self, f: &mut fmt::Formatter<W>) -> fmt::Result {
        if self.0 < 0 {
            f.write_str("-")?;
        }
        write!(f, "{}", signs::magnitude(self.0))
    }
}

// The first n ids of some.
fn ids(out: &mut Stdout, c: &[i64], n: u64) -> io::Result<()> {
    for z in c.iter().take(n as usize) {
        write!(out, " {}", Id(*z))?;
    }
    Ok(())
}

// A line of marks, or of ranks, of which 2^64 - 1 stands for none.
pub fn numbers<T: Copy + Into<u64>>(
    out: &mut Stdout,
    a: DoneAnswer,
    answers: &[T],
) -> io::Result<()> {
    if a.refusal != 0 {
        return write!(out, "{}", Told::Refused(a.refusal));
    }
    let mut before = "";
    for x in answers {
        match (*x).into() {
            u64::MAX => write!(out, "{before}none")?,
            n => write!(out, "{before}{n}")?,
        }
        before = " ";
    }
    writeln!(out)
}

// How many ids were taken, how many of them were new, and what refused the next one.
pub fn inserted(out: &mut Stdout, a: Inserted) -> io::Result<()> {
    let Inserted { taken, fresh, stop } = a;
    if stop == 0 {
        writeln!(out, "{taken} {fresh}")
    } else {
        writeln!(out, "{taken} {fresh} refused {stop}")
    }
}

// A record of iteration: count, end mark, next start, ids.
pub fn listing(out: &mut Stdout, a: Listing) -> io::Result<()> {
    if a.refusal != 0 {
        return write!(out, "{}", Told::Refused(a.refusal));
    }
    write!(out, "{} {} {}", a.count, a.end, Id(a.next))?;
    ids(out, &a.ids, a.count)?;
    writeln!(out)
}

// A record, and its boundaries, one less than the partitions.
pub fn plan(out: &mut Stdout, a: PlanAnswer, c: &[i64]) -> io::Result<()> {
    if a.refusal != 0 {
        return write!(out, "{}", Told::Refused(a.refusal));
    }
    write!(out, "{} {} {}", a.total, a.slots, a.partitions)?;
    ids(out, c, a.partitions.saturating_sub(1))?;
    writeln!(out)
}

// A partition's ends: `min` for the smallest i64, `end` for none.
fn span(out: &mut Stdout, i: IntervalAnswer) -> io::Result<()> {
    if i.low == i64::MIN {
        write!(out, "min")?;
    } else {
        write!(out, "{}", Id(i.low))?;
    }
    if i.has_high {
        write!(out, " {}", Id(i.high))
    } else {
        write!(out, " end")
    }
}

// A partition's ends, first rank and count.
pub fn part(out: &mut Stdout, i: IntervalAnswer, k: RanksAnswer) -> io::Result<()> {
    span(out, i)?;
    writeln!(out, " {} {}", k.first, k.count)
}
