// What a call answers, where that is one word or number, as its line: a word goes out with its newline, in one write.
use codes::answer::{DoneAnswer, NumberAnswer, OptionalAnswer, TruthAnswer};
use std::fmt;

#[derive(Clone, Copy, Debug, PartialEq, Eq)]
pub enum Told {
    Done,
    Truth(bool),
    Value(u64),
    Nothing,
    Refused(u64),
    NoCall,
}

impl From<DoneAnswer> for Told {
    fn from(a: DoneAnswer) -> Told {
        match a.refusal {
            0 => Told::Done,
            n => Told::Refused(n),
        }
    }
}

impl From<TruthAnswer> for Told {
    fn from(a: TruthAnswer) -> Told {
        match a.refusal {
            0 => Told::Truth(a.yes),
            n => Told::Refused(n),
        }
    }
}

impl From<NumberAnswer> for Told {
    fn from(a: NumberAnswer) -> Told {
        match a.refusal {
            0 => Told::Value(a.value),
            n => Told::Refused(n),
        }
    }
}

impl From<OptionalAnswer> for Told {
    fn from(a: OptionalAnswer) -> Told {
        match a.refusal {
            0 if a.has => Told::Value(a.value),
            0 => Told::Nothing,
            n => Told::Refused(n),
        }
    }
}

impl fmt::Display for Told {
    fn fmt<W: fmt::Write>(&self, f: &mut fmt::Formatter<W>) -> fmt::Result {
        match *self {
            Told::Done => f.write_str("ok\n"),
            Told::Truth(yes) => writeln!(f, "{yes}"),
            Told::Value(n) => writeln!(f, "{n}"),
            Told::Nothing => f.write_str("none\n"),
            Told::Refused(n) => writeln!(f, "refused {n}"),
            Told::NoCall => f.write_str("bad\n"),
        }
    }
}
