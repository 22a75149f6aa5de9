// Why a call is refused: document 01's table, each with its number. specs/Refusals has their sentences.
ghost use Rattle.std.specs.Prelude.{◌≡◌};
ghost use Rattle.document.specs.Refusals.{number};

use std::fmt;

#[derive(Clone, Copy, Debug, PartialEq, Eq)]
pub enum Refusal {
    OutsideSizes = 1,
    TooShort = 2,
    NotLaidOut = 3,
    IsRanked = 4,
    IsOpen = 5,
    OverflowFull = 6,
    RowsFull = 7,
    PagesFull = 8,
    NotPrepared = 9,
    SizesDiffer = 10,
    NoRoom = 11,
    NoPartition = 12,
}

impl Refusal {
    // Document 01's number.
    pub fn number(self) -> u64
        ensures { result ≡ number self }
    {
        self as u64
    }
}

impl fmt::Display for Refusal {
    fn fmt<W: fmt::Write>(&self, f: &mut fmt::Formatter<W>) -> fmt::Result {
        write!(f, "refused {}", self.number())
    }
}
