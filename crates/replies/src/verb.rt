// What a line asks: its verb, and the words after it.
ghost use Rattle.std.specs.Prelude.{◌≤◌};

use Kind::{High, Id, More, Number, Other, Room, Set};
use lines::words;
use std::array;

// Verbs whose calls answer alike are grouped.
#[derive(Clone, Copy, Debug, PartialEq, Eq)]
pub enum Verb {
    Change(Change),
    Ask(Ask),
    Join(Join),
    Cut(Cut),
    Check,
    Dump,
    Poke,
    Plan,
    Iter,
    Mark,
    Meet,
    GetAll,
    RankAll,
    RankIfAll,
    InsertAll,
    Slots,
    Bounded,
}

// What changes a set.
#[derive(Clone, Copy, Debug, PartialEq, Eq)]
pub enum Change {
    SetUp,
    Set,
    New,
    Put,
    Prepare,
    RankUp,
    Open,
}

// What asks one thing of a set.
#[derive(Clone, Copy, Debug, PartialEq, Eq)]
pub enum Ask {
    Get,
    Any,
    Len,
    Chunks,
    Empty,
    Has,
    Chunk,
    Rank,
    RankIf,
    Total,
}

// What takes the other set in.
#[derive(Clone, Copy, Debug, PartialEq, Eq)]
pub enum Join {
    From,
    Merge,
}

// What asks of a partition.
#[derive(Clone, Copy, Debug, PartialEq, Eq)]
pub enum Cut {
    Part,
    In,
    Meets,
}

// The kinds of words after a verb.
#[derive(Clone, Copy, Debug, PartialEq, Eq)]
enum Kind {
    Set,
    // a set that word 1 isn't
    Other,
    // at most 256 boundaries
    Room,
    Number,
    Id,
    // a low end or a listed id, that may lack
    More,
    // a high end, that lacks with its low end
    High,
}

// One to eight ids.
const IDS: &[Kind] = &[Set, Id, More, More, More, More, More, More, More];

// The verbs' names: which of them a line's first word is, is by the contract of `words::named`.
const NAMES: &[u8] = b"set prepare rankup open setup poke new put get empty \
    has chunk rank rankif len chunks total check dump plan \
    part in meets slots bounded any iter from merge mark \
    meet getall rankall rankifall insertall";

// The verbs, in the order of their names, and the kinds of the words that follow.
const VERBS: [(Verb, &[Kind]); 35] = [
    (Verb::Change(Change::Set), &[Set, Id]),
    (Verb::Change(Change::Prepare), &[Set, Id]),
    (Verb::Change(Change::RankUp), &[Set]),
    (Verb::Change(Change::Open), &[Set]),
    (
        Verb::Change(Change::SetUp),
        &[Set, Number, Number, Number, Number, Number, Number],
    ),
    (Verb::Poke, &[Set, Number, Number, Number]),
    (Verb::Change(Change::New), &[Set, Id]),
    (Verb::Change(Change::Put), &[Set, Id]),
    (Verb::Ask(Ask::Get), &[Set, Id]),
    (Verb::Ask(Ask::Empty), &[Set]),
    (Verb::Ask(Ask::Has), &[Set]),
    (Verb::Ask(Ask::Chunk), &[Set, Id]),
    (Verb::Ask(Ask::Rank), &[Set, Id]),
    (Verb::Ask(Ask::RankIf), &[Set, Id]),
    (Verb::Ask(Ask::Len), &[Set]),
    (Verb::Ask(Ask::Chunks), &[Set]),
    (Verb::Ask(Ask::Total), &[Set]),
    (Verb::Check, &[Set]),
    (Verb::Dump, &[Set]),
    (Verb::Plan, &[Set, Number, Room]),
    (
        Verb::Cut(Cut::Part),
        &[Set, Number, Number, Number, Room, Number],
    ),
    (
        Verb::Cut(Cut::In),
        &[Set, Number, Number, Number, Room, Number, Id],
    ),
    (
        Verb::Cut(Cut::Meets),
        &[Set, Number, Number, Number, Room, Number, Id, Id],
    ),
    (Verb::Slots, &[Number]),
    (Verb::Bounded, &[Id, Number, Number]),
    (Verb::Ask(Ask::Any), &[Set, Id, Id]),
    (Verb::Iter, &[Set, Id]),
    (Verb::Join(Join::From), &[Set, Other]),
    (Verb::Join(Join::Merge), &[Set, Other]),
    (
        Verb::Mark,
        &[
            Set, Id, Id, More, High, More, High, More, High, More, High, More, High, More, High,
            More, High,
        ],
    ),
    (
        Verb::Meet,
        &[
            Set, Number, Number, Number, Room, Number, Id, Id, More, High, More, High, More, High,
            More, High, More, High, More, High, More, High,
        ],
    ),
    (Verb::GetAll, IDS),
    (Verb::RankAll, IDS),
    (Verb::RankIfAll, IDS),
    (Verb::InsertAll, IDS),
];

impl Kind {
    // Whether word j of a line is of this kind.
    fn fits(self, line: &[u8], j: u64) -> bool {
        match self {
            Set => words::number_or(line, j, 2) < 2,
            Other => words::number_or(line, j, 2) < 2
                && words::number(line, j) != words::number(line, 1),
            Room => words::number_or(line, j, 257) <= 256,
            Number => words::is_number(line, j),
            Id => words::is_id(line, j),
            More => words::is_id(line, j) || words::count(line) <= j,
            High => words::is_id(line, j) || words::count(line) < j,
        }
    }
}

// A line's verb, where the words after it are of its kinds, and no more.
pub fn of(line: &[u8]) -> Option<Verb> {
    let (verb, kinds) = VERBS.get(words::named(line, 0, NAMES) as usize)?;
    let fits = words::count(line) <= kinds.len() as u64 + 1
        && kinds.iter().zip(1..).all(|(kind, j)| kind.fits(line, j));
    fits.then_some(*verb)
}

// Word j as a number, at most `most`.
pub fn up_to(line: &[u8], j: u64, most: usize) -> usize
    ensures { result ≤ most }
{
    (words::number_or(line, j, 0) as usize).min(most)
}

// Words 2 to 7 as numbers.
pub fn numbers(line: &[u8]) -> [u64; 6] {
    array::from_fn(|i| words::number_or(line, i as u64 + 2, 0))
}
