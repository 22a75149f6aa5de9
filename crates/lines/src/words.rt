// The words of a line, separated by single spaces: names, numbers and ids. An empty line has one word, which is empty.
// As in the program of document 01 a number has 1 to 20 digits and fits a u64; an id has an optional minus and 1 to 19 digits and fits an i64. So
// leading zeros count as digits, -0 is an id and no number, and a plus is neither.
ghost use Rattle.std.specs.Prelude.{◌≡◌, is_some, unwrap_or};
ghost use Rattle.lines.specs.Line.{size_line, id_line};
ghost use Rattle.lines.specs.Reader.{line_of};
ghost use Rattle.lines.specs.Words.{word_at, word_count, Names};

use crate::Line;

// How many words there are: one more than spaces.
#[tactic(auto, using(crate::proofs::Splits::count_law))]
pub fn count(line: &[u8]) -> u64
    ensures { result ≡ word_count line.now }
{
    1 + line.iter().filter(|b| **b == b' ').count() as u64
}

// A word, as the reader keeps it.
fn kept(word: &[u8]) -> Line
    ensures { result ≡ line_of word.now }
{
    word.iter().fold(Line::Empty, |l, b| crate::feed(l, *b))
}

// Word j.
pub fn word(line: &[u8], j: u64) -> &[u8]
    ensures { result.now ≡ word_at j line.now }
{
    line.split(|b| *b == b' ').nth(j as usize).unwrap_or(&[])
}

// Word j as a number.
#[tactic(auto, using(crate::proofs::Lines::size_says))]
pub fn number(line: &[u8], j: u64) -> Option<u64>
    ensures { result ≡ size_line (word_at j line.now) }
{
    crate::size_line(kept(word(line, j)))
}

// Word j as a number, d where it is none.
pub fn number_or(line: &[u8], j: u64, d: u64) -> u64
    ensures { result ≡ unwrap_or (size_line (word_at j line.now)) d }
{
    number(line, j).unwrap_or(d)
}

// Whether word j is a number.
pub fn is_number(line: &[u8], j: u64) -> bool
    ensures { result ≡ is_some (size_line (word_at j line.now)) }
{
    number(line, j).is_some()
}

// Word j as an id.
#[tactic(auto, using(crate::proofs::Lines::id_says))]
pub fn id(line: &[u8], j: u64) -> Option<i64>
    ensures { result ≡ id_line (word_at j line.now) }
{
    crate::id_line(kept(word(line, j)))
}

// Word j as an id, d where it is none.
pub fn id_or(line: &[u8], j: u64, d: i64) -> i64
    ensures { result ≡ unwrap_or (id_line (word_at j line.now)) d }
{
    id(line, j).unwrap_or(d)
}

// Whether word j is an id.
pub fn is_id(line: &[u8], j: u64) -> bool
    ensures { result ≡ is_some (id_line (word_at j line.now)) }
{
    id(line, j).is_some()
}

// Which of the names it is.
fn place(it: &[u8], names: &[u8]) -> u64
    ensures { Names it.now names.now result }
{
    match names.split(|b| *b == b' ').position(|name| name == it) {
        Some(i) => i as u64,
        None => count(names),
    }
}

// Which of the names, words of a line of their own, word j is: as many as they are where it is none.
pub fn named(line: &[u8], j: u64, names: &[u8]) -> u64
    ensures { Names (word_at j line.now) names.now result }
{
    place(word(line, j), names)
}
