// A line of the program's input, read byte by byte: S, or an id. Of a line of any length three numbers are kept.
#![tactic(auto)]

pub mod signs;
pub mod words;

ghost use Rattle.std.specs.Prelude.{◌≡◌, ◌+◌, ◌-◌, ◌*◌, ◌^◌, ◌&&◌, cond, ltb, Some, None};
ghost use Rattle.lines.specs.Line.{is_digit};
ghost use Rattle.lines.specs.Reader.{digit_on, next, empty_in, size_in, within, signed_by, id_in};
ghost use Rattle.lines.specs.declared.Line.TheVariants.{Empty};

// What is kept of a line so far: whether it has a minus, how many digits, and their number.
#[derive(Clone, Copy)]
pub enum Line {
    Empty,
    Digits(bool, u64, u64),
    Bad,
}

// A line before its first byte.
pub fn start() -> Line
    ensures { result ≡ Empty }
{
    Line::Empty
}

// The number v with one more digit, if that fits.
fn number_on(v: u64, b: u8) -> Option<u64>
    ensures { result ≡ cond (is_digit b && ltb (v * 10 + (b - 48)) (2 ^ 64)) (Some (v * 10 + (b - 48))) None }
{
    if !b.is_ascii_digit() {
        return None;
    }
    v.checked_mul(10)?.checked_add(u64::from(b - b'0'))
}

// One more digit, while digits and number fit a u64.
#[tactic(auto, unfolding(crate::specs::Reader::digit_on))]
fn digit(minus: bool, n: u64, v: u64, b: u8) -> Line
    ensures { result ≡ digit_on minus n v b }
{
    match number_on(v, b) {
        Some(v) if n < 20 => Line::Digits(minus, n + 1, v),
        _ => Line::Bad,
    }
}

// The line with one more byte.
#[tactic(auto, unfolding(crate::specs::Reader::next))]
pub fn feed(l: Line, b: u8) -> Line
    ensures { result ≡ next l b }
{
    match l {
        Line::Empty if b == b'-' => Line::Digits(true, 0, 0),
        Line::Empty => digit(false, 0, 0, b),
        Line::Digits(minus, n, v) => digit(minus, n, v, b),
        Line::Bad => Line::Bad,
    }
}

// Whether the line has no byte.
pub fn is_empty(l: Line) -> bool
    ensures { result ≡ empty_in l }
{
    matches!(l, Line::Empty)
}

// The line as S.
pub fn size_line(l: Line) -> Option<u64>
    ensures { result ≡ size_in l }
{
    match l {
        Line::Digits(false, _, v) => Some(v),
        _ => None,
    }
}

// The number, or its negative, where an i64 holds it.
fn signed(minus: bool, v: u64) -> Option<i64>
    ensures { result ≡ cond (within minus v) (Some (signed_by minus v)) None }
{
    if minus {
        0_i64.checked_sub_unsigned(v)
    } else {
        i64::try_from(v).ok()
    }
}

// The line as an id.
pub fn id_line(l: Line) -> Option<i64>
    ensures { result ≡ id_in l }
{
    match l {
        Line::Digits(minus, 1..=19, v) => signed(minus, v),
        _ => None,
    }
}
