// The program's input, taken byte by byte: S on line 1, an id on every other line. There is no set here: what comes next is said, and the caller does it.
#![tactic(auto)]

ghost use Rattle.std.specs.Prelude.{◌≡◌};
ghost use Rattle.lines.specs.Reader.{size_in, id_in};
ghost use Rattle.program.specs.Input.{following};
ghost use Rattle.program.specs.Reader.{begin, size_read, id_read, byte_on, no_byte, go_on, settled};
ghost use Rattle.program.specs.declared.Fault.TheVariants.{Call};

use document::refusal::Refusal;
use lines::Line;

// The first fault: a bad line, by its number, or a call's refusal.
#[derive(Clone, Copy, Debug, PartialEq, Eq)]
pub enum Fault {
    Line(u64),
    Call(Refusal),
}

impl From<Refusal> for Fault {
    ghost from_gives = { λ c f. f ≡ Call c };

    fn from(c: Refusal) -> Fault {
        Fault::Call(c)
    }
}

// How far the input is read: in line 1; in line n, where S is s; or to the first fault.
#[derive(Clone, Copy)]
pub enum Input {
    First(Line),
    Next(Line, u64, u64),
    Stopped(Fault),
}

// What comes next: go on, or insert the id of line n.
#[derive(Clone, Copy)]
pub enum Act {
    Go(Input),
    Insert(i64, u64, u64),
}

// Before the first byte.
pub fn start() -> Input
    ensures { result ≡ begin }
{
    Input::First(lines::start())
}

// Line 1 has ended.
fn size_read(l: Line) -> Input
    ensures { result ≡ size_read (size_in l) }
{
    match lines::size_line(l) {
        Some(s) => Input::Next(lines::start(), 2, s),
        None => Input::Stopped(Fault::Line(1)),
    }
}

// Line n has ended.
fn id_read(l: Line, n: u64, s: u64) -> Act
    ensures { result ≡ id_read (id_in l) n s }
{
    match lines::id_line(l) {
        Some(id) => Act::Insert(id, n, s),
        None => Act::Go(Input::Stopped(Fault::Line(n))),
    }
}

// One byte more. After a fault nothing counts.
pub fn byte(i: Input, b: u8) -> Act
    ensures { result ≡ byte_on i b }
{
    match i {
        Input::First(l) if b == b'\n' => Act::Go(size_read(l)),
        Input::First(l) => Act::Go(Input::First(lines::feed(l, b))),
        Input::Next(l, n, s) if b == b'\n' => id_read(l, n, s),
        Input::Next(l, n, s) => Act::Go(Input::Next(lines::feed(l, b), n, s)),
        Input::Stopped(f) => Act::Go(Input::Stopped(f)),
    }
}

// No byte more. The last newline may be missing, but not S.
pub fn no_byte(i: Input) -> Act
    ensures { result ≡ no_byte i }
{
    match i {
        Input::First(l) => Act::Go(size_read(l)),
        Input::Next(l, n, s) if !lines::is_empty(l) => id_read(l, n, s),
        _ => Act::Go(i),
    }
}

// The number of the next line. No input has 2 ^ 64 lines.
fn after(n: u64) -> u64
    ensures { result ≡ following n }
{
    n.saturating_add(1)
}

// The id of line n has gone into the set, and the next line begins; or it was refused.
pub fn go_on(o: Result<(), Refusal>, n: u64, s: u64) -> Input
    ensures { result ≡ go_on o n s }
{
    match o {
        Ok(()) => Input::Next(lines::start(), after(n), s),
        Err(c) => Input::Stopped(Fault::Call(c)),
    }
}

// What the input was, once it has ended and its last line is inserted: S, or the first fault.
pub fn settle(i: Input) -> Result<u64, Fault>
    ensures { result ≡ settled i }
{
    match i {
        Input::First(_) => Err(Fault::Line(1)),
        Input::Next(_, _, s) => Ok(s),
        Input::Stopped(f) => Err(f),
    }
}
