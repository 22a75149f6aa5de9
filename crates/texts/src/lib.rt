// What the program writes: the plan, line by line, or the one line of a fault. Each line goes into a lent buffer that holds the longest.
#![tactic(auto)]

mod part;

ghost use Rattle.std.specs.Prelude.{◌≡◌, ◌+◌, ◌≤◌, length, take};
ghost use Rattle.io.specs.Counts.{IsPrefixLen};
ghost use Rattle.spell.specs.Spell.{Appends};
ghost use Rattle.texts.specs.Text.{newline, spaced, head_text, fault_text, first_text, line_count, line_text};

use document::plan::Plan;
use program::Fault;

// Members and partitions.
fn head(out: &mut [u8], p: Plan) -> usize
    requires { 105 ≤ length out.old }
    ensures { Appends 105 out.old out.new 0 result (head_text p) }
{
    let a = spell::text(out, 0, b"plan");
    let b = part::spaced(out, a, p.total);
    let c = part::spaced(out, b, p.partitions);
    spell::text(out, c, b"\n")
}

// A fault's one line: some words, and a number.
fn fault(out: &mut [u8], words: &[u8], n: u64) -> usize
    requires { (105 ≤ length out.old) × (length words.now ≤ 8) }
    ensures { Appends 105 out.old out.new 0 result (fault_text words.now n) }
{
    let a = spell::text(out, 0, words);
    let b = part::spaced(out, a, n);
    spell::text(out, b, b"\n")
}

// The first line.
pub fn first(s: Result<Plan, Fault>, out: &mut [u8; 105]) -> usize
    ensures prefix_len { IsPrefixLen result out.new }
    ensures out_after { take result out.new ≡ first_text s }
{
    match s {
        Ok(p) => head(out, p),
        Err(Fault::Line(n)) => fault(out, b"bad line", n),
        Err(Fault::Call(c)) => fault(out, b"refused", c.number()),
    }
}

// How many lines follow it.
pub fn count(s: Result<Plan, Fault>) -> u64
    ensures { result ≡ line_count s }
{
    match s {
        Ok(p) => p.partitions,
        Err(_) => 0,
    }
}

// Line k of them, counted from 0.
pub fn line(s: Result<Plan, Fault>, bounds: &[i64], k: u64, out: &mut [u8; 105]) -> usize
    ensures prefix_len { IsPrefixLen result out.new }
    ensures out_after { take result out.new ≡ line_text s bounds.now k }
{
    match s {
        Ok(p) => part::line(out, p, bounds, k),
        Err(_) => 0,
    }
}
