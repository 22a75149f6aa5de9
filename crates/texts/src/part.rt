// A partition's line: its number, its ends, first rank and count.
ghost use Rattle.std.specs.Prelude.{◌+◌, ◌≤◌, length};
ghost use Rattle.document.specs.Spans.{ids_answer, ranks_answer};
ghost use Rattle.spell.specs.Spell.{Appends};
ghost use Rattle.texts.specs.Text.{newline, spaced, end_text, span_text, spanned_text, ranks_text, part_text};

use document::plan::{Plan, Ranks, Span};
use intervals::interval;
use numbers::id;

// A space, and a number.
pub fn spaced(out: &mut [u8], at: usize, n: u64) -> usize
    requires { at + 21 ≤ length out.old }
    ensures { Appends 21 out.old out.new at result (spaced n) }
{
    let a = spell::text(out, at, b" ");
    spell::number(out, a, n)
}

// An end of a partition. No boundary is negative: a negative one is the smallest i64.
fn end_of(out: &mut [u8], at: usize, z: i64) -> usize
    requires { at + 21 ≤ length out.old }
    ensures { Appends 21 out.old out.new at result (end_text z) }
{
    match id::natural(z) {
        Some(n) => spaced(out, at, n),
        None => spell::text(out, at, b" min"),
    }
}

// Both ends.
fn span(out: &mut [u8], at: usize, i: Span) -> usize
    requires { at + 42 ≤ length out.old }
    ensures { Appends 42 out.old out.new at result (span_text i) }
{
    match i {
        Span::Between(lo, hi) => {
            let a = end_of(out, at, lo);
            end_of(out, a, hi)
        }
        Span::From(lo) => {
            let a = end_of(out, at, lo);
            spell::text(out, a, b" end")
        }
    }
}

// The ids of partition k.
fn ids(out: &mut [u8], at: usize, p: Plan, bounds: &[i64], k: u64) -> usize
    requires { at + 42 ≤ length out.old }
    ensures { Appends 42 out.old out.new at result (spanned_text (ids_answer p bounds.now k)) }
{
    match interval::ids(p, bounds, k) {
        Ok(i) => span(out, at, i),
        Err(_) => at,
    }
}

// Its first rank and count.
fn ranks(out: &mut [u8], at: usize, p: Plan, k: u64) -> usize
    requires { at + 42 ≤ length out.old }
    ensures { Appends 42 out.old out.new at result (ranks_text (ranks_answer p k)) }
{
    match interval::ranks(p, k) {
        Ok(Ranks { first, count }) => {
            let a = spaced(out, at, first);
            spaced(out, a, count)
        }
        Err(_) => at,
    }
}

// All of it.
pub fn line(out: &mut [u8], p: Plan, bounds: &[i64], k: u64) -> usize
    requires { 105 ≤ length out.old }
    ensures { Appends 105 out.old out.new 0 result (part_text p bounds.now k) }
{
    let a = spell::number(out, 0, k);
    let b = ids(out, a, p, bounds, k);
    let c = ranks(out, b, p, k);
    spell::text(out, c, b"\n")
}
