// Open or ranked, or memory that a call finds bad.
ghost use Rattle.std.specs.Prelude.{◌≡◌};
ghost use Rattle.layout.specs.Mem.{mem};
ghost use Rattle.ranked.specs.Modes.{form_in, form_of};

use document::refusal::Refusal;
use layout::head;
use layout_walk::walk;

#[derive(Clone, Copy, Debug, PartialEq, Eq)]
pub enum Form {
    Open,
    Ranked,
}

// A rank looks at s and the mode alone.
#[tactic(auto, unfolding(crate::specs::Modes::form_in))]
pub fn form_in(table: &[u64]) -> Result<Form, Refusal>
    ensures { result ≡ form_in table.now }
{
    let s = head::shift(table);
    let m = head::mode(table);
    if !((9 <= s) & (s <= 25) & (m <= head::RANKED)) {
        return Err(Refusal::NotLaidOut);
    }
    if m == head::RANKED {
        return Ok(Form::Ranked);
    }
    Ok(Form::Open)
}

// Ranking and leaving it write to all entries: after the walk nothing can be found wrong.
#[tactic(auto, unfolding(crate::specs::Modes::form_of))]
pub fn form_of(pages: &[u64], rows: &[u32], blocks: &[u32], table: &[u64]) -> Result<Form, Refusal>
    ensures { result ≡ form_of (mem pages.now rows.now blocks.now table.now) }
{
    if !walk::walk(pages, rows, blocks, table) {
        return Err(Refusal::NotLaidOut);
    }
    if head::mode(table) == head::RANKED {
        return Ok(Form::Ranked);
    }
    Ok(Form::Open)
}
