// Whether a set takes inserts.
ghost use Rattle.std.specs.Prelude.{◌≡◌};
ghost use Rattle.insert_plan.specs.Gate.{admission};

use document::refusal::Refusal;
use layout::head;

// 3 for a size or a mode that is not allowed, 4 for a ranked set.
#[tactic(auto, unfolding(crate::specs::Gate::admission))]
pub fn open(table: &[u64]) -> Result<(), Refusal>
    ensures { result ≡ admission table.now }
{
    let s = head::shift(table);
    let mode = head::mode(table);
    if !((9 <= s) & (s <= 25) & (mode <= head::RANKED)) {
        return Err(Refusal::NotLaidOut);
    }
    if mode == head::RANKED {
        return Err(Refusal::IsRanked);
    }
    Ok(())
}
