// One chunk: its word, and whether an offset is a member. Only what is touched is tested.
ghost use Rattle.std.specs.Prelude.{◌≡◌, ◌^◌, ◌≤◌, ◌<◌};
ghost use Rattle.layout.specs.Mem.{mem};
ghost use Rattle.layout.specs.Sizes.{header_at};
ghost use Rattle.layout.specs.Short.{word_in};
ghost use Rattle.calls.specs.Reading.{spot_if, has_at};

use document::refusal::Refusal;
use layout::{find, head, part};

// Chunk c's word: a direct entry's without a call.
fn word(table: &[u64], c: u64) -> Result<u64, Refusal>
    requires { c < 2 ^ 62 }
    ensures { result ≡ word_in table.now c }
{
    if head::direct(table) <= c {
        return find::word_of(table, c);
    }
    find::direct_word(table, c)
}

// Whether offset o of chunk c is a member.
pub fn has(
    pages: &[u64],
    rows: &[u32],
    blocks: &[u32],
    table: &[u64],
    s: u64,
    c: u64,
    o: u64,
) -> Result<bool, Refusal>
    requires { (9 ≤ s) × (s ≤ 25) × (s ≡ (header_at table.now).s) × (c < 2 ^ 62) × (o < 2 ^ s) }
    ensures { let x = mem pages.now rows.now blocks.now table.now in
        result ≡ has_at x o (spot_if x (word_in x.table c)) }
{
    let w = word(table, c)?;
    part::has(pages, rows, find::spot_of(pages, rows, table, w), o)
}
