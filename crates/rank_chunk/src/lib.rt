// Members of one chunk below offset o, on any memory.
#![tactic(auto)]

ghost use Rattle.std.specs.Prelude.{◌≡◌, [], ◌+◌, ◌*◌, ◌/◌, ◌^◌, ◌≤◌, ◌<◌, length};
ghost use Rattle.layout.specs.Mem.{mem};
ghost use Rattle.layout.specs.Sizes.{header_at};
ghost use Rattle.calls.specs.Reading.{spot_by};
ghost use Rattle.ranks.specs.Rank.{in_page, below_at, plus_before};
ghost use Rattle.rank_chunk.specs.Part.{HasBlock};
ghost use Rattle.rank_chunk.specs.Small.{Small};

use dense::block;
use document::refusal::Refusal;
use layout::find;
use layout::find::Spot;
use numbers::id;

// In a page: the count of the offset's block, and what its eight words have below it.
pub fn in_page(pages: &[u64], blocks: &[u32], a: usize, n: usize, o: u64) -> Result<u64, Refusal>
    requires { (a + n ≤ length pages.now) × (o / 512 * 8 + 8 ≤ n) }
    ensures { (result ≡ in_page (mem pages.now [] blocks.now []) a n o) × Small result }
{
    let i = a / 8 + (o / 512) as usize;
    let Some(count) = blocks.get(i) else {
        return Err(Refusal::NotLaidOut);
    };
    let words = block::block_at(&pages[a..a + n], (o / 512 * 8) as usize);
    Ok(u64::from(*count) + block::rank_within(words, o % 512))
}

// In a part of a pool.
pub fn below_in(
    pages: &[u64],
    rows: &[u32],
    blocks: &[u32],
    q: Result<Spot, Refusal>,
    o: u64,
) -> Result<u64, Refusal>
    requires { HasBlock (length pages.now) (length rows.now) o q }
    ensures { (result ≡ below_at (mem pages.now rows.now blocks.now []) o q) × Small result }
{
    match q? {
        Spot::Nowhere => Ok(0),
        Spot::Row(a, n, l) => Ok(sparse::below(&rows[a..a + n], l, o as u32) as u64),
        Spot::Page(a, n) => in_page(pages, blocks, a, n, o),
    }
}

// In the chunk at word w.
pub fn below(
    pages: &[u64],
    rows: &[u32],
    blocks: &[u32],
    table: &[u64],
    s: u64,
    w: u64,
    o: u64,
) -> Result<u64, Refusal>
    requires { (9 ≤ s) × (s ≤ 25) × (s ≡ (header_at table.now).s) × (o < 2 ^ s) }
    ensures { let x = mem pages.now rows.now blocks.now table.now in
        (result ≡ below_at x o (spot_by x w)) × Small result }
{
    below_in(pages, rows, blocks, find::spot_of(pages, rows, table, w), o)
}

// The members of the chunks before, and those within; a prefix that no call wrote may be too large.
pub fn after(before: u64, within: Result<u64, Refusal>) -> Result<u64, Refusal>
    requires { Small within }
    ensures { result ≡ plus_before before within }
{
    let k = within?;
    if id::LIMIT <= before {
        return Err(Refusal::NotLaidOut);
    }
    Ok(before + k)
}
