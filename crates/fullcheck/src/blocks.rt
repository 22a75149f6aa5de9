// Block counts of pages, against a running count. An open set keeps none, and counts nothing.
ghost use Rattle.std.specs.Prelude.{◌≡◌, true, ◌+◌, ◌*◌, ◌≤◌, ◌<◌, length, take, drop};
ghost use Rattle.sums.specs.Rules.{all_to};
ghost use Rattle.dense.specs.Bits.{bits_to};
ghost use Rattle.document.specs.Sizes.{InRange, top};
ghost use Rattle.layout.specs.Sizes.{wide, blocks_of};
ghost use Rattle.layout.specs.Places.{page_part};
ghost use Rattle.layout.specs.Tests.{ranked_at};
ghost use Rattle.fullcheck.specs.Check.{kept_if, block_is, page_blocks, BlocksShown};

use crate::pages;
use dense::block;
use document::sizes::Sizes;
use layout::head;
use numbers::{element, power};

// What block b of a page adds to the running count.
pub fn block_if(page: &[u64], ranked: bool, b: u64) -> u64
    requires { 8 * b + 8 ≤ length page.now }
    ensures { result ≡ kept_if ranked (bits_to (take 8 (drop (8 * b) page.now)) 512) }
{
    if !ranked {
        return 0;
    }
    let at = (8 * b) as usize;
    block::block_count(block::block_at(page, at))
}

// The n counts from a on are those of the page's blocks.
#[tactic(auto, using(sums::proofs::Rules::all_none, sums::proofs::Rules::all_more, crate::proofs::Running::block_none, crate::proofs::Running::block_more, crate::proofs::Running::block_le), unfolding(crate::specs::Check::block_is))]
pub fn page_blocks(page: &[u64], blocks: &[u32], ranked: bool, a: u64, n: u64) -> bool
    requires { (8 * n ≤ length page.now) × (a + n ≤ length blocks.now) × (n ≤ 65536) }
    ensures { result ≡ all_to (block_is page.now blocks.now ranked a) n }
{
    let mut ok = true;
    let mut sum: u64 = 0;
    for b in 0..n {
        ok &= u64::from(element::at(blocks, a + b, 0)) == sum;
        sum += block_if(page, ranked, b);
    }
    ok
}

// The same of page p of the pool.
#[tactic(auto, unfolding(crate::specs::Check::page_blocks))]
pub fn blocks_in(pages: &[u64], blocks: &[u32], h: Sizes, ranked: bool, p: u64) -> bool
    requires { InRange h × (p < h.p) × (h.p * wide h ≤ length pages.now) × (h.p * blocks_of h ≤ length blocks.now) }
    ensures { result ≡ page_blocks h pages.now blocks.now ranked p }
{
    let page = pages::part(pages, h, p);
    page_blocks(
        page,
        blocks,
        ranked,
        head::block_at(h, p),
        power::pow2(h.s - 9),
    )
}

// Sentence 16, of every page.
#[tactic(auto, using(sums::proofs::Rules::all_none, sums::proofs::Rules::all_more))]
pub fn blocks_are(pages: &[u64], blocks: &[u32], table: &[u64], h: Sizes) -> bool
    requires { InRange h × (h.p * wide h ≤ length pages.now) × (h.p * blocks_of h ≤ length blocks.now) }
    ensures { result ≡ all_to (page_blocks h pages.now blocks.now (ranked_at table.now)) h.p }
{
    let ranked = head::mode(table) == head::RANKED;
    let mut ok = true;
    for p in 0..h.p {
        ok &= blocks_in(pages, blocks, h, ranked, p);
    }
    ok
}

// Members of a page whose n counts, from a on, are right: the last count, and what the last block adds.
pub fn page_members(page: &[u64], blocks: &[u32], a: u64, n: u64) -> u64
    requires { (8 * n ≤ length page.now) × (a + n ≤ length blocks.now) × (1 ≤ n) × (n ≤ 65536)
        × (all_to (block_is page.now blocks.now true a) n ≡ true) }
    ensures { result ≡ bits_to page.now (512 * n) }
{
    let b = n - 1;
    u64::from(element::at(blocks, a + b, 0)) + block_if(page, true, b)
}

// The same of page p of the pool.
pub fn members_in(pages: &[u64], blocks: &[u32], h: Sizes, p: u64) -> u64
    requires { InRange h × (p < h.p) × BlocksShown h pages.now blocks.now true }
    ensures { result ≡ bits_to (page_part h pages.now p) (top h) }
{
    let page = pages::part(pages, h, p);
    page_members(page, blocks, head::block_at(h, p), power::pow2(h.s - 9))
}
