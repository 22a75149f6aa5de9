// Block counts: the members of a page before each block of eight words.
ghost use Rattle.std.specs.Prelude.{◌≡◌, ◌*◌, ◌^◌, ◌≤◌, ◌<◌, length};
ghost use Rattle.dense.specs.Bits.{bits_to};
ghost use Rattle.document.specs.Sizes.{InRange, top};
ghost use Rattle.layout.specs.Sizes.{wide, blocks_of};
ghost use Rattle.layout.specs.Places.{page_part};
ghost use Rattle.ranks.specs.Form.{blocked, blocked_to};
ghost use Rattle.rank_counts.specs.Counts.{counted, BlocksCounted};

use dense::block;
use document::sizes::Sizes;
use layout::head;
use numbers::{element, power};

// The n counts of a page's words, from place k on. Each word is looked at once.
#[tactic(auto, using(crate::proofs::Counting::block_turn))]
fn count_words(words: &[u64], blocks: &mut [u32], k: u64, n: u64)
    requires { (8 * n ≤ length words.now) × (n ≤ 65536) × (k ≤ 2 ^ 47) }
    ensures { blocks.new ≡ counted words.now blocks.old k n }
{
    let mut sum: u64 = 0;
    for b in 0..n {
        element::put(blocks, k + b, sum as u32);
        sum += block::block_count(block::block_at(words, (8 * b) as usize));
    }
}

// The counts of page p.
fn count_page(h: Sizes, pages: &[u64], blocks: &mut [u32], p: u64)
    requires { InRange h × (p < h.p) × (h.p * wide h ≤ length pages.now) }
    ensures { blocks.new ≡ blocked h pages.now blocks.old p (blocks_of h) }
{
    let a = head::page_at(h, p) as usize;
    let e = a + power::pow2(h.s - 6) as usize;
    let k = head::block_at(h, p);
    let n = power::pow2(h.s - 9);
    count_words(&pages[a..e], blocks, k, n);
}

// The counts of all pages, free ones too.
#[tactic(auto, using(crate::proofs::Counting::page_turn))]
pub fn count_pages(h: Sizes, pages: &[u64], blocks: &mut [u32])
    requires { InRange h × (h.p * wide h ≤ length pages.now) }
    ensures { blocks.new ≡ blocked_to h pages.now blocks.old h.p }
{
    for p in 0..h.p {
        count_page(h, pages, blocks, p);
    }
}

// The members of page p: those before its last block, and that block's.
pub fn page_size(h: Sizes, pages: &[u64], blocks: &[u32], p: u64) -> u64
    requires { InRange h × (p < h.p) × (h.p * wide h ≤ length pages.now) × BlocksCounted h pages.now blocks.now }
    ensures { result ≡ bits_to (page_part h pages.now p) (top h) }
{
    let a = head::page_at(h, p) as usize;
    let last = power::pow2(h.s - 9) - 1;
    let e = a + power::pow2(h.s - 6) as usize;
    u64::from(element::at(blocks, head::block_at(h, p) + last, 0))
        + block::block_count(block::block_at(&pages[a..e], (8 * last) as usize))
}
