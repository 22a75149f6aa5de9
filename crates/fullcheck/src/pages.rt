// Pages: each as a part of the pool, and the free ones, which hold zeros.
ghost use Rattle.std.specs.Prelude.{◌≡◌, ◌*◌, ◌≤◌, ◌<◌, length};
ghost use Rattle.sums.specs.Rules.{all_to};
ghost use Rattle.document.specs.Sizes.{InRange};
ghost use Rattle.layout.specs.Sizes.{wide};
ghost use Rattle.layout.specs.Places.{page_part};
ghost use Rattle.fullcheck.specs.Check.{free_page_is};

use document::sizes::Sizes;
use layout::{entry, head};
use layout_walk::zeros;
use numbers::power;

// Page p of the pool.
pub fn part(pages: &[u64], h: Sizes, p: u64) -> &[u64]
    requires { InRange h × (p < h.p) × (h.p * wide h ≤ length pages.now) }
    ensures { result.now ≡ page_part h pages.now p }
{
    let a = head::page_at(h, p) as usize;
    &pages[a..a + power::pow2(h.s - 6) as usize]
}

// A page without an owner holds zeros.
#[tactic(auto, unfolding(crate::specs::Check::free_page_is, layout::specs::Tests::zeros, layout::specs::Tests::zero_at))]
pub fn free_page(pages: &[u64], table: &[u64], h: Sizes, p: u64) -> bool
    requires { InRange h × (p < h.p) × (h.p * wide h ≤ length pages.now) }
    ensures { result ≡ free_page_is h pages.now table.now p }
{
    entry::page_owner(table, h, p) != 0
        || zeros::all_are(pages, head::page_at(h, p), power::pow2(h.s - 6), 0)
}

// Sentence 12, of every page.
#[tactic(auto, using(sums::proofs::Rules::all_none, sums::proofs::Rules::all_more))]
pub fn free_pages(pages: &[u64], table: &[u64], h: Sizes) -> bool
    requires { InRange h × (h.p * wide h ≤ length pages.now) }
    ensures { result ≡ all_to (free_page_is h pages.now table.now) h.p }
{
    let mut ok = true;
    for p in 0..h.p {
        ok &= free_page(pages, table, h, p);
    }
    ok
}
