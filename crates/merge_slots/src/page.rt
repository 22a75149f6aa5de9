// Pages of the destination with pages of the source.
ghost use Rattle.std.specs.Prelude.{◌≡◌, ◌*◌, ◌≤◌, ◌<◌, length};
ghost use Rattle.dense.specs.Bits.{or_words};
ghost use Rattle.document.specs.Sizes.{InRange};
ghost use Rattle.layout.specs.Sizes.{wide};
ghost use Rattle.layout.specs.Places.{page_part};
ghost use Rattle.layout.specs.Writes.{put_page};
ghost use Rattle.merge_slots.specs.Pools.{PagePools};

use document::sizes::Sizes;
use layout::head;
use numbers::power;

// Page p of a pool.
fn part(pages: &[u64], h: Sizes, p: u64) -> &[u64]
    requires { InRange h × (h.p * wide h ≤ length pages.now) × (p < h.p) }
    ensures { result.now ≡ page_part h pages.now p }
{
    let a = head::page_at(h, p) as usize;
    let e = a + power::pow2(h.s - 6) as usize;
    &pages[a..e]
}

// Page p becomes the source's page i.
pub fn copy(pages: &mut [u64], h: Sizes, p: u64, spages: &[u64], g: Sizes, i: u64)
    requires { PagePools h g (length pages.old) (length spages.now) × (p < h.p) × (i < g.p) }
    ensures { pages.new ≡ put_page h pages.old p (page_part g spages.now i) }
{
    let b = head::page_at(h, p) as usize;
    let f = b + power::pow2(h.s - 6) as usize;
    dense::words::copy(&mut pages[b..f], part(spages, g, i));
}

// Page p gets the members of the source's page i, word by word.
pub fn unite(pages: &mut [u64], h: Sizes, p: u64, spages: &[u64], g: Sizes, i: u64)
    requires { PagePools h g (length pages.old) (length spages.now) × (p < h.p) × (i < g.p) }
    ensures { pages.new ≡ put_page h pages.old p
        (or_words (page_part h pages.old p) (page_part g spages.now i)) }
{
    let b = head::page_at(h, p) as usize;
    let f = b + power::pow2(h.s - 6) as usize;
    dense::words::or_into(&mut pages[b..f], part(spages, g, i));
}
