// Ranks: the prefix of each entry and the total, against a running sum of members. An open set keeps none, and counts nothing.
ghost use Rattle.std.specs.Prelude.{◌≡◌, true, ◌<◌};
ghost use Rattle.layout.specs.Entries.{entries};
ghost use Rattle.layout.specs.Tests.{ranked_at};
ghost use Rattle.fullcheck.specs.Check.{WalkShown, BlocksShown, size_of_entry, kept_if, ranks_are};

use crate::blocks;
use document::sizes::Sizes;
use layout::place::Place;
use layout::{entry, head};

// Members of entry e.
#[tactic(auto, unfolding(crate::specs::Check::size_of_entry))]
pub fn size_at(pages: &[u64], blocks: &[u32], table: &[u64], h: Sizes, e: u64) -> u64
    requires { WalkShown h table.now × BlocksShown h pages.now blocks.now true × (e < entries h table.now) }
    ensures { result ≡ size_of_entry h pages.now table.now e }
{
    match entry::place_at(table, h, e) {
        Place::Absent => 0,
        Place::Sparse(_, l) => l,
        Place::Dense(p) => blocks::members_in(pages, blocks, h, p),
    }
}

// What entry e adds to the running sum.
pub fn size_if(pages: &[u64], blocks: &[u32], table: &[u64], h: Sizes, ranked: bool, e: u64) -> u64
    requires { WalkShown h table.now × BlocksShown h pages.now blocks.now ranked × (e < entries h table.now) }
    ensures { result ≡ kept_if ranked (size_of_entry h pages.now table.now e) }
{
    if !ranked {
        return 0;
    }
    size_at(pages, blocks, table, h, e)
}

// Sentences 14 and 15.
#[tactic(auto, using(sums::proofs::Rules::all_none, sums::proofs::Rules::all_more, crate::proofs::Running::size_none, crate::proofs::Running::size_more, crate::proofs::Running::size_le), unfolding(crate::specs::Check::ranks_are, crate::specs::Check::total_is, crate::specs::Check::prefix_is))]
pub fn ranks_are(pages: &[u64], blocks: &[u32], table: &[u64], h: Sizes) -> bool
    requires { WalkShown h table.now × BlocksShown h pages.now blocks.now (ranked_at table.now) }
    ensures { result ≡ ranks_are h pages.now table.now }
{
    let ranked = head::mode(table) == head::RANKED;
    let n = h.d + head::over_count(table);
    let mut ok = true;
    let mut sum: u64 = 0;
    for e in 0..n {
        ok &= entry::prefix_at(table, h, e) == sum;
        sum += size_if(pages, blocks, table, h, ranked, e);
    }
    ok & (head::total(table) == sum)
}
