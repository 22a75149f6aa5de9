// Prefixes: beside each entry, the members of the entries before it.
ghost use Rattle.std.specs.Prelude.{◌≡◌, ◌*◌, ◌≤◌, ◌<◌, length};
ghost use Rattle.sums.specs.Sums.{sum_to};
ghost use Rattle.document.specs.Sizes.{InRange};
ghost use Rattle.layout.specs.Sizes.{wide, over_count};
ghost use Rattle.layout.specs.Entries.{entries, place_at};
ghost use Rattle.ranks.specs.Form.{prefixed, headed};
ghost use Rattle.rank_counts.specs.Counts.{entry_size, BlocksCounted, Inside, Places};

use crate::blocks;
use document::sizes::Sizes;
use layout::place::Place;
use layout::{entry, head};
use layout_writes::write;

// How many entries there are.
fn entry_count(table: &[u64], h: Sizes) -> u64
    requires { InRange h × (over_count table.now ≤ 65536) }
    ensures { (result ≡ entries h table.now) × (result ≤ 327680) }
{
    h.d + head::over_count(table)
}

// The members of entry e.
#[tactic(auto, unfolding(crate::specs::Counts::entry_size))]
fn entry_size(h: Sizes, pages: &[u64], counts: &[u32], table: &[u64], e: u64) -> u64
    requires { InRange h × (e ≤ 327680)
        × (h.p * wide h ≤ length pages.now) × BlocksCounted h pages.now counts.now × Inside h (place_at h table.now e) }
    ensures { result ≡ entry_size h pages.now table.now e }
{
    match entry::place_at(table, h, e) {
        Place::Absent => 0,
        Place::Sparse(_, l) => l,
        Place::Dense(p) => blocks::page_size(h, pages, counts, p),
    }
}

// All of them, and the total.
#[tactic(auto, using(crate::proofs::Writing::entry_turn))]
pub fn put_prefixes(h: Sizes, pages: &[u64], counts: &[u32], table: &mut [u64]) -> u64
    requires { InRange h × (over_count table.old ≤ 65536)
        × (h.p * wide h ≤ length pages.now) × BlocksCounted h pages.now counts.now × Places h table.old }
    ensures { (result ≡ sum_to (entry_size h pages.now table.old) (entries h table.old)) × (table.new
        ≡ prefixed h table.old (sum_to (entry_size h pages.now table.old)) (entries h table.old)) }
{
    let mut sum: u64 = 0;
    for e in 0..entry_count(table, h) {
        let k = entry_size(h, pages, counts, table, e);
        write::put_prefix(table, h, e, sum);
        sum += k;
    }
    sum
}

// None of them.
#[tactic(auto, using(crate::proofs::Writing::entry_turn))]
pub fn clear_prefixes(h: Sizes, table: &mut [u64])
    requires { InRange h × (over_count table.old ≤ 65536) }
    ensures { table.new ≡ prefixed h table.old (λ _. 0) (entries h table.old) }
{
    for e in 0..entry_count(table, h) {
        write::put_prefix(table, h, e, 0);
    }
}

// The mode and the total.
pub fn mark(table: &mut [u64], mode: u64, total: u64)
    ensures { table.new ≡ headed table.old mode total }
{
    head::put_total(table, total);
    head::put_mode(table, mode);
}
