// The part of a chunk after the walk: below D, where most chunks are, it is read off the entry without a test.
ghost use Rattle.std.specs.Prelude.{◌≡◌, ◌^◌, ◌<◌, Ok};
ghost use Rattle.layout.specs.Mem.{mem};
ghost use Rattle.layout.specs.Sizes.{head};
ghost use Rattle.layout.specs.Entries.{word_of};
ghost use Rattle.calls.specs.Reading.{spot_by};
ghost use Rattle.lists.specs.Ways.{Judged};

use document::refusal::Refusal;
use document::sizes::Sizes;
use layout::find::Spot;
use layout::place::Place;
use layout::{entry, find, head};
use numbers::power;

// A chunk past the direct entries: by the short test.
pub fn far(
    pages: &[u64],
    rows: &[u32],
    blocks: &[u32],
    table: &[u64],
    h: Sizes,
    c: u64,
) -> Result<Spot, Refusal>
    requires { Judged (mem pages.now rows.now blocks.now table.now) h × (c < 2 ^ 62) }
    ensures { let x = mem pages.now rows.now blocks.now table.now in
        result ≡ spot_by x (word_of (head x) x.table c) }
{
    find::spot_of(pages, rows, table, find::word_of(table, c)?)
}

// A chunk below D. Small, so that it is compiled into the loops.
pub fn of_chunk(
    pages: &[u64],
    rows: &[u32],
    blocks: &[u32],
    table: &[u64],
    h: Sizes,
    c: u64,
) -> Spot
    requires { Judged (mem pages.now rows.now blocks.now table.now) h × (c < h.d) }
    ensures { let x = mem pages.now rows.now blocks.now table.now in
        Ok result ≡ spot_by x (word_of (head x) x.table c) }
{
    match entry::place_at(table, h, c) {
        Place::Absent => Spot::Nowhere,
        Place::Sparse(r, l) => Spot::Row(head::row_at(h, r) as usize, h.m as usize, l as usize),
        Place::Dense(p) => Spot::Page(head::page_at(h, p) as usize, power::pow2(h.s - 6) as usize),
    }
}
