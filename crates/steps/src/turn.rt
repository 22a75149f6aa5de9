// A chunk that turns dense leaves its row and enters its page.
ghost use Rattle.std.specs.Prelude.{◌≡◌, List, ℕ, ◌+◌, ◌*◌, ◌^◌, ◌≤◌, ◌<◌, length, replicate};
ghost use Rattle.dense.specs.Bits.{with_row};
ghost use Rattle.document.specs.Sizes.{InRange, top};
ghost use Rattle.layout.specs.Mem.{mem};
ghost use Rattle.layout.specs.Sizes.{wide, over_count};
ghost use Rattle.layout.specs.Places.{encoded, row_part, page_part};
ghost use Rattle.layout.specs.declared.place.Place.TheVariants.{Sparse, Dense};
ghost use Rattle.layout.specs.Writes.{put_part, put_word, put_row_owner, put_page_owner, put_row};
ghost use Rattle.steps.specs.Steps.{paged};
ghost use Rattle.steps.specs.Ready.{Fillable};

use document::sizes::Sizes;
use layout::{head, place};
use layout_writes::write;
use numbers::power;

// Row r is free again: filled with zeros.
pub fn free_row(rows: &mut [u32], h: Sizes, r: u64)
    requires { InRange h × (r < h.r) × (h.r * h.m ≤ length rows.old) }
    ensures { rows.new ≡ put_row h rows.old r (replicate h.m 0) }
{
    let a = head::row_at(h, r) as usize;
    let e = a + h.m as usize;
    rows[a..e].fill(0);
}

// Chunk c stands in page p, and row r, which it had, has no owner.
pub fn turn_entry(table: &mut [u64], h: Sizes, c: u64, r: u64, p: u64)
    requires { InRange h × (r < h.r) × (p < h.p) × (over_count table.old ≤ 65536) × (c < 2 ^ 62) }
    ensures { table.new ≡ put_page_owner h (put_row_owner h (put_word h table.old c (encoded (Dense p))) r 0) p (c + 1) }
{
    write::put_word(table, h, c, place::page_word(p));
    write::put_row_owner(table, h, r, 0);
    write::put_page_owner(table, h, p, c + 1);
}

// Page p gets the l members of row r.
pub fn fill_page(pages: &mut [u64], rows: &[u32], h: Sizes, r: u64, l: usize, p: u64)
    requires { Fillable h (length pages.old) (length rows.now) r l × (p < h.p) }
    ensures { pages.new ≡ put_part pages.old (p * wide h) (wide h)
        (with_row (page_part h pages.old p) (row_part h rows.now r) (top h) l) }
{
    let a = head::row_at(h, r) as usize;
    let e = a + h.m as usize;
    let b = head::page_at(h, p) as usize;
    let f = b + power::pow2(h.s - 6) as usize;
    dense::write_row(&mut pages[b..f], &rows[a..e], l, h.s);
}

// Chunk c, absent until now, stands in page p.
pub fn enter_page(table: &mut [u64], h: Sizes, c: u64, p: u64)
    requires { InRange h × (p < h.p) × (over_count table.old ≤ 65536) × (c < 2 ^ 62) }
    ensures { table.new ≡ put_page_owner h (put_word h table.old c (encoded (Dense p))) p (c + 1) }
{
    write::put_word(table, h, c, place::page_word(p));
    write::put_page_owner(table, h, p, c + 1);
}

// Chunk c, until now the l members of row r, stands in page p, and the row is free again.
#[tactic(auto, unfolding(crate::specs::Steps::paged))]
pub fn turn_row(
    pages: &mut [u64],
    rows: &mut [u32],
    table: &mut [u64],
    h: Sizes,
    c: u64,
    r: u64,
    l: u64,
    p: u64,
)
    requires { Fillable h (length pages.old) (length rows.old) r l × (p < h.p) × (over_count table.old ≤ 65536) × (c < 2 ^ 62) }
    ensures { let ps = pages.old in
        let rs = rows.old in
        (bs : List ℕ) → mem pages.new rows.new bs table.new
        ≡ paged h (mem ps rs bs table.old) c (Sparse r l) p (with_row (page_part h ps p) (row_part h rs r) (top h) l) }
{
    fill_page(pages, rows, h, r, l as usize, p);
    free_row(rows, h, r);
    turn_entry(table, h, c, r, p);
}
