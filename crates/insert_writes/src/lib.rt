// What a plan writes, a function for each slice or two.
#![tactic(auto)]

ghost use Rattle.std.specs.Prelude.{◌≡◌, List, not, ℕ, ◌+◌, ◌*◌, ◌^◌, ◌≤◌, ◌<◌, length, set, take, drop};
ghost use Rattle.sparse.specs.Edit.{inserted_at};
ghost use Rattle.dense.specs.Bits.{is_set, with_bit, with_row};
ghost use Rattle.layout.specs.Mem.{mem};
ghost use Rattle.document.specs.Sizes.{InRange, top};
ghost use Rattle.layout.specs.Sizes.{wide, header_at, over_count};
ghost use Rattle.layout.specs.Places.{encoded, row_part, page_part};
ghost use Rattle.layout.specs.declared.place.Place.TheVariants.{Sparse};
ghost use Rattle.layout.specs.Writes.{put_part, put_word, put_row_owner, put_row, put_page};
ghost use Rattle.calls.specs.Insert.{acted, told};
ghost use Rattle.insert_plan.specs.Ready.{MarkReady, EnterReady, Ready};

use calls::plan::Plan;
use document::refusal::Refusal;
use document::sizes::Sizes;
use layout::{head, place};
use layout_writes::write;
use numbers::power;
use steps::turn;

// A bit of a page of n words from a on, and whether it was clear.
pub fn mark(pages: &mut [u64], a: usize, n: usize, o: u64) -> bool
    requires { (a + n ≤ length pages.old) × (o < 64 * n) }
    ensures { let page = take n (drop a pages.old) in
        (result ≡ not (is_set page o)) × (pages.new ≡ put_part pages.old a n (with_bit page o)) }
{
    dense::insert(&mut pages[a..a + n], o)
}

// Offset o of page p.
fn mark_page(pages: &mut [u64], h: Sizes, p: u64, o: u64)
    requires { MarkReady pages.old o p h }
    ensures { pages.new ≡ put_page h pages.old p (with_bit (page_part h pages.old p) o) }
{
    let a = power::scaled(p, h.s - 6) as usize;
    let n = power::pow2(h.s - 6) as usize;
    mark(pages, a, n, o);
}

// Offset o of chunk c at place k of row r, which had l members.
fn enter(rows: &mut [u32], table: &mut [u64], c: u64, o: u64, r: u64, l: usize, k: usize)
    requires { EnterReady rows.old table.old c o r l k (header_at table.old) }
    ensures { let h = header_at table.old in
        (rows.new ≡ put_row h rows.old r (inserted_at (row_part h rows.old r) l k o))
        × (table.new ≡ put_word h table.old c (encoded (Sparse r (l + 1)))) }
{
    let m = head::row_size(table);
    let a = power::times(r, m) as usize;
    sparse::insert_at(&mut rows[a..a + m as usize], l, k, o as u32);
    write::set_word(table, c, place::row_word(r, l as u64 + 1));
}

// Offset o of chunk c at i, the place behind its row's members, and its word w, which counts one more.
pub fn append(rows: &mut [u32], table: &mut [u64], c: u64, o: u64, w: u64, i: usize)
    requires { (i < length rows.old) × (o < 2 ^ 32) × (w < 2 ^ 28) × (c < 2 ^ 62) × (c < (header_at table.old).d) }
    ensures { (rows.new ≡ set rows.old i o)
        × (table.new ≡ put_word (header_at table.old) table.old c (w + 1)) }
{
    rows[i] = o as u32;
    write::set_word(table, c, w + 1);
}

// A free row r with one offset.
fn begin_row(rows: &mut [u32], h: Sizes, r: u64, o: u64)
    requires { InRange h × (r < h.r) × (h.r * h.m ≤ length rows.old) × (o < 2 ^ 32) }
    ensures { rows.new ≡ put_row h rows.old r (inserted_at (row_part h rows.old r) 0 0 o) }
{
    let a = head::row_at(h, r) as usize;
    sparse::insert_at(&mut rows[a..a + h.m as usize], 0, 0, o as u32);
}

// Chunk c stands in row r with one member.
fn begin_entry(table: &mut [u64], h: Sizes, c: u64, r: u64)
    requires { InRange h × (r < h.r) × (over_count table.old ≤ 65536) × (c < 2 ^ 62) }
    ensures { table.new ≡ put_row_owner h (put_word h table.old c (encoded (Sparse r 1))) r (c + 1) }
{
    write::put_word(table, h, c, place::row_word(r, 1));
    write::put_row_owner(table, h, r, c + 1);
}

// Words with the bits of a row's first l offsets and of offset o.
fn fill(words: &mut [u64], row: &[u32], l: usize, s: u64, o: u64)
    requires { (l ≤ length row.now) × (s < 64) × (2 ^ s ≤ 64 * length words.old) × (o < 64 * length words.old) }
    ensures { words.new ≡ with_bit (with_row words.old row.now (2 ^ s) l) o }
{
    dense::write_row(words, row, l, s);
    dense::insert(words, o);
}

// Page p gets the l members of row r and offset o.
fn turn_page(pages: &mut [u64], rows: &[u32], h: Sizes, r: u64, l: usize, p: u64, o: u64)
    requires { InRange h × (r < h.r) × (p < h.p) × (h.r * h.m ≤ length rows.now) × (h.p * wide h ≤ length pages.old)
        × (l ≤ h.m) × (o < top h) }
    ensures { pages.new ≡ put_page h pages.old p
        (with_bit (with_row (page_part h pages.old p) (row_part h rows.now r) (top h) l) o) }
{
    let a = head::row_at(h, r) as usize;
    let b = head::page_at(h, p) as usize;
    let n = power::pow2(h.s - 6) as usize;
    fill(&mut pages[b..b + n], &rows[a..a + h.m as usize], l, h.s, o);
}

// What the plan says, of chunk c and offset o, whatever the block counts are.
#[tactic(auto, unfolding(steps::specs::Steps::rowed, steps::specs::Steps::paged))]
pub fn act(
    pages: &mut [u64],
    rows: &mut [u32],
    table: &mut [u64],
    c: u64,
    o: u64,
    q: Result<Plan, Refusal>,
) -> Result<bool, Refusal>
    requires { Ready pages.old rows.old table.old c o q }
    ensures { (b : List ℕ) → told result (mem pages.new rows.new b table.new)
        ≡ acted (mem pages.old rows.old b table.old) c o q }
{
    match q? {
        Plan::Known => Ok(false),
        Plan::Mark(p) => {
            let h = head::read(table);
            mark_page(pages, h, p, o);
            Ok(true)
        }
        Plan::Enter(r, l, k) => {
            enter(rows, table, c, o, r, l, k);
            Ok(true)
        }
        Plan::Begin(r) => {
            let h = head::read(table);
            begin_row(rows, h, r, o);
            begin_entry(table, h, c, r);
            Ok(true)
        }
        Plan::Turn(r, l, p) => {
            let h = head::read(table);
            turn_page(pages, rows, h, r, l, p, o);
            turn::free_row(rows, h, r);
            turn::turn_entry(table, h, c, r, p);
            Ok(true)
        }
    }
}
