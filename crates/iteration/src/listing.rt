// Iteration: a record with the 64 smallest members not below a start, from the entries one by one.
ghost use Rattle.std.specs.Prelude.{◌≡◌, true, ◌+◌, ◌-◌, ◌*◌, ◌^◌, ◌≤◌, ◌<◌, pos, length, get_or};
ghost use Rattle.std.proofs.Math.IntN.{suc_ℤ};
ghost use Rattle.document.specs.Calls.{iterate, listed};
ghost use Rattle.document.specs.Iteration.{blank, refused_listing};
ghost use Rattle.document.specs.Refusals.{number};
ghost use Rattle.document.specs.Sizes.{top, last_chunk};
ghost use Rattle.layout.specs.Mem.{mem};
ghost use Rattle.layout.specs.Sizes.{header_at, head};
ghost use Rattle.calls.specs.Reading.{spot_by};
ghost use Rattle.calls.specs.Counts.{entries_ok};
ghost use Rattle.calls.specs.Range.{any_by, clip_low};
ghost use Rattle.calls.specs.Iteration.{to, filled_at, fill_entry, fill_run, fill_from, record_by};
ghost use Rattle.contracts.specs.Does.{Answers};
ghost use Rattle.iteration.specs.Turns.{Leaves};

use document::answer::Listing;
use document::refusal::Refusal;
use entries::clip;
use layout::find::Spot;
use layout::{entry, find, head};
use numbers::power;
use scan::range;

// The ids of the part that word w names, from an offset on, in the chunk whose first id is base. Answers the first place that is unused then.
fn fill_at(
    pages: &[u64],
    rows: &[u32],
    blocks: &[u32],
    table: &[u64],
    base: u64,
    from: u64,
    w: u64,
    out: &mut [i64],
    k: usize,
) -> Result<usize, Refusal>
    requires { (9 ≤ (header_at table.now).s) × ((header_at table.now).s ≤ 25) × (base + 2 ^ (header_at table.now).s ≤ 2 ^ 63)
        × (from < 2 ^ (header_at table.now).s) × (k ≤ length out.old) }
    ensures { let x = mem pages.now rows.now blocks.now table.now in
        Leaves result out.new (filled_at x base from out.old k (spot_by x w)) }
{
    match find::spot_of(pages, rows, table, w)? {
        Spot::Nowhere => Ok(k),
        Spot::Row(i, n, l) => {
            let j = i + n;
            let s = head::shift(table);
            Ok(sparse::list::ids(&rows[i..j], l, from as u32, base, s, out, k))
        }
        Spot::Page(i, n) => {
            let j = i + n;
            Ok(dense::list::ids(&pages[i..j], from, base, out, k))
        }
    }
}

// The ids of chunk c that are not below lo, where the chunk's word is w.
fn fill_chunk(
    pages: &[u64],
    rows: &[u32],
    blocks: &[u32],
    table: &[u64],
    lo: u64,
    c: u64,
    w: u64,
    out: &mut [i64],
    k: usize,
) -> Result<usize, Refusal>
    requires { (entries_ok table.now ≡ true) × (c < last_chunk (header_at table.now)) × (k ≤ length out.old) }
    ensures { let x = mem pages.now rows.now blocks.now table.now in
        Leaves result out.new (filled_at x (c * top (head x)) (clip_low (top (head x)) lo c) out.old k (spot_by x w)) }
{
    let s = head::shift(table);
    let base = power::shifted(c, s);
    let from = clip::low(s, lo, c);
    fill_at(pages, rows, blocks, table, base, from, w, out, k)
}

// Those of entry e. Most entries are absent: a look at the word, and no more.
fn fill_entry(
    pages: &[u64],
    rows: &[u32],
    blocks: &[u32],
    table: &[u64],
    lo: u64,
    e: u64,
    out: &mut [i64],
    k: usize,
) -> Result<usize, Refusal>
    requires { (entries_ok table.now ≡ true) × (e ≤ 327680) × (k ≤ length out.old) }
    ensures { let x = mem pages.now rows.now blocks.now table.now in
        Leaves result out.new (fill_entry x lo e out.old k) }
{
    let s = head::shift(table);
    let c = entries::chunk(table, e);
    if power::pow2(63 - s) <= c {
        return Err(Refusal::NotLaidOut);
    }
    let w = entry::word_by(table, e);
    if w == 0 {
        return Ok(k);
    }
    fill_chunk(pages, rows, blocks, table, lo, c, w, out, k)
}

// Those of the entries from e to n - 1, while the record has room.
fn fill_run(
    pages: &[u64],
    rows: &[u32],
    blocks: &[u32],
    table: &[u64],
    lo: u64,
    e: u64,
    n: u64,
    out: &mut [i64],
) -> Result<usize, Refusal>
    requires { (entries_ok table.now ≡ true) × (n ≤ 327680) × (64 ≤ length out.old) }
    ensures { let x = mem pages.now rows.now blocks.now table.now in
        Leaves result out.new (fill_run x lo (n - e) e out.old 0) }
{
    let mut k: usize = 0;
    for i in e..n {
        if k >= 64 {
            break;
        }
        k = fill_entry(pages, rows, blocks, table, lo, i, out, k)?;
    }
    Ok(k)
}

// Those that are not below lo, of all entries, into a blank record.
fn fill_from(
    pages: &[u64],
    rows: &[u32],
    blocks: &[u32],
    table: &[u64],
    lo: u64,
    out: &mut [i64],
) -> Result<usize, Refusal>
    requires { (entries_ok table.now ≡ true) × (out.old ≡ blank) }
    ensures { let x = mem pages.now rows.now blocks.now table.now in
        Leaves result out.new (fill_from x lo) }
{
    let e = clip::first(table, lo);
    let n = entries::number(table);
    fill_run(pages, rows, blocks, table, lo, e, n, out)
}

// Whether a member lies past an id. None lies past the largest, and no id past it is formed.
fn any_past(
    pages: &[u64],
    rows: &[u32],
    blocks: &[u32],
    table: &[u64],
    last: i64,
) -> Result<bool, Refusal>
    requires { entries_ok table.now ≡ true }
    ensures { let x = mem pages.now rows.now blocks.now table.now in
        result ≡ any_by x (suc_ℤ last) (pos (2 ^ 63 - 1)) }
{
    if last == i64::MAX {
        return Ok(false);
    }
    range::any_in_range(pages, rows, blocks, table, last + 1, i64::MAX)
}

// Every field but the refusal is 0.
fn refused(n: Refusal) -> Listing
    ensures { result ≡ refused_listing (number n) }
{
    Listing {
        ids: [0; 64],
        count: 0,
        end: false,
        next: 0,
        refusal: n.number(),
    }
}

// The record of k ids. Where it is full, one range test past its last id decides the mark.
fn record_of(
    pages: &[u64],
    rows: &[u32],
    blocks: &[u32],
    table: &[u64],
    ids: [i64; 64],
    k: usize,
    start: i64,
) -> Listing
    requires { entries_ok table.now ≡ true }
    ensures { let x = mem pages.now rows.now blocks.now table.now in
        result ≡ record_by x start (to ids k) }
{
    let count = k as u64;
    if count < 64 {
        return Listing {
            ids,
            count,
            end: true,
            next: start,
            refusal: 0,
        };
    }
    let last = ids[63];
    match any_past(pages, rows, blocks, table, last) {
        Ok(more) => Listing {
            ids,
            count,
            end: !more,
            next: if more { last + 1 } else { start },
            refusal: 0,
        },
        Err(n) => refused(n),
    }
}

// The 64 smallest members not below start, or all if fewer, with a mark that says whether that is all. A negative start is read as 0.
pub fn iter_from(pages: &[u64], rows: &[u32], blocks: &[u32], table: &[u64], start: i64) -> Listing
    ensures { let x = mem pages.now rows.now blocks.now table.now in
        Answers x (iterate start) (listed result) }
{
    if !entries::are(table) {
        return refused(Refusal::NotLaidOut);
    }
    let lo = clip::from_zero(start);
    let mut ids = [0i64; 64];
    match fill_from(pages, rows, blocks, table, lo, &mut ids) {
        Ok(k) => record_of(pages, rows, blocks, table, ids, k, start),
        Err(n) => refused(n),
    }
}
