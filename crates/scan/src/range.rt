// The range test: entries from the low end's chunk to the high end's, up to the first that doesn't answer no.
ghost use Rattle.std.specs.Prelude.{◌≡◌, true, ◌-◌, ◌^◌, ◌≤◌, ◌<◌, get_or};
ghost use Rattle.document.specs.Calls.{range_test, whether};
ghost use Rattle.layout.specs.Mem.{mem};
ghost use Rattle.layout.specs.Sizes.{header_at};
ghost use Rattle.calls.specs.Reading.{spot_by};
ghost use Rattle.calls.specs.Counts.{entries_ok};
ghost use Rattle.calls.specs.Range.{any_at, any_entry, any_run, any_from};
ghost use Rattle.contracts.specs.Does.{Answers};

use document::refusal::Refusal;
use entries::clip;
use layout::find::Spot;
use layout::{entry, find, head};
use numbers::{id as ids, power};

// Whether the part that word w names has an offset in a to b.
fn any_at(
    pages: &[u64],
    rows: &[u32],
    blocks: &[u32],
    table: &[u64],
    a: u64,
    b: u64,
    w: u64,
) -> Result<bool, Refusal>
    requires { (9 ≤ (header_at table.now).s) × ((header_at table.now).s ≤ 25) × (a < 2 ^ (header_at table.now).s) × (b < 2 ^ (header_at table.now).s) }
    ensures { let x = mem pages.now rows.now blocks.now table.now in
        result ≡ any_at x a b (spot_by x w) }
{
    match find::spot_of(pages, rows, table, w)? {
        Spot::Nowhere => Ok(false),
        Spot::Row(i, n, l) => {
            let j = i + n;
            Ok(sparse::any_in(&rows[i..j], l, a as u32, b as u32))
        }
        Spot::Page(i, n) => {
            let j = i + n;
            Ok(dense::any_in(&pages[i..j], a, b))
        }
    }
}

// Whether entry e has an id in lo to hi. Most entries are absent: a look at the word, and no more.
fn any_entry(
    pages: &[u64],
    rows: &[u32],
    blocks: &[u32],
    table: &[u64],
    lo: u64,
    hi: u64,
    e: u64,
) -> Result<bool, Refusal>
    requires { (entries_ok table.now ≡ true) × (e ≤ 327680) }
    ensures { let x = mem pages.now rows.now blocks.now table.now in
        result ≡ any_entry x lo hi e }
{
    let w = entry::word_by(table, e);
    if w == 0 {
        return Ok(false);
    }
    let s = head::shift(table);
    let c = entries::chunk(table, e);
    any_at(
        pages,
        rows,
        blocks,
        table,
        clip::low(s, lo, c),
        clip::high(s, hi, c),
        w,
    )
}

// The entries from e to n - 1, up to the first whose chunk is past hi's.
fn any_run(
    pages: &[u64],
    rows: &[u32],
    blocks: &[u32],
    table: &[u64],
    lo: u64,
    hi: u64,
    e: u64,
    n: u64,
) -> Result<bool, Refusal>
    requires { (entries_ok table.now ≡ true) × (n ≤ 327680) }
    ensures { let x = mem pages.now rows.now blocks.now table.now in
        result ≡ any_run x lo hi (n - e) e }
{
    let last = power::high(hi, head::shift(table));
    for i in e..n {
        if last < entries::chunk(table, i) {
            return Ok(false);
        }
        if any_entry(pages, rows, blocks, table, lo, hi, i)? {
            return Ok(true);
        }
    }
    Ok(false)
}

// Whether an id lies in lo to hi.
fn any_from(
    pages: &[u64],
    rows: &[u32],
    blocks: &[u32],
    table: &[u64],
    lo: u64,
    hi: u64,
) -> Result<bool, Refusal>
    requires { entries_ok table.now ≡ true }
    ensures { let x = mem pages.now rows.now blocks.now table.now in
        result ≡ any_from x lo hi }
{
    let e = clip::first(table, lo);
    any_run(
        pages,
        rows,
        blocks,
        table,
        lo,
        hi,
        e,
        entries::number(table),
    )
}

// Whether a member lies in min to max, both included. A negative min is read as 0.
pub fn any_in_range(
    pages: &[u64],
    rows: &[u32],
    blocks: &[u32],
    table: &[u64],
    min: i64,
    max: i64,
) -> Result<bool, Refusal>
    ensures { let x = mem pages.now rows.now blocks.now table.now in
        Answers x (range_test min max) (whether result) }
{
    if !entries::are(table) {
        return Err(Refusal::NotLaidOut);
    }
    let Some(hi) = ids::natural(max) else {
        return Ok(false);
    };
    let lo = clip::from_zero(min);
    if hi < lo {
        return Ok(false);
    }
    any_from(pages, rows, blocks, table, lo, hi)
}
