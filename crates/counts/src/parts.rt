// The members of the entries one by one: 3 for an entry whose part is not inside its pool.
ghost use Rattle.std.specs.Prelude.{◌≡◌, true, cond, ◌≤◌, eqb, Ok, Err};
ghost use Rattle.document.specs.Refusals.{not_laid_out};
ghost use Rattle.layout.specs.Mem.{mem};
ghost use Rattle.calls.specs.Counts.{entries_ok, good_at, size_by};

use dense::words;
use document::refusal::Refusal;
use layout::find::Spot;

// The members of entry e.
pub fn size_at(
    pages: &[u64],
    rows: &[u32],
    blocks: &[u32],
    table: &[u64],
    e: u64,
) -> Result<u64, Refusal>
    requires { (entries_ok table.now ≡ true) × (e ≤ 327680) }
    ensures { let x = mem pages.now rows.now blocks.now table.now in
        result ≡ cond (good_at x e) (Ok (size_by x e)) (Err not_laid_out) }
{
    match entries::spot_at(pages, rows, blocks, table, e)? {
        Spot::Nowhere => Ok(0),
        Spot::Row(_, _, l) => Ok(l as u64),
        Spot::Page(a, n) => {
            let b = a + n;
            Ok(words::count(&pages[a..b]))
        }
    }
}

// Whether entry e has no member: a page is read up to its first.
pub fn is_empty_at(
    pages: &[u64],
    rows: &[u32],
    blocks: &[u32],
    table: &[u64],
    e: u64,
) -> Result<bool, Refusal>
    requires { (entries_ok table.now ≡ true) × (e ≤ 327680) }
    ensures { let x = mem pages.now rows.now blocks.now table.now in
        result ≡ cond (good_at x e) (Ok (eqb (size_by x e) 0)) (Err not_laid_out) }
{
    match entries::spot_at(pages, rows, blocks, table, e)? {
        Spot::Nowhere => Ok(true),
        Spot::Row(_, _, l) => Ok(l == 0),
        Spot::Page(a, n) => {
            let b = a + n;
            Ok(!dense::any_in(&pages[a..b], 0, 64 * (n as u64) - 1))
        }
    }
}
