// An offset of any chunk: into the part that the chunk's word names. Only a new chunk and a row need a plan.
ghost use Rattle.std.specs.Prelude.{◌≡◌, ℕ, ◌^◌, ◌≤◌, ◌<◌};
ghost use Rattle.layout.specs.Mem.{mem};
ghost use Rattle.layout.specs.Sizes.{header_at};
ghost use Rattle.layout.specs.Places.{decoded};
ghost use Rattle.layout.specs.declared.place.Place.TheVariants.{Sparse};
ghost use Rattle.calls.specs.Insert.{insert_plan, prepared_plan, acted, told};

use document::refusal::Refusal;
use layout::find::Spot;
use layout::place::Place;
use layout::{find, place};

// The row that a sparse chunk's word names.
fn row_of(w: u64) -> u64
    ensures { (k l : ℕ) → decoded w ≡ Sparse k l → result ≡ k }
{
    match place::decode(w) {
        Place::Sparse(r, _) => r,
        Place::Absent | Place::Dense(_) => 0,
    }
}

// Offset o of chunk c, where chunks have 2^s ids.
#[tactic(auto, unfolding(calls::specs::Insert::insert_plan, layout::specs::Short::spot_of))]
pub fn put(
    pages: &mut [u64],
    rows: &mut [u32],
    blocks: &[u32],
    table: &mut [u64],
    s: u64,
    c: u64,
    o: u64,
) -> Result<bool, Refusal>
    requires { (9 ≤ s) × (s ≤ 25) × (s ≡ (header_at table.old).s) × (c < 2 ^ 62) × (o < 2 ^ s) }
    ensures { let x = mem pages.old rows.old blocks.now table.old in
        let y = mem pages.new rows.new blocks.now table.new in
        told result y ≡ acted x c o (insert_plan x c o) }
{
    let w = find::word_of(table, c)?;
    match find::spot_of(pages, rows, table, w)? {
        Spot::Nowhere => {
            let q = insert_plan::begin(pages, rows, blocks, table, c);
            insert_writes::act(pages, rows, table, c, o, q)
        }
        Spot::Row(_, _, l) => {
            let q = insert_plan::row(pages, rows, blocks, table, o, row_of(w), l);
            insert_writes::act(pages, rows, table, c, o, q)
        }
        Spot::Page(a, n) => Ok(insert_writes::mark(pages, a, n, o)),
    }
}

// The prepared insert: only into a dense chunk.
#[tactic(auto, unfolding(calls::specs::Insert::prepared_plan, layout::specs::Short::spot_of))]
pub fn put_prepared(
    pages: &mut [u64],
    rows: &[u32],
    blocks: &[u32],
    table: &[u64],
    s: u64,
    c: u64,
    o: u64,
) -> Result<bool, Refusal>
    requires { (9 ≤ s) × (s ≤ 25) × (s ≡ (header_at table.now).s) × (c < 2 ^ 62) × (o < 2 ^ s) }
    ensures { let x = mem pages.old rows.now blocks.now table.now in
        let y = mem pages.new rows.now blocks.now table.now in
        told result y ≡ acted x c o (prepared_plan x c o) }
{
    let w = find::word_of(table, c)?;
    match find::spot_of(pages, rows, table, w)? {
        Spot::Nowhere => Err(Refusal::NotPrepared),
        Spot::Row(..) => Err(Refusal::NotPrepared),
        Spot::Page(a, n) => Ok(insert_writes::mark(pages, a, n, o)),
    }
}
