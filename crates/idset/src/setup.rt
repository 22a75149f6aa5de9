// Set-up: lent slices become an empty open set; elements past the sizes stay.
ghost use Rattle.layout.specs.Mem.{mem};
ghost use Rattle.layout.specs.SetUp.{sizes_of};
ghost use Rattle.contracts.specs.Does.{SetsUp};

use document::refusal::Refusal;
use document::sizes::Sizes;
use layout_writes::setup as lent;

// Makes an empty open set of these sizes in lent memory, whatever it held, or refuses and changes nothing.
pub fn set_up(
    s: u64,
    m: u64,
    d: u64,
    v: u64,
    r: u64,
    p: u64,
    pages: &mut [u64],
    rows: &mut [u32],
    blocks: &mut [u32],
    table: &mut [u64],
) -> Result<(), Refusal>
    ensures { let x = mem pages.old rows.old blocks.old table.old in
        let y = mem pages.new rows.new blocks.new table.new in
        SetsUp (sizes_of s m d v r p) x result y }
{
    let h = Sizes { s, m, d, v, r, p };
    lent::allowed(
        h,
        pages.len() as u64,
        rows.len() as u64,
        blocks.len() as u64,
        table.len() as u64,
    )?;
    lent::make_fresh(h, pages, rows, blocks, table);
    Ok(())
}
