// Set-up: lent slices become an empty open set; elements past the sizes stay.
ghost use Rattle.std.specs.Prelude.{◌≡◌, ◌∷◌, cond, ◌≤◌, length, drop, Ok, Err};
ghost use Rattle.layout.specs.Mem.{mem};
ghost use Rattle.document.specs.Sizes.{InRange};
ghost use Rattle.layout.specs.Sizes.{Roomy, table_size};
ghost use Rattle.layout.specs.Tests.{in_range, roomy};
ghost use Rattle.layout.specs.SetUp.{fresh_table, fresh};
ghost use Rattle.document.specs.Refusals.{outside_sizes, too_short};

use document::refusal::Refusal;
use document::sizes::Sizes;
use layout::head;

// The sizes stand at the head of the table.
pub fn put_sizes(table: &mut [u64], h: Sizes)
    requires { 6 ≤ length table.old }
    ensures { table.new ≡ h.s ∷ h.m ∷ h.d ∷ h.v ∷ h.r ∷ h.p ∷ drop 6 table.old }
{
    table[..6].copy_from_slice(&[h.s, h.m, h.d, h.v, h.r, h.p]);
}

// The table of an empty open set.
pub fn fresh_table(table: &mut [u64], h: Sizes)
    requires { InRange h × (table_size h ≤ length table.old) }
    ensures { table.new ≡ fresh_table h table.old }
{
    table[..(16 + 2 * h.d + 3 * h.v + h.r + h.p) as usize].fill(0);
    put_sizes(table, h);
}

// All four slices of an empty open set.
pub fn make_fresh(
    h: Sizes,
    pages: &mut [u64],
    rows: &mut [u32],
    blocks: &mut [u32],
    table: &mut [u64],
)
    requires { InRange h × Roomy h (length pages.old) (length rows.old) (length blocks.old) (length table.old) }
    ensures { let x = mem pages.old rows.old blocks.old table.old in
        mem pages.new rows.new blocks.new table.new ≡ fresh h x }
{
    pages[..head::page_at(h, h.p) as usize].fill(0);
    rows[..head::row_at(h, h.r) as usize].fill(0);
    blocks[..head::block_at(h, h.p) as usize].fill(0);
    fresh_table(table, h);
}

// Set-up with these sizes and lengths, or why it is refused.
pub fn allowed(h: Sizes, pages: u64, rows: u64, blocks: u64, table: u64) -> Result<(), Refusal>
    ensures { result ≡ cond (in_range h) (cond (roomy h pages rows blocks table) (Ok tt) (Err too_short)) (Err outside_sizes) }
{
    if !head::in_range(h) {
        return Err(Refusal::OutsideSizes);
    }
    if !head::has_room(h, pages, rows, blocks, table) {
        return Err(Refusal::TooShort);
    }
    Ok(())
}
