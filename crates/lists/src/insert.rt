// Inserts of a list: the single ones in turn. An answer says how far it came, so what was taken before a refusal stays taken.
ghost use Rattle.document.specs.Calls.{insert, whether};
ghost use Rattle.layout.specs.Mem.{mem};
ghost use Rattle.contracts.specs.Does.{Does};
ghost use Rattle.lists.specs.Inserts.{InsertsAll};

use document::refusal::Refusal;
use insert_ways::{direct, whole};

// How many ids were taken, and how many of them were new; 0, or the number that refused the next one. C's record: so a number, and no Option.
#[repr(C)]
#[derive(Clone, Copy)]
pub struct Inserted {
    pub taken: u64,
    pub fresh: u64,
    pub stop: u64,
}

// One id, as `set_if_new` does it. The short way stands here too, so that it is compiled into the loop.
fn one(
    pages: &mut [u64],
    rows: &mut [u32],
    blocks: &mut [u32],
    table: &mut [u64],
    id: i64,
) -> Result<bool, Refusal>
    ensures { let x = mem pages.old rows.old blocks.old table.old in
        let y = mem pages.new rows.new blocks.new table.new in
        Does x (insert id) (whether result) y }
{
    match direct::put(pages, rows, blocks, table, id) {
        Some(b) => Ok(b),
        None => whole::anywhere(pages, rows, blocks, table, id),
    }
}

// Inserts ids up to the first that is refused.
pub fn insert_all(
    ids: &[i64],
    pages: &mut [u64],
    rows: &mut [u32],
    blocks: &mut [u32],
    table: &mut [u64],
) -> Inserted
    ensures { let x = mem pages.old rows.old blocks.old table.old in
        let y = mem pages.new rows.new blocks.new table.new in
        InsertsAll x ids.now result y }
{
    let mut fresh: u64 = 0;
    for (taken, id) in ids.iter().enumerate() {
        match one(pages, rows, blocks, table, *id) {
            Ok(b) => fresh += u64::from(b),
            Err(n) => {
                return Inserted {
                    taken: taken as u64,
                    fresh,
                    stop: n.number(),
                };
            }
        }
    }
    Inserted {
        taken: ids.len() as u64,
        fresh,
        stop: 0,
    }
}
