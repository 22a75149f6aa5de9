// Chunks made dense, one after the other: a free page, the members of the chunk's row, the table.
ghost use Rattle.std.specs.Prelude.{◌≡◌, List, ℕ, ◌+◌};
ghost use Rattle.layout.specs.Mem.{mem};
ghost use Rattle.layout.specs.Sizes.{header_at};
ghost use Rattle.layout.specs.Entries.{place_of};
ghost use Rattle.calls.specs.Prepare.{into_page, densed_to};
ghost use Rattle.prepare.specs.Ready.{Sound, Turnable};

use document::sizes::Sizes;
use layout::place::Place;
use layout::{find, head, place};
use layout_walk::owners;
use steps::turn;

// Chunk c becomes dense in page p, unless it is dense already.
pub fn make_dense(pages: &mut [u64], rows: &mut [u32], table: &mut [u64], h: Sizes, c: u64, p: u64)
    requires { Turnable h pages.old rows.old table.old c p }
    ensures { (bs : List ℕ) → mem pages.new rows.new bs table.new
        ≡ into_page h (mem pages.old rows.old bs table.old) c p (place_of h table.old c) }
{
    let Ok(w) = find::word_of(table, c) else {
        return;
    };
    match place::decode(w) {
        Place::Absent => turn::enter_page(table, h, c, p),
        Place::Sparse(r, l) => turn::turn_row(pages, rows, table, h, c, r, l, p),
        Place::Dense(_) => {}
    }
}

// Chunks 0 to c become dense, in rising order, whatever the block counts are. Pages are only taken, so that none below p is free again.
pub fn make_all(pages: &mut [u64], rows: &mut [u32], table: &mut [u64], c: u64)
    requires { Sound pages.old rows.old table.old c }
    ensures { (bs : List ℕ) → mem pages.new rows.new bs table.new
        ≡ densed_to (header_at table.old) (mem pages.old rows.old bs table.old) (c + 1) }
{
    let h = head::read(table);
    let mut p = owners::free_page(table, h);
    for i in 0..c + 1 {
        make_dense(pages, rows, table, h, i, p);
        p = owners::next_page(table, h, p);
    }
}
