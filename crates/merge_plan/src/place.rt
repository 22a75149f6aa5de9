// Where a chunk stands: in the destination by its id, in the source by its entry. A place that is not one of the sizes' is none.
ghost use Rattle.std.specs.Prelude.{◌≡◌, true, List, ℕ, ◌^◌, ◌≤◌, ◌<◌};
ghost use Rattle.document.specs.Sizes.{InRange};
ghost use Rattle.layout.specs.Mem.{mem};
ghost use Rattle.layout.specs.Sizes.{header_at};
ghost use Rattle.unions.specs.Union.{fits, fitted, standing, source};

use document::sizes::Sizes;
use layout::place::Place;
use layout::{entry, find, place};

// Whether a place is one of the sizes'.
fn fits(h: Sizes, q: Place) -> bool
    ensures { result ≡ fits h q }
{
    match q {
        Place::Absent => true,
        Place::Sparse(r, l) => (r < h.r) & (l <= h.m),
        Place::Dense(p) => p < h.p,
    }
}

fn fitted(h: Sizes, q: Place) -> Place
    ensures { (result ≡ fitted h q) × (fits h result ≡ true) }
{
    if fits(h, q) { q } else { Place::Absent }
}

// Chunk c of the destination, whatever its pools and its block counts hold.
#[tactic(auto, unfolding(unions::specs::Union::standing))]
pub fn standing(table: &[u64], h: Sizes, c: u64) -> Place
    requires { InRange h × (h ≡ header_at table.now) × (c < 2 ^ 62) }
    ensures { ((p r b : List ℕ) → result ≡ standing (mem p r b table.now) c) × (fits h result ≡ true) }
{
    match find::word_of(table, c) {
        Ok(w) => fitted(h, place::decode(w)),
        Err(_) => Place::Absent,
    }
}

// Entry e of the source, likewise.
#[tactic(auto, unfolding(unions::specs::Union::source))]
pub fn source(table: &[u64], g: Sizes, e: u64) -> Place
    requires { InRange g × (g ≡ header_at table.now) × (e ≤ 327680) }
    ensures { ((p r b : List ℕ) → result ≡ source (mem p r b table.now) e) × (fits g result ≡ true) }
{
    fitted(g, entry::place_at(table, g, e))
}
