// The answer of iteration. Every other call answers a value or a refusal.

// Up to 64 member ids, ascending, with zeros in unused places; whether none is left out, and where the next record starts.
// It is C's own as it stands: a refusal has a field of its own, document 01's number or 0, and every other field is 0 beside one.
#[repr(C)]
#[derive(Clone, Copy)]
pub struct Listing {
    pub refusal: u64,
    pub ids: [i64; 64],
    pub count: u64,
    pub end: bool,
    pub next: i64,
}
