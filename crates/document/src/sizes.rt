// The six numbers of document 01's table of sizes.
#[derive(Clone, Copy)]
pub struct Sizes {
    pub s: u64,
    pub m: u64,
    pub d: u64,
    pub v: u64,
    pub r: u64,
    pub p: u64,
}
