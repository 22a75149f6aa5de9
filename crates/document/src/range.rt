// One record of a range list, as the block index of an extract has them: ids from low to high, both included, and a mark.
#[derive(Clone, Copy)]
pub struct Range {
    pub low: i64,
    pub high: i64,
    pub mark: bool,
}
