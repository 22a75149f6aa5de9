// How the rank space is cut: members in all, members of a partition, partitions. The boundaries stand in a lent slice.
#[derive(Clone, Copy)]
pub struct Plan {
    pub total: u64,
    pub slots: u64,
    pub partitions: u64,
}

// An interval of ids: its low end, and its high end, excluded, or none.
#[derive(Clone, Copy)]
pub enum Span {
    Between(i64, i64),
    From(i64),
}

// First rank and count of a partition.
#[derive(Clone, Copy)]
pub struct Ranks {
    pub first: u64,
    pub count: u64,
}
