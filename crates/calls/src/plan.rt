// What an insert is to do, found before anything is written. Where it can't be done, the refusal stands in its place.
#[derive(Clone, Copy, Debug, PartialEq, Eq)]
pub enum Plan {
    // negative, or a member already
    Known,
    // a bit of this page
    Mark(u64),
    // into a row with room: the row, its members, the place
    Enter(u64, usize, usize),
    // a new chunk, in this row
    Begin(u64),
    // a full row into a page: the row, its members, the page
    Turn(u64, usize, u64),
}
