// What the four lent slices mean: header, directory, slots. Here are their definitions, and the reads of the table.
#![tactic(auto)]

pub mod entry;
pub mod find;
pub mod head;
pub mod part;
pub mod place;
pub mod seat;
