// Slots of the destination with slots of the source: rows and pages, copied or united.
#![tactic(auto)]

pub mod page;
pub mod row;
