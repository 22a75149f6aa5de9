// Union before anything is written: where a chunk stands on either side, whether its union is dense, what the map after needs, and the verdict.
#![tactic(auto)]

pub mod judge;
pub mod kind;
pub mod place;
pub mod plan;
