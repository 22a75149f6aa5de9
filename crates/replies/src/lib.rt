// What the program replay reads and writes: lines, their verbs and words; answers as lines; the memory of a set, to be poked and dumped. A crate of its own,
// so that it is proved beside the entries and not after them.
#![tactic(auto)]

pub mod input;
pub mod memory;
pub mod say;
pub mod told;
pub mod verb;
