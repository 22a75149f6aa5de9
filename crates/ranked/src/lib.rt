// The ranked form: ranking, leaving it, ranks. Only what is touched is tested; a call that writes walks the table first.
#![tactic(auto)]

pub mod form;
mod mode;
pub mod rank;
