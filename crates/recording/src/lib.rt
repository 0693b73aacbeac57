// The first pass of the serial log: the log is run, and what its order and its replay need is recorded.
#![tactic(auto)]

pub mod ends;
pub mod record;
