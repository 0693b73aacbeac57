// What an allowed reaction leaves.
#![tactic(auto)]

pub mod append;
mod merge;
pub mod react;
