// A single move on a working state.
#![tactic(auto)]

pub mod form;
pub mod make;
