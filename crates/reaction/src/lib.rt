// When a reaction is allowed, by its picks.
#![tactic(auto)]

pub mod picks;
pub mod verdict;
