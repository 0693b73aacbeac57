// The end of a transaction, commit (release) or abort (call-off): when it is allowed, and what it leaves.
#![tactic(auto)]

pub mod free;
pub mod survey;
pub mod verdict;
