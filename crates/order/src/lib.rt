// The serial order of a recorded log: the keys of its moves, and its places sorted by them.
#![tactic(auto)]

pub mod keys;
pub mod sort;
