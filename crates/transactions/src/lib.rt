// The transactions open in a working state: sets of their ids by how they may end, and their ids in order.
#![tactic(auto)]

pub mod ids;
pub mod sets;
