// The picked entries taken out of the columns.
#![tactic(auto)]

mod close;
mod in_order;
pub mod remove;
