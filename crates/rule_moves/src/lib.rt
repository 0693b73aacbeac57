// The open reactions by one rule: how many there are, and those on a page.
#![tactic(auto)]

mod grouped;
mod plain;
mod rule;

pub use rule::{is_open, moves_by, takes_of};
