// The list of open moves: reactions by rule and picks, then commits, then aborts.
#![tactic(auto)]

mod list;
mod reactions;
mod tail;

pub use list::open_moves;
