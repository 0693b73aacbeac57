// What an unattended run keeps beside the columns from move to move: the transactions that have an abort mark, and how many
// messages rules may consume from each port.
#![tactic(auto)]

mod ended;
mod moves;
mod reacted;
mod start;

pub use moves::make_tracked;
pub use start::track;
