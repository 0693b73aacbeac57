// The transactions that have an abort mark (stop mark), as a set of ids that is kept from move to move.
#![tactic(auto)]

mod after;
mod gather;

pub use after::{stop_last, unstop};
pub use gather::gather_stopped;
