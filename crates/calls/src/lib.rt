// The public calls, on word slices of any length and content. None asks anything of its caller; each
// says its answer and the target's whole contents by an equation with semantics' Answers.
#![tactic(auto)]

mod checks;
mod logs;
mod moves;
mod pages;
mod previews;
mod serials;

pub use checks::{check_state, check_table};
pub use logs::run;
pub use moves::make_move;
pub use pages::list_moves;
pub use previews::preview;
pub use serials::serialize;
pub use unattended::run_unattended;
