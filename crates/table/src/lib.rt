// The table: its parts and its check (01, "Recipe table") with the index of its rules.
#![tactic(auto)]

mod index;
pub mod parts;
pub mod verdict;

pub use parts::sizes_of;
pub use verdict::check;
