// Choices of places for the numbers that are wanted: how many there are, and a page of them.
#![tactic(auto)]

mod find;
mod page;
mod ways;

// A part of the list of open moves: its length, and how many of its moves were written.
#[derive(Clone, Copy)]
pub struct Part {
    pub length: u64,
    pub written: usize,
}

pub use find::next_with;
pub use page::{fill, is_picked, put};
pub use ways::{less, widths};
