// The fields of words, one module for each kind of word, copying, and searching. No other code knows how a word
// holds its fields.
#![tactic(auto)]

pub mod atom;
pub mod copy;
pub mod head;
pub mod item;
pub mod origin;
pub mod picks;
pub mod search;
