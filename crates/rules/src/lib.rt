// The rules of a well-formed table: one decoded, how many consumes it has, whether an opening one emits.
#![tactic(auto)]

pub mod decode;
pub mod emits;
