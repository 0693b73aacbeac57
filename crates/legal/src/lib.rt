// A rule as a slice of atoms: its class and roles, and whether it is legal.
#![tactic(auto)]

mod atom;
pub mod rule;
