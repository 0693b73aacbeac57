// A rule whose picks are all in one transaction: its choices by keys, group * 512 + port, where the group is the transaction's.
#![tactic(auto)]

mod counts;
mod pages;

pub use counts::count_groups;
pub use pages::{group_page, group_total, shifted, widths_in};
