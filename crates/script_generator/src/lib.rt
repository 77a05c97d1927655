//! Scripts that are made, and not written by hand: for each number one of a known shape, on which runs are measured and
//! compared.
#![tactic(auto)]

mod generated;

pub use generated::{MOST_ITEMS, MOST_NAMES, script_of};
