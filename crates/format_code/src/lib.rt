//! The code of a format call as a tree: what its evaluation gives, and that template bytes over its
//! values mean the writes of the template. It has definitions and laws, and no arena.
#![tactic(auto)]

pub mod laws;
