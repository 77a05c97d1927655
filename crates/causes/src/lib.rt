//! What a count of faults says about an answer that blames the outside. It has definitions alone, which the crates
//! that speak with the outside share.
#![tactic(auto)]
