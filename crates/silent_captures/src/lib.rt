//! What tests hand over where names are captured: each name gets an expression, and nothing is noted.
#![tactic(auto)]

mod silent;

pub use silent::Silent;
