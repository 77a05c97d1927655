//! Laws on the scripts that are made: each is a script, and what it says; and how much its calls place.
#![tactic(auto)]

mod laws;

pub use laws::{made_are_scripts, made_place_few};
