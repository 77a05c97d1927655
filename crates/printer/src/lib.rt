//! The printed form of outcomes: a line for each call, with the text of the code that it is lowered to, and a line for each
//! usage of a name in its literal, or for each operand that its templates put.
//! What is printed is said of the trees that the places of a store stand for.
#![tactic(auto)]

mod asm;
mod expr;
mod mapping;
mod printed;
mod summary;
mod words;

pub use printed::print_outcomes;
pub use summary::print_summary;
