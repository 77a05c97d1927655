//! Tests of `script_tokens` through its public calls. They stand in a crate of their own because a crate with tests is proved twice.
#![tactic(auto)]

#[cfg(test)]
mod item_line;
#[cfg(test)]
mod lexer;
#[cfg(test)]
mod line;
#[cfg(test)]
mod reader;
