//! Tests of `template_bytes` through its public calls. They stand in a crate of their own because a crate with tests is proved twice.
#![tactic(auto)]

#[cfg(test)]
mod pieces;
#[cfg(test)]
mod texts;
#[cfg(test)]
mod tokens;
