//! Tests of `printer` through its public calls. They stand in a crate of their own because a crate with tests is proved twice.
#![tactic(auto)]

#[cfg(test)]
mod printed;
#[cfg(test)]
mod summary;
