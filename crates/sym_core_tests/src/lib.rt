//! Tests of `sym_core` through its public calls. They stand in a crate of their own because a crate with tests is proved twice.
#![tactic(auto)]

#[cfg(test)]
mod files;
#[cfg(test)]
mod name;
#[cfg(test)]
mod symbol;
