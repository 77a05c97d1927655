//! Tests of `hir_fmt` through its public calls. They stand in a crate of their own because a crate with tests is proved twice.
#![tactic(auto)]

#[cfg(test)]
mod collector;
#[cfg(test)]
mod format_args;
#[cfg(test)]
mod parser;
