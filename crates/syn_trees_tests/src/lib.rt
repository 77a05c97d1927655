//! Tests of `syn_trees` through its public calls. They stand in a crate of their own because a crate with tests is proved twice.
#![tactic(auto)]

#[cfg(test)]
mod escape;
#[cfg(test)]
mod quoted;
#[cfg(test)]
mod string_lit;
#[cfg(test)]
mod tt_iter;
