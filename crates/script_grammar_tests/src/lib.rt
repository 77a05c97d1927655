//! Tests of `script_grammar` through its public calls. They stand in a crate of their own because a crate with tests is proved twice.
#![tactic(auto)]

#[cfg(test)]
mod asm;
#[cfg(test)]
mod limit;
#[cfg(test)]
mod line;
#[cfg(test)]
mod pred;
#[cfg(test)]
mod trees;
