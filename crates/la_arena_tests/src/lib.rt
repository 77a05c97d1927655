//! Tests of `la_arena` through its public calls. They stand in a crate of their own because a crate with tests is proved twice.
#![tactic(auto)]

#[cfg(test)]
mod arena;
#[cfg(test)]
mod idx;
#[cfg(test)]
mod idx_range;
#[cfg(test)]
mod map;
