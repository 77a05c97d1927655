//! Tests of `streams` through its public calls. They stand in a crate of their own because a crate with tests is proved twice.
#![tactic(auto)]

#[cfg(test)]
mod callers;
#[cfg(test)]
mod memory;
#[cfg(test)]
mod read_write;
#[cfg(test)]
mod std_streams;
#[cfg(test)]
mod sure;
