//! Tests of `hir_lower` through its public calls. They stand in a crate of their own because a crate with tests is proved twice.
#![tactic(auto)]

#[cfg(test)]
mod asm;
#[cfg(test)]
mod calls;
#[cfg(test)]
mod gated;
#[cfg(test)]
mod literals;
#[cfg(test)]
mod long;
#[cfg(test)]
mod templates;
