//! Tests of `hir_store` through its public calls. They stand in a crate of their own because a crate with tests is proved twice.
#![tactic(auto)]

#[cfg(test)]
mod asm_options;
#[cfg(test)]
mod expr_ids;
#[cfg(test)]
mod expr_map;
#[cfg(test)]
mod store;
