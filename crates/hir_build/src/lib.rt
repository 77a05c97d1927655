//! A builder of code in a store of its own: it places nodes by their kind, knows ids alone, and no source syntax.
#![tactic(auto)]

mod builder;
mod error;

pub use builder::Builder;
pub use error::LowerError;
