//! Questions about one predicate under the options of a script: what it reads, why it is off, and what switches it on.
#![tactic(auto)]

mod cfg_query;
mod predicate;
mod query_error;
#[cfg(test)]
mod tests;

pub use cfg_dnf::NumberedHint;
pub use cfg_query::CfgQuery;
pub use predicate::read_predicate;
pub use query_error::QueryError;
