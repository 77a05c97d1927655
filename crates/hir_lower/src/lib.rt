//! The lowering of calls in a function body to expressions of a store.
//! What a call means is said of finished code: its evaluation, and the writes that its value stands for. See [`ExprCollector`].
#![tactic(auto)]

mod asm;
mod call;
mod captures;
mod collector;
mod format_args;
mod laws;
mod lowering;
mod name_log;
mod outcome;
mod written;

pub use collector::ExprCollector;
pub use gated_calls::{Call, GatedCall};
pub use hir_build::LowerError;
pub use laws::calls_have_a_most;
pub use outcome::Outcome;
