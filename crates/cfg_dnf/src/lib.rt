//! Why a predicate is off, and what switches it on.
//! A predicate stands for a list of conjunctions, which is never stored: a walk goes from one conjunction to the next.
#![tactic(auto)]

mod choices;
mod conjunction;
mod conjunction_text;
mod counted;
mod dnf;
mod enable_hints;
mod hinting;
mod inactive_reason;
mod laws;
mod literal;
mod numbered;
mod numbered_hint;
mod numbers;
mod reason_text;

pub use dnf::DnfExpr;
pub use enable_hints::EnableHints;
pub use inactive_reason::InactiveReason;
pub use laws::{hints_are_complete, hints_of_all, hints_work, reasons_by_leaves, walks_in_order};
pub use numbered_hint::NumberedHint;
