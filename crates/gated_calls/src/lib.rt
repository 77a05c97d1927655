//! The macro calls of a function body, each with the predicates that decide whether it is switched on.
//! What reads calls and what lowers them meet here.
#![tactic(auto)]

mod call;

pub use call::{Call, GatedCall};
