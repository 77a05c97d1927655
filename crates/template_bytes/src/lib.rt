//! Template bytes: what the template of a format call is written as, piece by piece, and the pairs of an argument and a use that the places
//! in these bytes stand for. Each template has one spelling, so bytes and pairs can be compared in place of templates.
#![tactic(auto)]

mod draft;
mod encoder;
mod error;
mod fields;
mod flags;
pub mod laws;
mod literal;
mod pair;
mod pairs;
mod slot;

pub use encoder::{EncodedTemplate, encode};
pub use error::EncodeError;
pub use pair::{Pair, Usage};
