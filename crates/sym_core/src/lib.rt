//! The words that every layer speaks: shared text, the names of things in source, and where source stands.
//! All of them are compared by what they hold, and none of them by where it lies in memory.
#![tactic(auto)]

mod files;
mod name;
mod symbol;
mod text_range;

pub use files::{AstPtr, FileId, HirFileId, InFile, MacroCallId};
pub use name::Name;
pub use symbol::Symbol;
pub use text_range::TextRange;
