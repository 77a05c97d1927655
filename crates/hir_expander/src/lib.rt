//! The way into macro expansions and out of them: which file is read, how deep it lies, and where the recursion limit stops.
//! What macros expand to is told by a [`Macros`]; [`MacroTable`] is one that knows macros by name.
#![tactic(auto)]

mod expand_result;
mod expander;
mod laws;
mod macro_table;
mod macros;
mod mark;
mod reach;

pub use expand_result::{ExpandError, ExpandResult, UnresolvedMacro};
pub use expander::{Expander, MAX_RECURSION_LIMIT};
pub use laws::marks_restore;
pub use macro_table::MacroTable;
pub use macros::{FileMaps, Macros};
pub use mark::Mark;
