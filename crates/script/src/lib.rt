//! Scripts: the options, macros, limit, language items and calls that a text asks for.
//! A script is read whole: to what its lines say, or to the line of its first broken item.
#![tactic(auto)]

mod laws;
mod reading;
mod script;

pub use laws::one_script;
pub use script::{MAX_SCRIPT_LEN, Script, ScriptError, end_last_line, read_ended, read_script};
pub use script_grammar::{MAX_LIMIT, USUAL_LIMIT};
