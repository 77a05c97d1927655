//! From a script to what is printed of it: the program as one call over any source and any sink.
//! The contract of [`run`] says what status 0 means, and why each other status comes.
#![tactic(auto)]

mod command;
mod printing;
mod program;
mod refusal;
mod session;

pub use command::Command;
pub use hir_expander::MacroTable;
pub use printing::{print_outcomes, print_summary};
pub use program::run;
pub use refusal::Refusal;
pub use script::{Script, ScriptError, read_script};
pub use script_generator::script_of;
pub use session::Session;
pub use streams::{
    MemSink, MemSource, ReadFailed, Sink, Source, StdSink, StdSource, SureSink, SureSource,
    WriteFailed,
};
