//! Format calls: the arguments that a call brings, and the template that its text becomes.
//! A template names its arguments by their places, those that the text captures behind those that are written.
#![tactic(auto)]

mod captures;
mod collector;
mod format_args;
mod literal;
mod look_up;
mod orphans;
mod parser;
mod placeholder;
mod read;
mod reference;
mod template;

pub use captures::{Captures, ParseError};
pub use collector::FormatArgumentsCollector;
pub use format_args::{
    FormatAlignment, FormatArgPosition, FormatArgPositionKind, FormatArgs, FormatArgsPiece,
    FormatArgument, FormatArgumentKind, FormatArguments, FormatCount, FormatDebugHex,
    FormatOptions, FormatPlaceholder, FormatSign, FormatTrait,
};
pub use parser::parse;
pub use read::{literal_value, span_shift};
