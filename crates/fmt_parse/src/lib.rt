//! The format texts of `format_args!`, read into pieces: literals, and placeholders with all their parts.
//! The grammar is that of std::fmt, section "Syntax".
//!
//! Templates of inline assembly are read into the same pieces, as far as they go.
//! Their grammar is that of the Rust Reference, "Inline assembly", section "Template string arguments".
#![tactic(auto)]

mod asm;
mod count;
mod format;
mod laws;
mod options;
mod piece;
mod placeholder;
mod reader;
mod spec;
mod token;

pub use asm::{AsmRead, parse_asm};
pub use format::{FormatError, parse_format};
pub use laws::{asm_pieces_stand_within, one_asm_reading, one_reading, pieces_stand_within};
pub use piece::{Alignment, Argument, Count, DebugHex, FormatSpec, Piece, Position, Sign};
