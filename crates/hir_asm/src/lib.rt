//! The lowering of inline assembly: the operands and options that the pieces of a call say, its code, and which operands its
//! templates put.
//!
//! The rules are those of the Rust reference, inline assembly. Operands are read as far as they can be, as an editor needs it:
//! what cannot be an operand is dropped, and a faulty template is read up to its fault.
#![tactic(auto)]

mod asm;
mod mapping;
mod operand;
mod options;
mod piece;
mod template;

pub use asm::lower_inline_asm;
