//! The grammar of a script's lines, as functions on lists of tokens.
#![tactic(auto)]

mod asm;
mod asm_operand;
mod asm_piece;
mod asm_word;
mod item;
mod keyword;
mod limit;
mod line;
mod pred;
mod template;
mod trees;

pub use item::Item;
pub use limit::{MAX_LIMIT, RecursionLimit, USUAL_LIMIT};
pub use line::read_item;
pub use pred::read_pred;
pub use trees::read_trees;
