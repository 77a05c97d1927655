//! The expressions, patterns and bindings of a lowered body, in the arenas that hold them, with where they stand in the
//! source and what is known of its calls.
//! An index of the store unfolds to a tree, in which every part stands before the whole.
#![tactic(auto)]

mod asm;
mod asm_options;
mod expr;
mod expr_ids;
mod expr_map;
mod ids;
mod lang_item;
mod pat;
mod row;
mod source;
mod store;

pub use asm::{AsmOperand, AsmRow, InlineAsm, InlineAsmKind, InlineAsmRegOrRegClass};
pub use asm_options::AsmOptions;
pub use expr::{Expr, Literal, Statement};
pub use expr_ids::ExprIds;
pub use expr_map::ExprMap;
pub use ids::{BindingId, ExprId, PatId};
pub use lang_item::{LangFn, LangItem, LangItems};
pub use pat::{Binding, Pat};
pub use source::CaptureSource;
pub use store::ExpressionStore;
