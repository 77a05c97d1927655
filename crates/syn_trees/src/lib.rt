//! What a syntax tree gives of macro calls and their predicates, as plain trees: token trees, predicates, string literals, and the calls
//! of `format_args!` and inline assembly.
#![tactic(auto)]

mod asm_call;
mod cfg_predicate;
mod escape;
mod format_call;
mod laws;
mod quoted;
mod str_token;
mod string_lit;
mod token_tree;
mod tt_iter;

pub use asm_call::{
    AsmCall, AsmDir, AsmExprSyntax, AsmExprs, AsmOperandSyntax, AsmPiece, AsmPieceKind,
    AsmRegSyntax,
};
pub use cfg_predicate::{CfgAtomKey, CfgPredicate};
pub use format_call::{FormatArgSyntax, FormatCall, LeafSyntax, MacroCallSrc, Template};
pub use laws::{one_value, tokens_are_read, values_as_written, values_fit};
pub use quoted::{lex_string, raw_start, string_token};
pub use str_token::StrToken;
pub use string_lit::{EscapeError, StringLit};
pub use token_tree::{Spacing, TokenTree, TopSubtree, TtLiteral};
pub use tt_iter::TtIter;
