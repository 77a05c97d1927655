use crate::limit::RecursionLimit;
use hir_store::LangItem;
use sqlite_items::Items;
use sym_core::Symbol;
use syn_trees::{AsmCall, CfgPredicate, FormatCall, Template, TokenTree};

/// What a line of a script says.
#[derive(Drop)]
pub enum Item {
    /// `opt unix`: a flag.
    Flag(Symbol),
    /// `opt os = "linux"`: a key, with the value of its string.
    Pair {
        /// The key.
        key: Symbol,
        /// The value of its string.
        value: Symbol,
    },
    /// `version "1.66" yes`: the answer for a version.
    Version {
        /// The value of its string.
        text: Symbol,
        /// Whether the answer is `yes`.
        answer: bool,
    },
    /// `limit 64`: the recursion limit.
    Limit(RecursionLimit),
    /// `nolang argument`: a language item is absent.
    NoLang(LangItem),
    /// `macro m => "x"`: what a macro expands to; for `?` no expression.
    Macro {
        /// The macro's name.
        name: Symbol,
        /// What it expands to.
        body: Option<Template>,
    },
    /// `cfg all(unix)`: a predicate of the next call, as token trees.
    Cfg(Items<TokenTree>),
    /// `attr all(unix)`: a predicate of the next call, as syntax.
    Attr(CfgPredicate),
    /// `format "x" @1`: a call of `format_args!`.
    Format(FormatCall),
    /// `asm "nop"; in reg @1`: a call of `asm!`, `global_asm!` or `naked_asm!`.
    Asm(AsmCall),
}
