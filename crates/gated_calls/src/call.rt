use ra_cfg::CfgExpr;
use sqlite_items::Items;
use syn_trees::{AsmCall, FormatCall};

/// A macro call of a function body, with what decides whether it is switched on.
#[derive(Debug, Drop)]
pub struct GatedCall {
    /// The predicates of the call, in order. It is off where one of them, taken by itself, evaluates to `Some(false)`.
    pub cfgs: Items<CfgExpr>,
    /// What is called.
    pub call: Call,
}

/// What is called.
#[derive(Debug, Drop)]
pub enum Call {
    /// `format_args!`
    Format(FormatCall),
    /// `asm!`, `global_asm!` or `naked_asm!`
    Asm(AsmCall),
}
