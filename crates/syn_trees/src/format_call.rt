use crate::StringLit;
use sqlite_items::Items;
use sym_core::{AstPtr, Symbol};

/// What stands where a format string or a template of inline assembly is wanted.
#[derive(Debug, Drop)]
pub enum Template {
    /// A string literal.
    Str(StringLit),
    /// The call of a macro, which may expand to a string literal.
    Macro(MacroCallSrc),
    /// Any other expression.
    Other,
}

/// The call of a macro.
#[derive(Debug, Drop)]
pub struct MacroCallSrc {
    /// The name of the macro, where there is one.
    pub path: Option<Symbol>,
}

/// A call of `format_args!`.
#[derive(Debug, Drop)]
pub struct FormatCall {
    /// The format string, where there is one.
    pub template: Option<Template>,
    /// Where the format string stands.
    pub template_ptr: AstPtr,
    /// The arguments behind it, in order.
    pub args: Items<FormatArgSyntax>,
    /// Where the call stands.
    pub ptr: AstPtr,
}

/// An argument of a call of `format_args!`.
#[derive(Debug, Drop)]
pub struct FormatArgSyntax {
    /// The name in front of `=`, where there is one.
    pub name: Option<Symbol>,
    /// The expression, where there is one.
    pub expr: Option<LeafSyntax>,
}

/// An expression of the source that is not looked into.
#[derive(Clone, Copy, PartialEq, Eq, Debug)]
pub struct LeafSyntax {
    /// The number of the expression.
    pub leaf: u32,
    /// Where it stands.
    pub ptr: AstPtr,
}
