use crate::{CfgPredicate, LeafSyntax, StringLit, Template};
use sqlite_items::Items;
use sym_core::{AstPtr, Symbol};

/// A call of `asm!`, `global_asm!` or `naked_asm!`.
#[derive(Debug, Drop)]
pub struct AsmCall {
    /// Whether it is `global_asm!`.
    pub global: bool,
    /// Whether it is `naked_asm!`.
    pub naked: bool,
    /// The templates, in order.
    pub templates: Items<Template>,
    /// What stands behind the templates, in order.
    pub pieces: Items<AsmPiece>,
    /// Where the call stands.
    pub ptr: AstPtr,
}

/// What stands behind the templates between two commas, with the predicates in front of it.
#[derive(Debug, Drop)]
pub struct AsmPiece {
    /// The predicates.
    pub cfgs: Items<CfgPredicate>,
    /// What it is.
    pub kind: AsmPieceKind,
}

/// An operand of inline assembly, options, or a clobbered ABI.
#[derive(Debug, Drop)]
pub enum AsmPieceKind {
    /// `clobber_abi(..)`, with its string where there is one.
    ClobberAbi(Option<StringLit>),
    /// `options(..)`, with its words.
    Options(Items<Symbol>),
    /// An operand.
    Operand {
        /// The name in front of `=`, where there is one.
        name: Option<Symbol>,
        /// The operand itself, where there is one.
        op: Option<AsmOperandSyntax>,
    },
}

/// An operand of inline assembly.
#[derive(Debug, Drop)]
pub enum AsmOperandSyntax {
    /// A register with what goes in and out.
    Reg {
        /// The direction, where there is one.
        dir: Option<AsmDir>,
        /// The register or its class, where there is one.
        reg: Option<AsmRegSyntax>,
        /// The expressions, where there are some.
        exprs: Option<AsmExprs>,
    },
    /// `label`, with its block where there is one.
    Label(Option<LeafSyntax>),
    /// `const`, with its expression where there is one.
    Const(Option<LeafSyntax>),
    /// `sym`, with its path where there is one.
    Sym(Option<Symbol>),
}

/// Whether a value goes in, out, or both ways, and whether the register may be written before all inputs are read.
#[derive(Clone, Copy, PartialEq, Eq, Debug)]
pub enum AsmDir {
    /// `in`
    In,
    /// `out`
    Out,
    /// `lateout`
    LateOut,
    /// `inout`
    InOut,
    /// `inlateout`
    InLateOut,
}

/// A register, or a class of registers.
#[derive(Debug, Drop)]
pub enum AsmRegSyntax {
    /// A register, by the string that names it.
    Register(StringLit),
    /// A class.
    Class(Symbol),
}

/// The expressions of a register operand.
#[derive(Debug, Drop)]
pub struct AsmExprs {
    /// The first expression, where there is one.
    pub first: Option<AsmExprSyntax>,
    /// Whether `=>` stands behind it.
    pub arrow: bool,
    /// The expression behind the arrow, where there is one.
    pub second: Option<AsmExprSyntax>,
}

/// An expression of a register operand.
#[derive(Clone, Copy, PartialEq, Eq, Debug)]
pub enum AsmExprSyntax {
    /// An expression of the source.
    Leaf(LeafSyntax),
    /// `_`
    Underscore,
}
