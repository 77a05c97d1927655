use crate::{AsmOptions, ExprId};
use sqlite_items::{Boxed, Items};
use sym_core::{Name, Symbol, TextRange};

/// Inline assembly: its operands, and how it is compiled.
#[derive(Debug, Drop)]
pub struct InlineAsm {
    /// The kind of the macro that it is written with.
    pub kind: InlineAsmKind,
    /// Its options.
    pub options: AsmOptions,
    /// Its operands in their order, each with its name where it has one.
    pub operands: Boxed<Items<(Option<Name>, AsmOperand)>>,
}

/// Which macro inline assembly is written with.
#[derive(Clone, Copy, PartialEq, Eq, Debug)]
pub enum InlineAsmKind {
    /// `asm!`
    Asm,
    /// `global_asm!`
    GlobalAsm,
    /// `naked_asm!`
    NakedAsm,
}

/// A register or a class of registers.
#[derive(Debug, Drop)]
pub enum InlineAsmRegOrRegClass {
    /// A register, by the whole token that names it, with its quotes.
    Reg(Symbol),
    /// A class of registers.
    RegClass(Symbol),
}

/// An operand of inline assembly.
#[derive(Debug, Drop)]
pub enum AsmOperand {
    /// A register that holds a value at the start.
    In {
        /// The register.
        reg: InlineAsmRegOrRegClass,
        /// The value.
        expr: ExprId,
    },
    /// A register whose value is stored at the end.
    Out {
        /// The register.
        reg: InlineAsmRegOrRegClass,
        /// Where it is stored; `None` where it is let go.
        expr: Option<ExprId>,
        /// Whether the register may be the same as one that is only read.
        late: bool,
    },
    /// A register that holds a value at the start, and whose value is stored there at the end.
    InOut {
        /// The register.
        reg: InlineAsmRegOrRegClass,
        /// The value, and where it is stored.
        expr: ExprId,
        /// Whether the register may be the same as one that is only read.
        late: bool,
    },
    /// A register that holds a value at the start, and whose value is stored elsewhere at the end.
    SplitInOut {
        /// The register.
        reg: InlineAsmRegOrRegClass,
        /// The value at the start.
        in_expr: ExprId,
        /// Where the value is stored at the end; `None` where it is let go.
        out_expr: Option<ExprId>,
        /// Whether the register may be the same as one that is only read.
        late: bool,
    },
    /// A block to which the assembly may jump.
    Label(ExprId),
    /// A constant.
    Const(ExprId),
    /// A function or a static.
    Sym(Name),
}

/// Which operands a template of inline assembly puts.
#[derive(Debug, Drop)]
pub struct AsmRow {
    /// For each placeholder that denotes an operand, the bytes of the template that say which, and the place of the
    /// operand among all, from 0.
    pub places: Items<(TextRange, usize)>,
}
