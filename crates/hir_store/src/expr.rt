use crate::{ExprId, ExprIds, InlineAsm, LangFn, LangItem, PatId};
use sqlite_items::{Boxed, Items};
use std::mem::size_of;
use sym_core::{Name, Symbol};

/// A lowered expression. Its parts are named by their places in the same store.
///
/// A store holds many, so an expression takes 24 bytes: short rows of parts stand in it, and all that is longer is behind
/// a pointer.
#[derive(Debug, Drop)]
pub enum Expr {
    /// What an absent expression is lowered to.
    Missing,
    /// An argument expression as it stands in the source, which lowering does not look into.
    Leaf(u32),
    /// A path of one name.
    Path(Name),
    /// The path of a function of a language item.
    LangPath(LangItem, LangFn),
    /// A literal that lowering makes.
    Literal(Literal),
    /// A shared reference, `&expr`.
    Ref(ExprId),
    /// A tuple, `(first, second)`.
    Tuple(ExprIds),
    /// A field, `expr.name`.
    Field {
        /// The value that has the field.
        expr: ExprId,
        /// The name of the field.
        name: Name,
    },
    /// An array of its elements, `[first, second]`.
    Array(ExprIds),
    /// A call, `callee(args)`.
    Call {
        /// What is called.
        callee: ExprId,
        /// The arguments, in their order.
        args: ExprIds,
    },
    /// A block, `{ statements tail }`.
    Block {
        /// The expression whose value the block has, where it has one.
        tail: Option<ExprId>,
        /// Whether the block is `unsafe`.
        is_unsafe: bool,
        /// The statements, in their order.
        statements: Boxed<Items<Statement>>,
    },
    /// Inline assembly, `asm!(..)`.
    InlineAsm(InlineAsm),
}

const _: () = prove!(size_of::<Expr>() == 24);

/// A literal that lowering itself makes.
#[derive(Debug, Drop)]
pub enum Literal {
    /// A string, `"text"`.
    String(Symbol),
    /// A byte string, `b"bytes"`.
    ByteString(Boxed<Items<u8>>),
}

/// A statement of a block.
#[derive(Clone, Copy, Debug)]
pub enum Statement {
    /// `let pat = initializer;`
    Let {
        /// What the value is bound to.
        pat: PatId,
        /// The value.
        initializer: ExprId,
    },
    /// An expression whose value is let go, `expr;`.
    Expr(ExprId),
}
