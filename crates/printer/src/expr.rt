ghost use Rattle.std.specs.Prelude.{◌≡◌, ◌++◌, Some, IsTrue, OnOk, is_some, string_bytes};
ghost use Rattle.hir_store.specs.Tree.{Tuple, Array, Call, Block, is_whole, all_whole, steps_whole};
ghost use Rattle.hir_store.specs.Unfolding.{tree_at, tree_over, trees_of, steps_of, tail_step, name_in};
ghost use Rattle.printer.specs.Printed.{text_of, texts_of, later_texts, steps_text, let_text, bound_text};
ghost use Rattle.printer.specs.Statements.{statement_text, StatementIsWhole};

use crate::asm::push_assembly;
use crate::words::{function_word, item_word, push_literal};
use hir_store::{Expr, ExprId, ExpressionStore, Pat, PatId, Statement};
use std::alloc::AllocError;
use std::fmt::Write;
use sym_core::Name;

/// Writes the expression at a place of the store.
#[cycle(printing)]
pub fn push_expr(out: &mut String, store: &ExpressionStore, id: ExprId) -> Result<(), AllocError>
    requires { IsTrue (is_whole (tree_at store.now id)) }
    ensures { OnOk result (string_bytes out.new ≡ string_bytes out.old ++ text_of (tree_at store.now id)) }
{
    push_node(out, store, node_at(store, id))
}

/// The expression at a place of the store.
#[tactic(auto, using(crate::proofs::Reading::whole_node))]
fn node_at<'a>(store: &'a ExpressionStore, id: ExprId) -> &'a Expr
    requires { IsTrue (is_whole (tree_at store.now id)) }
    ensures { tree_over store.now result.now ≡ tree_at store.now id }
{
    &store.exprs[id.idx()]
}

/// Writes an expression over the store.
#[cycle(printing)]
fn push_node(out: &mut String, store: &ExpressionStore, expr: &Expr) -> Result<(), AllocError>
    requires { IsTrue (is_whole (tree_over store.now expr.now)) }
    ensures { OnOk result (string_bytes out.new ≡ string_bytes out.old ++ text_of (tree_over store.now expr.now)) }
{
    match expr {
        Expr::Missing => out.push_str("missing"),
        Expr::Leaf(number) => write!(out, "@{number}"),
        Expr::Path(name) => write!(out, "{name}"),
        Expr::LangPath(item, function) => {
            write!(out, "{}::{}", item_word(*item), function_word(*function))
        }
        Expr::Literal(literal) => push_literal(out, literal),
        Expr::Ref(id) => {
            out.push_str("&")?;
            push_expr(out, store, *id)
        }
        Expr::Tuple(ids) => push_tuple(out, store, ids.as_slice()),
        Expr::Field { expr, name } => {
            push_expr(out, store, *expr)?;
            write!(out, ".{name}")
        }
        Expr::Array(ids) => push_array(out, store, ids.as_slice()),
        Expr::Call { callee, args } => push_call(out, store, *callee, args.as_slice()),
        Expr::Block {
            statements,
            tail,
            is_unsafe,
        } => push_block(out, store, statements.get().as_slice(), *tail, *is_unsafe),
        Expr::InlineAsm(assembly) => push_assembly(out, store, assembly),
    }
}

/// Writes a tuple. A single element has a comma behind it.
#[cycle(printing)]
#[tactic(auto, using(crate::proofs::Commas::commas))]
fn push_tuple(out: &mut String, store: &ExpressionStore, ids: &[ExprId]) -> Result<(), AllocError>
    requires { IsTrue (all_whole (trees_of (tree_at store.now) ids.now)) }
    ensures { OnOk result (string_bytes out.new ≡ string_bytes out.old ++ text_of (Tuple (trees_of (tree_at store.now) ids.now))) }
{
    out.push_str("(")?;
    push_list(out, store, ids)?;
    if ids.len() == 1 {
        return out.push_str(",)");
    }
    out.push_str(")")
}

/// Writes an array.
#[cycle(printing)]
fn push_array(out: &mut String, store: &ExpressionStore, ids: &[ExprId]) -> Result<(), AllocError>
    requires { IsTrue (all_whole (trees_of (tree_at store.now) ids.now)) }
    ensures { OnOk result (string_bytes out.new ≡ string_bytes out.old ++ text_of (Array (trees_of (tree_at store.now) ids.now))) }
{
    out.push_str("[")?;
    push_list(out, store, ids)?;
    out.push_str("]")
}

/// Writes a call.
#[cycle(printing)]
fn push_call(
    out: &mut String,
    store: &ExpressionStore,
    callee: ExprId,
    args: &[ExprId],
) -> Result<(), AllocError>
    requires callee { IsTrue (is_whole (tree_at store.now callee)) }
    requires args { IsTrue (all_whole (trees_of (tree_at store.now) args.now)) }
    ensures { OnOk result (string_bytes out.new ≡ string_bytes out.old ++ text_of (Call (tree_at store.now callee) (trees_of (tree_at store.now) args.now))) }
{
    push_expr(out, store, callee)?;
    out.push_str("(")?;
    push_list(out, store, args)?;
    out.push_str(")")
}

/// Writes expressions with `, ` between.
#[cycle(printing)]
fn push_list(out: &mut String, store: &ExpressionStore, ids: &[ExprId]) -> Result<(), AllocError>
    requires { IsTrue (all_whole (trees_of (tree_at store.now) ids.now)) }
    ensures { OnOk result (string_bytes out.new ≡ string_bytes out.old ++ texts_of (trees_of (tree_at store.now) ids.now)) }
{
    match ids {
        [] => Ok(()),
        [first, rest @ ..] => {
            push_expr(out, store, *first)?;
            push_later(out, store, rest)
        }
    }
}

/// Writes expressions, each behind `, `.
#[cycle(printing)]
fn push_later(out: &mut String, store: &ExpressionStore, ids: &[ExprId]) -> Result<(), AllocError>
    requires { IsTrue (all_whole (trees_of (tree_at store.now) ids.now)) }
    ensures { OnOk result (string_bytes out.new ≡ string_bytes out.old ++ later_texts (trees_of (tree_at store.now) ids.now)) }
{
    for id in ids {
        out.push_str(", ")?;
        push_expr(out, store, *id)?;
    }
    Ok(())
}

/// Writes a block.
#[cycle(printing)]
fn push_block(
    out: &mut String,
    store: &ExpressionStore,
    statements: &[Statement],
    tail: Option<ExprId>,
    is_unsafe: bool,
) -> Result<(), AllocError>
    requires { IsTrue (steps_whole (steps_of (name_in store.now) (tree_at store.now) statements.now tail)) }
    ensures { OnOk result (string_bytes out.new ≡ string_bytes out.old ++ text_of (Block is_unsafe (steps_of (name_in store.now) (tree_at store.now) statements.now tail))) }
{
    out.push_str(if is_unsafe { "unsafe { " } else { "{ " })?;
    push_steps(out, store, statements, tail)?;
    out.push_str("}")
}

/// Writes the statements of a block, and its tail where it has one.
#[cycle(printing)]
fn push_steps(
    out: &mut String,
    store: &ExpressionStore,
    statements: &[Statement],
    tail: Option<ExprId>,
) -> Result<(), AllocError>
    requires { IsTrue (steps_whole (steps_of (name_in store.now) (tree_at store.now) statements.now tail)) }
    ensures { OnOk result (string_bytes out.new ≡ string_bytes out.old ++ steps_text (steps_of (name_in store.now) (tree_at store.now) statements.now tail)) }
{
    for statement in statements {
        push_statement(out, store, *statement)?;
    }
    push_tail(out, store, tail)
}

/// Writes a statement, and a space.
#[cycle(printing)]
fn push_statement(
    out: &mut String,
    store: &ExpressionStore,
    statement: Statement,
) -> Result<(), AllocError>
    requires { StatementIsWhole store.now statement }
    ensures { OnOk result (string_bytes out.new ≡ string_bytes out.old ++ statement_text store.now statement) }
{
    match statement {
        Statement::Let { pat, initializer } => push_let(out, store, pat, initializer),
        Statement::Expr(id) => {
            push_expr(out, store, id)?;
            out.push_str("; ")
        }
    }
}

/// Writes the tail of a block, where it has one.
#[cycle(printing)]
fn push_tail(
    out: &mut String,
    store: &ExpressionStore,
    tail: Option<ExprId>,
) -> Result<(), AllocError>
    requires { IsTrue (steps_whole (tail_step (tree_at store.now) tail)) }
    ensures { OnOk result (string_bytes out.new ≡ string_bytes out.old ++ steps_text (tail_step (tree_at store.now) tail)) }
{
    let Some(id) = tail else {
        return Ok(());
    };
    push_expr(out, store, id)?;
    out.push_str(" ")
}

/// Writes a `let`.
#[cycle(printing)]
fn push_let(
    out: &mut String,
    store: &ExpressionStore,
    pat: PatId,
    initializer: ExprId,
) -> Result<(), AllocError>
    requires name { IsTrue (is_some (name_in store.now pat)) }
    requires whole { IsTrue (is_whole (tree_at store.now initializer)) }
    ensures { OnOk result (string_bytes out.new ≡ string_bytes out.old ++ let_text (bound_text (name_in store.now pat)) (text_of (tree_at store.now initializer))) }
{
    write!(out, "let {} = ", bound_name(store, pat))?;
    push_expr(out, store, initializer)?;
    out.push_str("; ")
}

/// The name that a pattern binds.
fn bound_name<'a>(store: &'a ExpressionStore, pat: PatId) -> &'a Name
    requires { IsTrue (is_some (name_in store.now pat)) }
    ensures { name_in store.now pat ≡ Some result.now }
{
    match &store.pats[pat.idx()] {
        Pat::Bind(id) => &store.bindings[id.idx()].name,
    }
}
