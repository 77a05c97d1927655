// Stores that are filled by hand, and what is printed of them. Each expression is tested for parts that stand as it is placed.
ghost use Rattle.std.specs.Prelude.{◌≡◌, ◌<◌, length, IsTrue, IfOk, OnOk, is_some};
ghost use Rattle.hir_store.specs.Tree.{is_whole, all_whole, steps_whole};
ghost use Rattle.hir_store.specs.Unfolding.{place_of, tree_at, tree_over, trees_of, steps_of, tail_step, name_in};
ghost use Rattle.hir_store.specs.Store.{NoDanglingIds};
ghost use Rattle.hir_lower.specs.Lowered.{AreInStore, IsInStore};

use cfg_dnf::DnfExpr;
use hir_lower::Outcome;
use hir_store::{
    Expr, ExprId, ExprIds, ExpressionStore, LangFn, LangItem, Literal, Pat, PatId, Statement,
};
use la_arena::ArenaError;
use printer::print_outcomes;
use ra_cfg::{CfgAtom, CfgExpr, CfgOptions};
use sqlite_items::{Boxed, Items};
use std::alloc::{AllocError, Global};
use std::process::Abort;
use std::test::Fail;
use sym_core::{Name, Symbol, TextRange};

fn stands(store: &ExpressionStore, id: ExprId) -> bool
    ensures within { IsTrue result → place_of id < length store.now.exprs }
    ensures whole { NoDanglingIds store.now → IsTrue result → IsTrue (is_whole (tree_at store.now id)) }
{
    store.exprs.get(id.idx()).is_some()
}

fn binds(store: &ExpressionStore, pat: PatId) -> bool
    ensures { IsTrue result → IsTrue (is_some (name_in store.now pat)) }
{
    match store.pats.get(pat.idx()) {
        Some(Pat::Bind(id)) => store.bindings.get(id.idx()).is_some(),
        None => false,
    }
}

fn all_stand(store: &ExpressionStore, ids: &[ExprId]) -> bool
    requires { NoDanglingIds store.now }
    ensures { IsTrue result → IsTrue (all_whole (trees_of (tree_at store.now) ids.now)) }
{
    match ids {
        [] => true,
        [first, rest @ ..] => stands(store, *first) && all_stand(store, rest),
    }
}

fn tail_stands(store: &ExpressionStore, tail: Option<ExprId>) -> bool
    requires { NoDanglingIds store.now }
    ensures { IsTrue result → IsTrue (steps_whole (tail_step (tree_at store.now) tail)) }
{
    match tail {
        Some(id) => stands(store, id),
        None => true,
    }
}

fn steps_stand(store: &ExpressionStore, statements: &[Statement], tail: Option<ExprId>) -> bool
    requires { NoDanglingIds store.now }
    ensures { IsTrue result → IsTrue (steps_whole (steps_of (name_in store.now) (tree_at store.now) statements.now tail)) }
{
    match statements {
        [] => tail_stands(store, tail),
        [Statement::Let { pat, initializer }, rest @ ..] => {
            binds(store, *pat) && stands(store, *initializer) && steps_stand(store, rest, tail)
        }
        [Statement::Expr(id), rest @ ..] => stands(store, *id) && steps_stand(store, rest, tail),
    }
}

fn parts_stand(store: &ExpressionStore, expr: &Expr) -> bool
    requires { NoDanglingIds store.now }
    ensures { IsTrue result → IsTrue (is_whole (tree_over store.now expr.now)) }
{
    match expr {
        Expr::Missing | Expr::Leaf(_) | Expr::Path(_) | Expr::LangPath(_, _) => true,
        Expr::Literal(Literal::String(_)) | Expr::Literal(Literal::ByteString(_)) => true,
        Expr::Ref(id) => stands(store, *id),
        Expr::Field { expr, .. } => stands(store, *expr),
        Expr::Tuple(ids) | Expr::Array(ids) => all_stand(store, ids.as_slice()),
        Expr::Call { callee, args } => stands(store, *callee) && all_stand(store, args.as_slice()),
        Expr::Block {
            statements,
            tail,
            ..
        } => steps_stand(store, statements.get().as_slice(), *tail),
        Expr::InlineAsm(_) => false,
    }
}

fn place(rt: &impl Abort, store: &mut ExpressionStore, expr: Expr) -> Result<ExprId, ArenaError>
    requires { NoDanglingIds store.old }
    ensures { NoDanglingIds store.new }
{
    assert!(rt; parts_stand(store, &expr));
    store.alloc_expr_desugared(expr)
}

fn place_pat(store: &mut ExpressionStore, name: Name) -> Result<PatId, ArenaError>
    requires { NoDanglingIds store.old }
    ensures { NoDanglingIds store.new }
{
    let binding = store.alloc_binding(name)?;
    store.alloc_pat(Pat::Bind(binding))
}

fn lang(
    rt: &impl Abort,
    store: &mut ExpressionStore,
    item: LangItem,
    function: LangFn,
) -> Result<ExprId, ArenaError>
    requires { NoDanglingIds store.old }
    ensures { NoDanglingIds store.new }
{
    place(rt, store, Expr::LangPath(item, function))
}

// Notes the usages of a call at its code.
fn note_usages(
    store: &mut ExpressionStore,
    code: ExprId,
    usages: Items<(TextRange, Name)>,
) -> Result<(), AllocError>
    requires no_dangling { NoDanglingIds store.old }
    requires within { place_of code < length store.old.exprs }
    ensures { OnOk result (NoDanglingIds store.new) }
{
    store.format_args_to_captures.insert(code, usages)?;
    Ok(())
}

// The outcome of a call that is off where the flag `a` is.
fn off(alloc: Global, options: &CfgOptions) -> Result<Outcome, AllocError>
    ensures { IfOk result (λ outcome. (store : _) → IsInStore store outcome) }
{
    let flag = CfgAtom::Flag(Symbol::new(alloc, "a")?);
    let dnf = DnfExpr::new(alloc, &CfgExpr::Atom(flag))?;
    let reason = dnf.why_inactive(alloc, options)?;
    Ok(Outcome::Off { reason, dnf })
}

// What is printed of outcomes where no option is set.
fn printed_of(
    alloc: Global,
    store: &ExpressionStore,
    outcomes: &[Outcome],
) -> Result<Vec<u8>, AllocError>
    requires no_dangling { NoDanglingIds store.now }
    requires codes { AreInStore store.now outcomes.now }
{
    let options = CfgOptions::new(alloc)?;
    print_outcomes(alloc, store, &options, outcomes)
}

// The example of `print_outcomes`.
#[test]
fn prints_code(rt: HostRuntime) -> Result<(), Fail> {
    let mut store = ExpressionStore::new(rt.alloc());
    let leaf = store.alloc_expr_desugared(Expr::Leaf(7))?;
    let printed = printed_of(rt.alloc(), &store, &[Outcome::Code(leaf)])?;
    assert_eq!(rt; printed.as_slice(), b"0 code @7\n".as_slice());
    Ok(())
}

#[test]
fn prints_why_a_call_is_off(rt: HostRuntime) -> Result<(), Fail> {
    let alloc = rt.alloc();
    let store = ExpressionStore::new(alloc);
    let options = CfgOptions::new(alloc)?;
    let outcomes = [off(alloc, &options)?];
    let printed = print_outcomes(alloc, &store, &options, &outcomes)?;
    let lines = b"0 off\n0 reason a is disabled\n0 hint enable a\n";
    assert_eq!(rt; printed.as_slice(), lines.as_slice());
    Ok(())
}

#[test]
fn prints_a_text(rt: HostRuntime) -> Result<(), Fail> {
    let mut store = ExpressionStore::new(rt.alloc());
    let callee = lang(&rt, &mut store, LangItem::FormatArguments, LangFn::FromStr)?;
    let text = Symbol::new(rt.alloc(), "hi")?;
    let text = place(&rt, &mut store, Expr::Literal(Literal::String(text)))?;
    let args = ExprIds::from_slice(rt.alloc(), &[text])?;
    let call = place(&rt, &mut store, Expr::Call { callee, args })?;
    assert!(rt; stands(&store, call));
    let printed = printed_of(rt.alloc(), &store, &[Outcome::Code(call)])?;
    assert_eq!(rt;
        printed.as_slice(),
        b"0 code Arguments::from_str(s\"6869\")\n".as_slice()
    );
    Ok(())
}

#[test]
fn prints_tuples(rt: HostRuntime) -> Result<(), Fail> {
    let alloc = rt.alloc();
    let mut store = ExpressionStore::new(alloc);
    let unit = place(&rt, &mut store, Expr::Tuple(ExprIds::new()))?;
    let leaf = place(&rt, &mut store, Expr::Leaf(4_294_967_295))?;
    let single = ExprIds::from_slice(alloc, &[leaf])?;
    let single = place(&rt, &mut store, Expr::Tuple(single))?;
    assert!(rt; stands(&store, unit));
    assert!(rt; stands(&store, single));
    let outcomes = [Outcome::Code(unit), Outcome::Code(single)];
    let printed = printed_of(alloc, &store, &outcomes)?;
    let lines = b"0 code ()\n1 code (@4294967295,)\n";
    assert_eq!(rt; printed.as_slice(), lines.as_slice());
    Ok(())
}

#[test]
fn prints_a_statement(rt: HostRuntime) -> Result<(), Fail> {
    let alloc = rt.alloc();
    let mut store = ExpressionStore::new(alloc);
    let missing = place(&rt, &mut store, Expr::Missing)?;
    let path = place(&rt, &mut store, Expr::Path(Name::new(alloc, "total")?))?;
    let unit = place(&rt, &mut store, Expr::Tuple(ExprIds::new()))?;
    let three = ExprIds::from_slice(alloc, &[missing, path, unit])?;
    let three = place(&rt, &mut store, Expr::Tuple(three))?;
    let block = Expr::Block {
        tail: None,
        is_unsafe: false,
        statements: boxed(alloc, &[Statement::Expr(three)])?,
    };
    let block = place(&rt, &mut store, block)?;
    assert!(rt; stands(&store, block));
    let printed = printed_of(alloc, &store, &[Outcome::Code(block)])?;
    let line = b"0 code { (missing, total, ()); }\n";
    assert_eq!(rt; printed.as_slice(), line.as_slice());
    Ok(())
}

fn boxed(alloc: Global, statements: &[Statement]) -> Result<Boxed<Items<Statement>>, AllocError>
    ensures { IfOk result (λ boxed. boxed ≡ statements.now) }
{
    Ok(Boxed::new(alloc, Items::from_slice(alloc, statements)?)?)
}

// `(&@1,)`
fn references(rt: &impl Abort, alloc: Global, store: &mut ExpressionStore) -> Result<ExprId, Fail>
    requires { NoDanglingIds store.old }
    ensures { OnOk result (NoDanglingIds store.new) }
{
    let leaf = place(rt, store, Expr::Leaf(1))?;
    let argument = place(rt, store, Expr::Ref(leaf))?;
    let references = ExprIds::from_slice(alloc, &[argument])?;
    Ok(place(rt, store, Expr::Tuple(references))?)
}

// `[Argument::new_display(#0.0)]`
fn argument_list(
    rt: &impl Abort,
    alloc: Global,
    store: &mut ExpressionStore,
) -> Result<ExprId, Fail>
    requires { NoDanglingIds store.old }
    ensures { OnOk result (NoDanglingIds store.new) }
{
    let callee = lang(rt, store, LangItem::FormatArgument, LangFn::NewDisplay)?;
    let expr = place(rt, store, Expr::Path(Name::fresh(0)))?;
    let name = Name::tuple_field(0);
    let field = place(rt, store, Expr::Field { expr, name })?;
    let args = ExprIds::from_slice(alloc, &[field])?;
    let argument = place(rt, store, Expr::Call { callee, args })?;
    let list = ExprIds::from_slice(alloc, &[argument])?;
    Ok(place(rt, store, Expr::Array(list))?)
}

// `unsafe { Arguments::new(b"0178C002797B00", &#0) }`
fn made_arguments(
    rt: &impl Abort,
    alloc: Global,
    store: &mut ExpressionStore,
) -> Result<ExprId, Fail>
    requires { NoDanglingIds store.old }
    ensures { OnOk result (NoDanglingIds store.new) }
{
    let callee = lang(rt, store, LangItem::FormatArguments, LangFn::New)?;
    let template = Boxed::new(alloc, Items::from_slice(alloc, b"\x01x\xc0\x02y{\x00")?)?;
    let template = place(rt, store, Expr::Literal(Literal::ByteString(template)))?;
    let list = place(rt, store, Expr::Path(Name::fresh(0)))?;
    let list = place(rt, store, Expr::Ref(list))?;
    let args = ExprIds::from_slice(alloc, &[template, list])?;
    let call = place(rt, store, Expr::Call { callee, args })?;
    let block = Expr::Block {
        tail: Some(call),
        is_unsafe: true,
        statements: boxed(alloc, &[])?,
    };
    Ok(place(rt, store, block)?)
}

// `{ let #0 = first; let #0 = second; tail }`
fn two_lets(
    rt: &impl Abort,
    alloc: Global,
    store: &mut ExpressionStore,
    first: ExprId,
    second: ExprId,
    tail: ExprId,
) -> Result<ExprId, Fail>
    requires { NoDanglingIds store.old }
    ensures { OnOk result (NoDanglingIds store.new) }
{
    let pat = place_pat(store, Name::fresh(0))?;
    let first = Statement::Let {
        pat,
        initializer: first,
    };
    let second = Statement::Let {
        pat,
        initializer: second,
    };
    let block = Expr::Block {
        tail: Some(tail),
        is_unsafe: false,
        statements: boxed(alloc, &[first, second])?,
    };
    Ok(place(rt, store, block)?)
}

#[test]
fn prints_a_block(rt: HostRuntime) -> Result<(), Fail> {
    let alloc = rt.alloc();
    let mut store = ExpressionStore::new(alloc);
    let references = references(&rt, alloc, &mut store)?;
    let list = argument_list(&rt, alloc, &mut store)?;
    let made = made_arguments(&rt, alloc, &mut store)?;
    let block = two_lets(&rt, alloc, &mut store, references, list, made)?;
    assert!(rt; stands(&store, block));
    let printed = printed_of(alloc, &store, &[Outcome::Code(block)])?;
    let line =
        b"0 code { let #0 = (&@1,); let #0 = [Argument::new_display(#0.0)]; unsafe { Arguments::new(b\"0178C002797B00\", &#0) } }\n";
    assert_eq!(rt; printed.as_slice(), line.as_slice());
    Ok(())
}

#[test]
fn prints_usages(rt: HostRuntime) -> Result<(), Fail> {
    let alloc = rt.alloc();
    let mut store = ExpressionStore::new(alloc);
    let callee = place(&rt, &mut store, Expr::Missing)?;
    let text = Symbol::new(alloc, "hi")?;
    let text = place(&rt, &mut store, Expr::Literal(Literal::String(text)))?;
    let args = ExprIds::from_slice(alloc, &[text])?;
    let call = place(&rt, &mut store, Expr::Call { callee, args })?;
    let mut usages = Items::new(alloc);
    usages.push((TextRange { start: 2, end: 3 }, Name::new(alloc, "x")?))?;
    usages.push((TextRange { start: 8, end: 10 }, Name::new(alloc, "py")?))?;
    assert!(rt; stands(&store, call));
    note_usages(&mut store, call, usages)?;
    assert!(rt; stands(&store, call));
    let printed = printed_of(alloc, &store, &[Outcome::Code(call)])?;
    let lines = b"0 code missing(s\"6869\")\n0 use x 2..3\n0 use py 8..10\n";
    assert_eq!(rt; printed.as_slice(), lines.as_slice());
    Ok(())
}
