use cfg_dnf::DnfExpr;
use hir_lower::Outcome;
use hir_store::{Expr, ExpressionStore};
use printer::print_summary;
use ra_cfg::{CfgAtom, CfgExpr, CfgOptions};
use std::alloc::{AllocError, Global};
use std::test::Fail;
use sym_core::Symbol;

// The predicate that a flag is.
fn flag(alloc: Global, name: &str) -> Result<CfgExpr, AllocError> {
    let name = Symbol::new(alloc, name)?;
    Ok(CfgExpr::Atom(CfgAtom::Flag(name)))
}

// The outcome of a call that a flag switches off.
fn off(alloc: Global, name: &str) -> Result<Outcome, AllocError> {
    let flag = flag(alloc, name)?;
    let dnf = DnfExpr::new(alloc, &flag)?;
    Ok(Outcome::Off { reason: None, dnf })
}

// The example of `print_summary`, and calls that are off beside one that is code.
#[test]
fn counts_outcomes(rt: HostRuntime) -> Result<(), Fail> {
    let alloc = rt.alloc();
    let mut store = ExpressionStore::new(alloc);
    let options = CfgOptions::new(alloc)?;
    let summary = print_summary(alloc, &store, &options, &[])?;
    let nothing = b"calls 0\noff 0\ncode 0\nhints 0\nexprs 0\n";
    assert_eq!(rt; summary.as_slice(), nothing.as_slice());

    store.alloc_expr_desugared(Expr::Leaf(7))?;
    let leaf = store.alloc_expr_desugared(Expr::Leaf(8))?;
    let outcomes = [
        off(alloc, "a")?,
        Outcome::Code(leaf),
        off(alloc, "false")?,
        off(alloc, "b")?,
    ];
    let summary = print_summary(alloc, &store, &options, &outcomes)?;
    let counts = b"calls 4\noff 3\ncode 1\nhints 2\nexprs 2\n";
    assert_eq!(rt; summary.as_slice(), counts.as_slice());
    Ok(())
}
