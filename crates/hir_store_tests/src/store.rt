use hir_store::{Expr, ExpressionStore, Pat};
use std::test::Fail;
use sym_core::{AstPtr, FileId, HirFileId, InFile, Name};

fn source(node: u32) -> InFile<AstPtr> {
    InFile {
        file_id: HirFileId::File(FileId { raw: 0 }),
        value: AstPtr { node },
    }
}

#[test]
fn holds_expressions(rt: HostRuntime) -> Result<(), Fail> {
    let mut store = ExpressionStore::new(rt.alloc());
    let leaf = store.alloc_expr(Expr::Leaf(7), source(5))?;
    let reference = store.alloc_expr_desugared(Expr::Ref(leaf))?;
    assert!(rt; matches!(store.exprs[reference.idx()], Expr::Ref(_)));
    assert_eq!(rt; store.expr_map_back.get(leaf), Some(&source(5)));
    assert!(rt; store.expr_map_back.get(reference).is_none());
    Ok(())
}

#[test]
fn counts_each_kind_from_zero(rt: HostRuntime) -> Result<(), Fail> {
    let mut store = ExpressionStore::new(rt.alloc());
    let leaf = store.alloc_expr(Expr::Leaf(7), source(5))?;
    let missing = store.missing_expr()?;
    let binding = store.alloc_binding(Name::fresh(0))?;
    let pat = store.alloc_pat(Pat::Bind(binding))?;
    assert_eq!(rt; leaf.raw.into_u32(), 0);
    assert_eq!(rt; binding.raw.into_u32(), 0);
    assert_eq!(rt; pat.raw.into_u32(), 0);
    assert!(rt; matches!(store.exprs[missing.idx()], Expr::Missing));
    assert_eq!(rt; format!(in rt.alloc(); "{missing:?}")?.as_str(), "Idx(1)");
    Ok(())
}

#[test]
fn defines_bindings(rt: HostRuntime) -> Result<(), Fail> {
    let mut store = ExpressionStore::new(rt.alloc());
    let first = store.alloc_binding(Name::fresh(0))?;
    let second = store.alloc_binding(Name::fresh(1))?;
    let pat = store.alloc_pat(Pat::Bind(second))?;
    store.add_definition_to_binding(second, pat);
    assert_eq!(rt; store.bindings[first.idx()].definition, None);
    assert_eq!(rt; store.bindings[second.idx()].definition, Some(pat));
    Ok(())
}
