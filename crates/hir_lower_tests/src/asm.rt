use crate::calls::{ITEMS, SOMEWHERE, collector, printed, some_macros, template};
use ra_cfg::CfgOptions;
use sqlite_items::Items;
use std::alloc::{AllocError, Global};
use std::test::Fail;
use sym_core::Symbol;
use syn_trees::{
    AsmCall, AsmDir, AsmExprSyntax, AsmExprs, AsmOperandSyntax, AsmPiece, AsmPieceKind,
    AsmRegSyntax, LeafSyntax,
};

// The word of a text, where there is one.
fn symbol(alloc: Global, text: &str) -> Result<Option<Symbol>, AllocError> {
    if text.is_empty() {
        return Ok(None);
    }
    Ok(Some(Symbol::new(alloc, text)?))
}

// `NAME = in(CLASS) LEAF`, where an empty text stands for what is not there.
fn value_in(alloc: Global, name: &str, class: &str, leaf: u32) -> Result<AsmPiece, AllocError> {
    let name = symbol(alloc, name)?;
    let reg = symbol(alloc, class)?.map(AsmRegSyntax::Class);
    let op = AsmOperandSyntax::Reg {
        dir: Some(AsmDir::In),
        reg,
        exprs: Some(AsmExprs {
            first: Some(AsmExprSyntax::Leaf(LeafSyntax {
                leaf,
                ptr: SOMEWHERE,
            })),
            arrow: false,
            second: None,
        }),
    };
    Ok(AsmPiece {
        cfgs: Items::new(alloc),
        kind: AsmPieceKind::Operand { name, op: Some(op) },
    })
}

// `asm!("{}{y}", y = in(..) @9, in(reg) @1)`, where the first operand has no register.
fn call(alloc: Global) -> Result<AsmCall, AllocError> {
    let mut templates = Items::new(alloc);
    templates.push(template(alloc, r#""{}{y}""#)?)?;
    let mut pieces = Items::new(alloc);
    pieces.push(value_in(alloc, "y", "", 9)?)?;
    pieces.push(value_in(alloc, "", "reg", 1)?)?;
    Ok(AsmCall {
        global: false,
        naked: false,
        templates,
        pieces,
        ptr: SOMEWHERE,
    })
}

// An operand that is dropped places nothing, and leaves no name.
#[test]
fn lowers_inline_assembly(rt: HostRuntime) -> Result<(), Fail> {
    let alloc = rt.alloc();
    let macros = some_macros(alloc)?;
    let options = CfgOptions::new(alloc)?;
    let mut collector = collector(alloc, &macros, 128, ITEMS);
    let code = collector.lower_inline_asm(alloc, &call(alloc)?, &options, &macros)?;
    let store = collector.store();
    let printed = printed(alloc, store, code)?;
    let want = "0 code asm!(in(reg) @1)\n0 map 0 2..2 0\n";
    assert_eq!(rt; printed.as_slice(), want.as_bytes());
    assert_eq!(rt; store.exprs.len(), 2);
    Ok(())
}
