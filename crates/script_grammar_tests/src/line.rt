use script_grammar::{Item, read_item};
use std::test::Fail;
use sym_core::AstPtr;
use text_cut::begin;

// The example of `read_item`.
#[test]
fn reads_an_item(rt: HostRuntime) -> Result<(), Fail> {
    let found = read_item(rt.alloc(), begin("opt unix\n"), AstPtr { node: 0 })?;
    let (item, end) = found.expect(&rt, "an option");
    assert!(rt; matches!(item, Item::Flag(_)));
    assert_eq!(rt; end.at, 9);
    Ok(())
}
