use hir_store::{ExprId, ExprIds};
use la_arena::RawIdx;
use std::test::Fail;

fn id(number: u32) -> ExprId {
    ExprId {
        raw: RawIdx::from_u32(number),
    }
}

#[test]
fn keeps_any_number_of_ids(rt: HostRuntime) -> Result<(), Fail> {
    let ids = [id(4), id(0), id(7), id(7), id(2)];
    for count in 0..6 {
        let row = ExprIds::from_slice(rt.alloc(), &ids[..count])?;
        assert_eq!(rt; row.as_slice(), &ids[..count], "{count} ids");
    }
    assert!(rt; ExprIds::new().as_slice().is_empty());
    Ok(())
}
