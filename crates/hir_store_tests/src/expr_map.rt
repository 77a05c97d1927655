use hir_store::{ExprId, ExprMap};
use la_arena::RawIdx;
use std::test::Fail;

fn id(number: u32) -> ExprId {
    ExprId {
        raw: RawIdx::from_u32(number),
    }
}

#[test]
fn keeps_the_last_value_in_order(rt: HostRuntime) -> Result<(), Fail> {
    let mut map = ExprMap::new(rt.alloc());
    for (number, value) in [(7, 'a'), (4, 'b'), (9, 'c'), (7, 'd')] {
        map.insert(id(number), value)?;
    }
    assert_eq!(rt;
        map.entries(),
        [(id(4), 'b'), (id(7), 'd'), (id(9), 'c')].as_slice()
    );
    assert_eq!(rt; map.get(id(7)), Some(&'d'));
    assert!(rt; map.get(id(5)).is_none());
    assert!(rt; map.get(id(10)).is_none());
    Ok(())
}
