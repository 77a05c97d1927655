use la_arena::{Idx, IdxRange, RawIdx};
use std::test::Fail;

fn idx(number: u32) -> Idx<char> {
    Idx::from_raw(RawIdx::from_u32(number))
}

#[test]
fn gives_its_indexes(rt: HostRuntime) -> Result<(), Fail> {
    let mut range = IdxRange::new(idx(3)..idx(8));
    assert_eq!(rt; range.next(), Some(idx(3)));
    assert_eq!(rt; range.next_back(), Some(idx(7)));
    assert_eq!(rt; range.nth(1), Some(idx(5)));
    assert_eq!(rt; range.start(), idx(6));
    assert_eq!(rt; range.end(), idx(7));
    Ok(())
}

#[test]
fn counts_its_indexes(rt: HostRuntime) -> Result<(), Fail> {
    let range = IdxRange::new(idx(3)..idx(8));
    assert_eq!(rt; range.size_hint(), (5, Some(5)));
    assert_eq!(rt; range.clone()?.count(), 5);
    assert_eq!(rt; range.clone()?.last(), Some(idx(7)));
    assert_eq!(rt;
        format!(in rt.alloc(); "{range:?}")?.as_str(),
        "IdxRange(3..8)"
    );
    assert_ne!(rt; range, IdxRange::new(idx(3)..idx(7)));
    Ok(())
}

#[test]
fn ends_past_its_last_index(rt: HostRuntime) -> Result<(), Fail> {
    let mut range = IdxRange::new(idx(6)..idx(7));
    assert_eq!(rt; range.nth(1), None);
    assert_eq!(rt; range, IdxRange::new(idx(7)..idx(7)));
    assert_eq!(rt; range.next(), None);
    assert_eq!(rt; range.next_back(), None);
    assert_eq!(rt; range.last(), None);
    Ok(())
}

#[test]
fn backward_ranges_are_empty(rt: HostRuntime) -> Result<(), Fail> {
    let mut range = IdxRange::new(idx(2)..idx(1));
    assert!(rt; range.is_empty());
    assert_eq!(rt; range.len(), 0);
    assert_eq!(rt; range.next(), None);
    assert_eq!(rt; range, IdxRange::new(idx(2)..idx(1)));
    Ok(())
}
