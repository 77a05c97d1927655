use la_arena::{Arena, Idx, IdxRange, RawIdx};
use std::hash::{DefaultHasher, Hash, Hasher};
use std::test::Fail;

fn hash_of(arena: &Arena<u32>) -> u64 {
    let mut state = DefaultHasher::new();
    arena.hash(&mut state);
    state.finish()
}

fn idx<T>(number: u32) -> Idx<T> {
    Idx::from_raw(RawIdx::from_u32(number))
}

#[test]
fn places_values(rt: HostRuntime) -> Result<(), Fail> {
    let mut arena = Arena::new(rt.alloc());
    let one = arena.alloc(10)?;
    let two = arena.alloc(20)?;
    arena[two] = 21;
    assert_eq!(rt; arena[one], 10);
    assert_eq!(rt; arena.get(two), Some(&21));
    Ok(())
}

#[test]
fn counts_from_zero(rt: HostRuntime) -> Result<(), Fail> {
    let mut arena = Arena::new(rt.alloc());
    assert!(rt; arena.is_empty());
    assert_eq!(rt; arena.alloc('a')?, idx(0));
    assert_eq!(rt; arena.alloc('b')?, idx(1));
    assert_eq!(rt; arena.len(), 2);
    assert_eq!(rt; arena.get(idx(2)), None);
    arena.clear();
    assert!(rt; arena.is_empty());
    Ok(())
}

#[test]
fn lends_slices(rt: HostRuntime) -> Result<(), Fail> {
    let mut arena = Arena::new(rt.alloc());
    let a = arena.alloc('a')?;
    let b = arena.alloc('b')?;
    let c = arena.alloc('c')?;
    assert_eq!(rt; arena.slice_of(IdxRange::new(a..c)), ['a', 'b'].as_slice());
    assert_eq!(rt;
        arena.slice_of(IdxRange::new_inclusive(b..=c)),
        ['b', 'c'].as_slice()
    );
    assert_eq!(rt;
        arena.slice_of(IdxRange::new_inclusive(a..=a)),
        ['a'].as_slice()
    );
    Ok(())
}

#[test]
fn lends_all_values(rt: HostRuntime) -> Result<(), Fail> {
    let mut arena = Arena::from_iter(rt.alloc(), ['a', 'b', 'c'])?;
    arena.as_mut_slice().reverse();
    assert_eq!(rt; arena.get(idx(0)), Some(&'c'));
    Ok(())
}

#[test]
fn places_many(rt: HostRuntime) -> Result<(), Fail> {
    let mut arena: Arena<u32> = Arena::new(rt.alloc());
    arena.alloc(5)?;
    let range = arena.alloc_many(7..9)?;
    assert_eq!(rt; range.len(), 2);
    assert_eq!(rt; arena.get(range.start()), Some(&7));
    Ok(())
}

#[test]
fn places_items_in_order(rt: HostRuntime) -> Result<(), Fail> {
    let mut arena: Arena<u32> = Arena::with_capacity(rt.alloc(), 4)?;
    assert!(rt; arena.is_empty());
    assert_eq!(rt; arena.alloc_many(0..4)?, IdxRange::new(idx(0)..idx(4)));
    arena.extend(4..6)?;
    assert_eq!(rt; arena.len(), 6);
    for (idx, value) in arena.iter() {
        assert_eq!(rt; idx.into_raw().into_u32(), *value);
    }
    Ok(())
}

#[test]
fn copies_values(rt: HostRuntime) -> Result<(), Fail> {
    let mut arena = Arena::from_iter(rt.alloc(), 7..9)?;
    let copy = arena.try_clone(rt.alloc())?;
    arena.shrink_to_fit()?;
    assert_eq!(rt; arena, copy);
    assert_eq!(rt; hash_of(&arena), hash_of(&copy));
    arena.alloc(9)?;
    assert_ne!(rt; arena, copy);
    assert_eq!(rt; copy.len(), 2);
    Ok(())
}

#[test]
fn writes_its_values(rt: HostRuntime) -> Result<(), Fail> {
    let arena = Arena::from_iter(rt.alloc(), 7..9)?;
    assert_eq!(rt;
        format!(in rt.alloc(); "{arena:?}")?.as_str(),
        "Arena { len: 2, data: [7, 8] }"
    );
    Ok(())
}

#[test]
fn goes_from_both_ends(rt: HostRuntime) -> Result<(), Fail> {
    let mut arena = Arena::new(rt.alloc());
    let a = arena.alloc('a')?;
    let b = arena.alloc('b')?;
    let mut iter = arena.iter();
    assert_eq!(rt; iter.next(), Some((a, &'a')));
    assert_eq!(rt; iter.next_back(), Some((b, &'b')));
    assert_eq!(rt; iter.next(), None);
    Ok(())
}

#[test]
fn goes_by_index(rt: HostRuntime) -> Result<(), Fail> {
    let arena = Arena::from_iter(rt.alloc(), [20, 40, 60])?;
    let mut iter = arena.iter();
    assert_eq!(rt; iter.len(), 3);
    assert_eq!(rt; iter.size_hint(), (3, Some(3)));
    assert_eq!(rt; iter.next(), Some((idx(0), &20)));
    let mut rest = iter.clone()?;
    assert_eq!(rt; rest.next(), Some((idx(1), &40)));
    assert_eq!(rt; iter.next(), Some((idx(1), &40)));
    Ok(())
}

#[test]
fn goes_over_values(rt: HostRuntime) -> Result<(), Fail> {
    let arena = Arena::from_iter(rt.alloc(), [20, 40, 60])?;
    let mut values = arena.values();
    assert_eq!(rt; values.len(), 3);
    assert_eq!(rt; values.next_back(), Some(&60));
    assert_eq!(rt; values.next(), Some(&20));
    Ok(())
}

#[test]
fn writes_by_index(rt: HostRuntime) -> Result<(), Fail> {
    let mut arena = Arena::from_iter(rt.alloc(), ['a', 'b', 'c'])?;
    assert_eq!(rt; arena.iter_mut().len(), 3);
    if let Some((_, letter)) = arena.iter_mut().next() {
        *letter = 'x';
    }
    if let Some((_, letter)) = arena.iter_mut().next_back() {
        *letter = 'z';
    }
    assert_eq!(rt; arena.get(idx(0)), Some(&'x'));
    assert_eq!(rt; arena.values().next_back(), Some(&'z'));
    Ok(())
}

#[test]
fn writes_values(rt: HostRuntime) -> Result<(), Fail> {
    let mut arena: Arena<u32> = Arena::from_iter(rt.alloc(), [10, 40])?;
    for value in arena.values_mut() {
        *value = value.wrapping_add(1);
    }
    assert_eq!(rt; arena.values_mut().len(), 2);
    if let Some(value) = arena.values_mut().next_back() {
        *value = 7;
    }
    assert_eq!(rt; arena.get(idx(0)), Some(&11));
    assert_eq!(rt; arena.get(idx(1)), Some(&7));
    Ok(())
}

#[test]
fn hands_out_values(rt: HostRuntime) -> Result<(), Fail> {
    let arena = Arena::from_iter(rt.alloc(), [11, 41])?;
    let mut items = arena.into_iter();
    assert_eq!(rt; items.next(), Some((idx(0), 11)));
    assert_eq!(rt; items.next(), Some((idx(1), 41)));
    assert_eq!(rt; items.next(), None);
    Ok(())
}
