ghost use Rattle.std.specs.Prelude.{◌≡◌};
ghost use Rattle.la_arena.specs.Idx.{index_of};

use la_arena::{ArenaMap, Entry, Idx, RawIdx};
use std::cmp::Ordering;
use std::hash::{DefaultHasher, Hash, Hasher};
use std::test::Fail;

fn at(number: u32) -> Idx<u8>
    ensures { index_of result ≡ number }
{
    Idx::from_raw(RawIdx::from_u32(number))
}

fn hash_of(map: &ArenaMap<Idx<u8>, char>) -> u64 {
    let mut state = DefaultHasher::new();
    map.hash(&mut state);
    state.finish()
}

fn slot_count<V>(map: &ArenaMap<Idx<u8>, V>) -> Option<usize> {
    map.iter().size_hint().1
}

#[test]
fn holds_values(rt: HostRuntime) -> Result<(), Fail> {
    let mut map = ArenaMap::new(rt.alloc());
    assert_eq!(rt; map.insert(at(2), 'x')?, None);
    assert_eq!(rt; map.get(at(2)), Some(&'x'));
    assert_eq!(rt; map.get(at(0)), None);
    assert_eq!(rt; *map.entry(at(1))?.or_insert('y'), 'y');
    assert_eq!(rt; map.remove(at(2)), Some('x'));
    Ok(())
}

#[test]
fn has_slots_up_to_the_highest_index(rt: HostRuntime) -> Result<(), Fail> {
    let mut map = ArenaMap::with_capacity(rt.alloc(), 8)?;
    map.reserve(3)?;
    assert_eq!(rt; map.insert(at(2), 'x')?, None);
    assert_eq!(rt; map.insert(at(2), 'y')?, Some('x'));
    assert_eq!(rt; slot_count(&map), Some(3));
    assert!(rt; matches!(map.entry(at(5))?, Entry::Vacant(_)));
    assert_eq!(rt; slot_count(&map), Some(6));
    Ok(())
}

#[test]
fn compares_slots(rt: HostRuntime) -> Result<(), Fail> {
    let mut map = ArenaMap::from_iter(rt.alloc(), [(at(2), 'x')])?;
    let before = map.try_clone(rt.alloc())?;
    assert!(rt; map == before);
    assert!(rt; matches!(map.entry(at(5))?, Entry::Vacant(_)));
    assert!(rt; map != before);
    assert!(rt; map > before);
    assert_eq!(rt; before.cmp(&map), Ordering::Less);
    assert!(rt; hash_of(&before) != hash_of(&map));
    Ok(())
}

#[test]
fn shrinks_to_its_values(rt: HostRuntime) -> Result<(), Fail> {
    let mut map = ArenaMap::from_iter(rt.alloc(), [(at(1), 'x'), (at(2), 'y')])?;
    assert_eq!(rt; map.remove(at(2)), Some('y'));
    assert_eq!(rt; slot_count(&map), Some(3));
    map.shrink_to_fit()?;
    assert_eq!(rt; slot_count(&map), Some(2));
    assert_eq!(rt; map.get(at(1)), Some(&'x'));
    Ok(())
}

#[test]
fn hashes_slots(rt: HostRuntime) -> Result<(), Fail> {
    let map = ArenaMap::from_iter(rt.alloc(), [(at(2), 'x')])?;
    let copy = map.try_clone(rt.alloc())?;
    assert_eq!(rt; hash_of(&map), hash_of(&copy));
    Ok(())
}

#[test]
fn writes_by_index(rt: HostRuntime) -> Result<(), Fail> {
    let mut map = ArenaMap::new(rt.alloc());
    map.insert(at(1), 'a')?;
    assert_eq!(rt; map[at(1)], 'a');
    map[at(1)] = 'b';
    assert_eq!(rt; map.get(at(1)), Some(&'b'));
    if let Some(value) = map.get_mut(at(1)) {
        *value = 'c';
    }
    assert_eq!(rt; map.get(at(1)), Some(&'c'));
    assert!(rt; map.get_mut(at(2)).is_none());
    Ok(())
}

#[test]
fn keeps_the_slot_of_a_removed_value(rt: HostRuntime) -> Result<(), Fail> {
    let mut map = ArenaMap::new(rt.alloc());
    assert_eq!(rt; map.remove(at(1)), None);
    map.insert(at(1), 'a')?;
    assert!(rt; map.contains_idx(at(1)));
    assert_eq!(rt; map.remove(at(1)), Some('a'));
    assert!(rt; !map.contains_idx(at(1)));
    assert_eq!(rt; slot_count(&map), Some(2));
    map.clear();
    assert_eq!(rt; slot_count(&map), Some(0));
    Ok(())
}

#[test]
fn changes_values_in_place(rt: HostRuntime) -> Result<(), Fail> {
    let mut map = ArenaMap::from_iter(rt.alloc(), [(at(2), 7)])?;
    let lent = map
        .entry(at(2))?
        .and_modify(|value: &mut u32| *value = value.wrapping_add(1))
        .or_insert(0);
    assert_eq!(rt; *lent, 8);
    assert_eq!(rt; map.get(at(2)), Some(&8));
    Ok(())
}

#[test]
fn writes_all_values(rt: HostRuntime) -> Result<(), Fail> {
    let mut map = ArenaMap::from_iter(rt.alloc(), [(at(2), 8)])?;
    for value in map.values_mut() {
        *value = 9;
    }
    assert_eq!(rt; map.get(at(2)), Some(&9));
    assert!(rt; !map.contains_idx(at(1)));
    assert_eq!(rt; slot_count(&map), Some(3));
    for (idx, value) in map.iter_mut() {
        assert_eq!(rt; idx, at(2));
        *value = 10;
    }
    assert_eq!(rt; map.get(at(2)), Some(&10));
    Ok(())
}

#[test]
fn fills_vacant_slots(rt: HostRuntime) -> Result<(), Fail> {
    let mut map = ArenaMap::from_iter(rt.alloc(), [(at(2), 10)])?;
    assert_eq!(rt; *map.entry(at(0))?.or_insert_with(|| 4), 4);
    assert_eq!(rt; *map.entry(at(1))?.or_default(), 0);
    let all: Vec<u32> = map.values().rev().copied().collect(rt.alloc())?;
    assert_eq!(rt; all.as_slice(), [10, 0, 4].as_slice());
    Ok(())
}

#[test]
fn fills_a_vacant_entry(rt: HostRuntime) -> Result<(), Fail> {
    let mut map = ArenaMap::new(rt.alloc());
    if let Entry::Vacant(entry) = map.entry(at(1))? {
        *entry.insert('a') = 'b';
    }
    assert_eq!(rt; map.get(at(1)), Some(&'b'));
    Ok(())
}

#[test]
fn writes_an_occupied_entry(rt: HostRuntime) -> Result<(), Fail> {
    let mut map = ArenaMap::from_iter(rt.alloc(), [(at(1), 'b')])?;
    if let Entry::Occupied(mut entry) = map.entry(at(1))? {
        assert_eq!(rt; *entry.get(), 'b');
        *entry.get_mut() = 'c';
        assert_eq!(rt; entry.insert('d'), 'c');
        *entry.into_mut() = 'e';
    }
    assert_eq!(rt; map.get(at(1)), Some(&'e'));
    Ok(())
}

#[test]
fn empties_an_occupied_entry(rt: HostRuntime) -> Result<(), Fail> {
    let mut map = ArenaMap::from_iter(rt.alloc(), [(at(1), 'e')])?;
    if let Entry::Occupied(entry) = map.entry(at(1))? {
        assert_eq!(rt; entry.remove(), 'e');
    }
    assert!(rt; !map.contains_idx(at(1)));
    Ok(())
}

#[test]
fn goes_from_both_ends(rt: HostRuntime) -> Result<(), Fail> {
    let map = ArenaMap::from_iter(rt.alloc(), [(at(0), 'a'), (at(2), 'c')])?;
    let mut pairs = map.iter();
    assert_eq!(rt; pairs.next_back(), Some((at(2), &'c')));
    assert_eq!(rt; pairs.next(), Some((at(0), &'a')));
    assert_eq!(rt; pairs.next(), None);
    Ok(())
}

#[test]
fn hands_out_values(rt: HostRuntime) -> Result<(), Fail> {
    let mut map = ArenaMap::from_iter(rt.alloc(), [(at(0), 'a'), (at(2), 'c')])?;
    map.extend([(at(1), 'b')])?;
    let mut pairs = map.into_iter();
    assert_eq!(rt; pairs.size_hint(), (0, Some(3)));
    assert_eq!(rt; pairs.next(), Some((at(0), 'a')));
    assert_eq!(rt; pairs.next_back(), Some((at(2), 'c')));
    assert_eq!(rt; pairs.next_back(), Some((at(1), 'b')));
    assert_eq!(rt; pairs.next(), None);
    Ok(())
}
