ghost use Rattle.std.specs.Prelude.{◌≡◌, ◌<◌, ◌≤◌, ◌^◌, ◌↔◌, ◌+◌, List, [], Option, Some, None, length, option_copied, slice_set, IsTrue, IsSome, IsNone, IfOk, IfErr, OnOk, OnErr, IsOk};
ghost use Rattle.std.specs.Borrow.{sem};
ghost use Rattle.std.specs.Cmp.Lexicographic.{pointwise, slice_cmp, slice_partial_cmp, lists_per, lists_equiv, lists_po, lists_agrees, lists_total, lists_ties, options_equiv, options_total};
ghost use Rattle.std.specs.Hash as fed;
ghost use Rattle.std.specs.Hash.{items_Alike};
ghost use Rattle.std.specs.Iterator.{IsFiniteIterable};
ghost use Rattle.std.specs.Option.{option_copied_mut, option_eq, option_cmp, option_partial_cmp};
ghost use Rattle.la_arena.specs.Idx.{index_of};
ghost use Rattle.la_arena.specs.OptionLaws.{options_per, options_po, options_agrees, options_ties, options_Alike};
ghost use Rattle.la_arena.specs.Map.{slot_at, grown, with_slot, Updates, IsTrimmed};

mod entry;
mod into_iter;
mod iter;
mod iter_mut;

use crate::idx::{Idx, RawIdx};
pub use entry::{Entry, OccupiedEntry, VacantEntry};
pub use into_iter::ArenaMapIter;
pub use iter::{MapIter, MapValues};
pub use iter_mut::{MapIterMut, MapValuesMut};
use std::alloc::{AllocError, Global};
use std::cmp::Ordering;
use std::hash::{Hash, Hasher};
use std::marker::{Model, PhantomData};
use std::ops::{Index, IndexMut};
use thiserror::Error;

/// Why a map did not take a value in: no memory is left. The value comes back, and the map is as it was.
#[derive(Debug, PartialEq, Eq, Drop, Error)]
#[error("no memory is left for one more value")]
pub struct InsertRefused<V> {
    /// The value that was refused.
    pub value: V,
}

impl<V: Drop> From<InsertRefused<V>> for AllocError {
    fn from(_: InsertRefused<V>) -> AllocError {
        AllocError
    }
}

/// A map from arena indexes to some other type.
///
/// It has a slot for each number up to the highest index that it was asked to hold, and a slot holds a value or nothing.
/// Equality, order and hash see the list of slots, empty ones at its end too. Where `at(n)` is the index of number `n`:
///
/// ```
/// let mut map = ArenaMap::new(rt.alloc());
/// assert_eq!(rt; map.insert(at(2), 'x')?, None);
/// assert_eq!(rt; map.get(at(2)), Some(&'x'));
/// assert_eq!(rt; map.get(at(0)), None);
/// assert_eq!(rt; *map.entry(at(1))?.or_insert('y'), 'y');
/// assert_eq!(rt; map.remove(at(2)), Some('x'));
/// ```
#[derive(Debug, Drop)]
pub struct ArenaMap<IDX, V> {
    slots: Vec<Option<V>>,
    marker: PhantomData<IDX>,
}

impl<IDX, V> Model for ArenaMap<IDX, V> {
    ghost use Rattle.std.specs.Prelude.{◌^◌, ◌≤◌, List, Option, length};
    ghost use Rattle.std.specs.Coded.{coded_list, coded_option};

    ghost Value = { List (Option V) };

    ghost coded = { coded_list (coded_option V.code) };

    ghost view = { λ map. map.slots.items };

    ghost invariant = { λ map. length map.slots.items ≤ 2 ^ 32 };
}

impl<T, V> ArenaMap<Idx<T>, V> {
    ghost use Rattle.la_arena.specs.contracts.idx.Idx.{the_row as idx_row};
    ghost use Rattle.la_arena.specs.MapLends.{lends_get};
    ghost use Rattle.la_arena.specs.MapExtend.{Extends, IsMapOf};
    ghost use Rattle.la_arena.specs.SlotsLeft.{HasIndexes};
    ghost use Rattle.la_arena.specs.MapIterMut.{pairs_mut_left, pairs_mut_name, values_mut_left, values_mut_name, with_slots, lends_slots};
    ghost use Rattle.la_arena.specs.EntryLends.{lends_entry};
    ghost use Rattle.la_arena.specs.Entry.{map_of, slots_of, slots_with, value_of, IsEntryOf};

    /// Creates a new empty map, which takes no memory.
    pub fn new(alloc: Global) -> Self
        ensures { result ≡ [] }
    {
        ArenaMap {
            slots: Vec::new(alloc),
            marker: PhantomData,
        }
    }

    /// Creates a new empty map with room for `capacity` slots.
    pub fn with_capacity(alloc: Global, capacity: usize) -> Result<Self, AllocError>
        ensures { IfOk result (λ map. map ≡ []) }
    {
        Ok(ArenaMap {
            slots: Vec::with_capacity(alloc, capacity)?,
            marker: PhantomData,
        })
    }

    /// Reserves room for at least `additional` more slots. The map stays the same on either answer.
    pub fn reserve(&mut self, additional: usize) -> Result<(), AllocError>
        ensures { self.new ≡ self.old }
    {
        self.slots.reserve(additional)
    }

    /// Removes every value and every slot, and keeps the memory.
    pub fn clear(&mut self)
    where
        V: Drop,
        ensures { self.new ≡ [] }
    {
        self.slots.clear();
    }

    /// Gives back the memory that is not needed, and the empty slots behind the last value.
    ///
    /// The map keeps its values, and the answer is `Ok`.
    ///
    /// ```
    /// let mut map = ArenaMap::from_iter(rt.alloc(), [(at(1), 'x'), (at(2), 'y')])?;
    /// assert_eq!(rt; map.remove(at(2)), Some('y'));
    /// map.shrink_to_fit()?;
    /// assert_eq!(rt; map.get(at(1)), Some(&'x'));
    /// ```
    pub fn shrink_to_fit(&mut self) -> Result<(), AllocError>
    where
        V: Drop,
        ensures trimmed { IsTrimmed self.old self.new }
        ensures ok { IsOk result }
    {
        while let Some(None) = self.slots.last() {
            self.slots.pop();
        }
        self.slots.shrink_to_fit();
        Ok(())
    }

    /// Returns whether the map holds a value for the index.
    pub fn contains_idx(&self, idx: Idx<T>) -> bool
        ensures { IsTrue result ↔ IsSome (slot_at self.now (index_of idx)) }
    {
        self.get(idx).is_some()
    }

    /// Removes an index from the map, and returns the value that it held. The slot stays.
    pub fn remove(&mut self, idx: Idx<T>) -> Option<V>
        ensures value { result ≡ slot_at self.old (index_of idx) }
        ensures emptied { self.new ≡ slice_set self.old (index_of idx) None }
    {
        self.slots.get_mut(Self::to_idx(idx))?.take()
    }

    /// Inserts a value for the index, and returns the value that it held before.
    ///
    /// There are then slots up to the index at least. A value that is refused for want of memory comes back.
    pub fn insert(&mut self, idx: Idx<T>, t: V) -> Result<Option<V>, InsertRefused<V>>
        ensures old { IfOk result (λ old. old ≡ slot_at self.old (index_of idx)) }
        ensures ok { OnOk result (self.new ≡ with_slot self.old (index_of idx) (Some t)) }
        ensures updates { OnOk result (Updates self.old self.new (index_of idx) (Some t)) }
        ensures value_returned { IfErr result (λ refused. refused.value ≡ t) }
        ensures err { OnErr result (self.new ≡ self.old) }
    {
        let index = Self::to_idx(idx);
        if self.grow(index + 1).is_err() {
            return Err(InsertRefused { value: t });
        }
        Ok(self.slots[index].replace(t))
    }

    /// Returns the value for the index, or `None` where the map holds none.
    pub fn get(&self, idx: Idx<T>) -> Option<&V>
        ensures { option_copied result ≡ slot_at self.now (index_of idx) }
    {
        self.slots.get(Self::to_idx(idx))?.as_ref()
    }

    /// Returns the value for the index, to write, or `None` where the map holds none.
    pub fn get_mut(&mut self, idx: Idx<T>) -> Option<&mut V>
        ensures* writes_back { sem 𝓛 (lends_get (idx_row T.row) V.row self.entry (index_of idx) result) }
        ensures value { option_copied_mut result ≡ slot_at self.old (index_of idx) }
    {
        self.slots.get_mut(Self::to_idx(idx))?.as_mut()
    }

    /// Returns an iterator over the values in the map, by rising index.
    pub fn values(&self) -> MapValues<'_, V>
        ensures left { result ≡ self.now }
        ensures fits { length self.now ≤ 2 ^ 32 }
    {
        MapValues {
            slots: self.slots.iter(),
        }
    }

    /// Returns an iterator over mutable references to the values in the map, by rising index.
    pub fn values_mut(&mut self) -> MapValuesMut<'_, V>
        ensures* writes_back { sem 𝓛 (lends_slots (idx_row T.row) V.row self.entry (values_mut_name result)) }
        ensures left { values_mut_left result ≡ self.old }
        ensures fits { length self.old ≤ 2 ^ 32 }
        ensures slot_count { (written : List (Option V))
            → length (with_slots self.old written) ≡ length self.old }
    {
        MapValuesMut {
            slots: self.slots.as_mut_slice().iter_mut(),
        }
    }

    /// Returns an iterator over the arena indexes and values in the map, by rising index.
    ///
    /// ```
    /// let map = ArenaMap::from_iter(rt.alloc(), [(at(0), 'a'), (at(2), 'c')])?;
    /// let mut pairs = map.iter();
    /// assert_eq!(rt; pairs.next_back(), Some((at(2), &'c')));
    /// assert_eq!(rt; pairs.next(), Some((at(0), &'a')));
    /// assert_eq!(rt; pairs.next(), None);
    /// ```
    pub fn iter(&self) -> MapIter<'_, Idx<T>, V>
        ensures left { result ≡ (0, self.now) }
        ensures fits { length self.now ≤ 2 ^ 32 }
    {
        MapIter {
            first: 0,
            slots: self.slots.iter(),
            marker: PhantomData,
        }
    }

    /// Returns an iterator over the arena indexes and values in the map, each value to write, by rising index.
    pub fn iter_mut(&mut self) -> MapIterMut<'_, Idx<T>, V>
        ensures* writes_back { sem 𝓛 (lends_slots (idx_row T.row) V.row self.entry (pairs_mut_name result)) }
        ensures left { pairs_mut_left result ≡ (0, self.old) }
        ensures fits { length self.old ≤ 2 ^ 32 }
        ensures ready { HasIndexes (pairs_mut_left result) }
        ensures slot_count { (written : List (Option V))
            → length (with_slots self.old written) ≡ length self.old }
    {
        MapIterMut {
            first: 0,
            slots: self.slots.as_mut_slice().iter_mut(),
            marker: PhantomData,
        }
    }

    /// Returns the entry of the index, to read, insert or change in place.
    ///
    /// The map has slots up to the index from then on, whatever is done with the entry.
    pub fn entry(&mut self, idx: Idx<T>) -> Result<Entry<'_, Idx<T>, V>, AllocError>
        // It borrows this map, as it is with a slot for the index.
        ensures* writes_back { sem 𝓛 (lends_entry (idx_row T.row) V.row self.entry result) }
        ensures same_reference { IfOk result (λ e. (map_of e).ghost_name ≡ self.entry.ghost_name) }
        ensures slots { IfOk result (λ e. slots_of e ≡ grown self.old (index_of idx + 1)) }

        // It is occupied exactly where the index holds a value.
        ensures value { IfOk result (λ e. value_of e ≡ slot_at self.old (index_of idx)) }
        ensures kind { IfOk result (λ e. IsEntryOf e (slot_at self.old (index_of idx))) }

        // Writing through it writes the slot of the index.
        ensures writes { IfOk result (λ e. (slot : Option V)
            → slots_with e slot ≡ with_slot self.old (index_of idx) slot) }
    {
        let index = Self::to_idx(idx);
        self.grow(index + 1)?;
        if self.slots[index].is_some() {
            Ok(Entry::Occupied(OccupiedEntry { map: self, index }))
        } else {
            Ok(Entry::Vacant(VacantEntry { map: self, index }))
        }
    }

    /// Inserts each pair, one after the other.
    ///
    /// Where no memory is left, the pairs that came before are in the map, and the one that did not fit is dropped.
    pub fn extend<I: IntoIterator<Item = (Idx<T>, V)>>(&mut self, iter: I) -> Result<(), AllocError>
    where
        V: Drop,
        requires { IsFiniteIterable I.into_iter_gives I.IntoIter.can_next I.IntoIter.remaining iter }
        ensures { Extends I.into_iter_gives I.IntoIter.next_gives iter self.old self.new result }
    {
        for (idx, value) in iter {
            self.insert(idx, value)?;
        }
        Ok(())
    }

    /// Creates a map by one insert for each pair, one after the other.
    pub fn from_iter<I: IntoIterator<Item = (Idx<T>, V)>>(
        alloc: Global,
        iter: I,
    ) -> Result<Self, AllocError>
    where
        V: Drop,
        requires { IsFiniteIterable I.into_iter_gives I.IntoIter.can_next I.IntoIter.remaining iter }
        ensures { IfOk result (IsMapOf I.into_iter_gives I.IntoIter.next_gives iter) }
    {
        let mut map = ArenaMap::new(alloc);
        map.extend(iter)?;
        Ok(map)
    }

    /// Returns an equal map in memory of `alloc`. It asks that a clone of a value equals the value.
    pub fn try_clone(&self, alloc: Global) -> Result<Self, AllocError>
    where
        V: Clone,
        requires { (x y : V) → V.is_clone x y → y ≡ x }
        ensures { IfOk result (λ copy. copy ≡ self.now) }
    {
        Ok(ArenaMap {
            slots: Vec::from_clones(alloc, self.slots.as_slice())?,
            marker: PhantomData,
        })
    }

    // Puts empty slots behind the others, so that there are `count` at least.
    fn grow(&mut self, count: usize) -> Result<(), AllocError>
        requires { count ≤ 2 ^ 32 }
        ensures ok { OnOk result (self.new ≡ grown self.old count) }
        ensures err { OnErr result (self.new ≡ self.old) }
    {
        let missing = count.saturating_sub(self.slots.len());
        self.slots.reserve(missing)?;
        for _ in 0..missing {
            self.slots.push_reserved(None);
        }
        Ok(())
    }

    fn from_idx(idx: usize) -> Idx<T>
        requires { idx < 2 ^ 32 }
        ensures { index_of result ≡ idx }
    {
        Idx::from_raw(RawIdx::from_u32(idx as u32))
    }

    fn to_idx(idx: Idx<T>) -> usize
        ensures value { result ≡ index_of idx }
        ensures bound { result < 2 ^ 32 }
    {
        idx.into_raw().into_u32() as usize
    }
}

impl<IDX, V> ArenaMap<IDX, V> {
    ghost use Rattle.la_arena.specs.MapLends.{lends_value};

    // The value of an occupied slot.
    fn value_at(&self, index: usize) -> &V
        requires { IsSome (slot_at self.now index) }
        ensures { slot_at self.now index ≡ Some result.now }
    {
        self.slots[index].as_ref().unwrap()
    }

    // The value of an occupied slot, to write.
    fn value_mut_at(&mut self, index: usize) -> &mut V
        requires { IsSome (slot_at self.old index) }
        ensures* writes_back { sem 𝓛 (lends_value IDX.row V.row self.entry index result) }
        ensures value { slot_at self.old index ≡ Some result.now }
    {
        self.slots[index].as_mut().unwrap()
    }

    // Fills an empty slot, and returns its value, to write.
    fn place_at(&mut self, index: usize, value: V) -> &mut V
        requires within { index < length self.old }
        requires vacant { IsNone (slot_at self.old index) }
        ensures* writes_back { sem 𝓛 (lends_value IDX.row V.row self.entry index result) }
        ensures value { result.now ≡ value }
    {
        match self.slots[index].replace(value) {
            None => self.value_mut_at(index),
            Some(_) => unreachable!(),
        }
    }

    // Empties an occupied slot.
    fn take_at(&mut self, index: usize) -> V
        requires { IsSome (slot_at self.old index) }
        ensures value { slot_at self.old index ≡ Some result }
        ensures emptied { self.new ≡ slice_set self.old index None }
    {
        self.slots[index].take().unwrap()
    }
}

impl<IDX, V: PartialEq> PartialEq for ArenaMap<IDX, V> {
    ghost eq = { pointwise (option_eq V.eq) };

    ghost laws = { lists_per (options_per V.laws) };

    fn eq(&self, other: &ArenaMap<IDX, V>) -> bool {
        self.slots.as_slice() == other.slots.as_slice()
    }
}

impl<IDX, V: Eq> Eq for ArenaMap<IDX, V> {
    ghost laws = { lists_equiv (options_equiv V.Eq.laws) };
}

impl<IDX, V: PartialOrd> PartialOrd for ArenaMap<IDX, V> {
    ghost partial_cmp = { slice_partial_cmp (option_partial_cmp V.partial_cmp) };

    ghost laws = { lists_po (options_po V.PartialOrd.laws) };

    fn partial_cmp(&self, other: &ArenaMap<IDX, V>) -> Option<Ordering> {
        self.slots.as_slice().partial_cmp(&other.slots.as_slice())
    }
}

impl<IDX, V: Ord> Ord for ArenaMap<IDX, V> {
    ghost cmp = { slice_cmp (option_cmp V.cmp) };

    ghost total = { lists_total (options_total V.total) };

    ghost matches_partial_cmp = { lists_agrees (options_agrees V.matches_partial_cmp) };

    ghost matches_eq = { lists_ties (option_cmp V.cmp) (options_ties V.cmp V.matches_eq) };

    fn cmp(&self, other: &ArenaMap<IDX, V>) -> Ordering {
        self.slots.as_slice().cmp(&other.slots.as_slice())
    }
}

impl<IDX, V: Hash> Hash for ArenaMap<IDX, V> {
    ghost hash_input = { fed.slice (fed.option V.hash_input) };

    ghost respects_eq = { (items_Alike (options_Alike (record { fed = V.respects_eq }))).fed };

    fn hash<H: Hasher>(&self, state: &mut H) {
        self.slots.as_slice().hash(state);
    }
}

impl<T, V> Index<Idx<T>> for ArenaMap<Idx<T>, V> {
    type Output = V;

    ghost can_index = { λ map idx. IsSome (slot_at map (index_of idx)) };

    ghost index_gives = { λ map idx value. slot_at map (index_of idx) ≡ Some value };

    fn index(&self, idx: Idx<T>) -> &V {
        self.value_at(Self::to_idx(idx))
    }
}

impl<T, V> IndexMut<Idx<T>> for ArenaMap<Idx<T>, V> {
    ghost use Rattle.la_arena.specs.contracts.idx.Idx.{the_row as idx_row};
    ghost use Rattle.la_arena.specs.MapLends.{lends_value};

    fn index_mut(&mut self, idx: Idx<T>) -> &mut V
        requires { IsSome (slot_at self.old (index_of idx)) }
        ensures* writes_back { sem 𝓛 (lends_value (idx_row T.row) V.row self.entry (index_of idx) result) }
        ensures value { slot_at self.old (index_of idx) ≡ Some result.now }
    {
        self.value_mut_at(Self::to_idx(idx))
    }
}
