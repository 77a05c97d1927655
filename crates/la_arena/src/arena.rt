ghost use Rattle.std.specs.Prelude.{◌≡◌, ◌<◌, ◌≤◌, ◌^◌, ◌↔◌, List, [], Some, length, slice_get, slice_range, option_copied, IsTrue, IsNone, IsOk, IfOk, OnErr};
ghost use Rattle.std.specs.List.{enumerate_from};
ghost use Rattle.std.specs.Iterator.{IsFiniteIterable};
ghost use Rattle.std.specs.Borrow.{sem};
ghost use Rattle.std.specs.Hash as fed;
ghost use Rattle.std.specs.Hash.{items_Alike};
ghost use Rattle.std.specs.Cmp.Lexicographic.{pointwise, lists_per, lists_equiv};

use crate::idx::{Idx, RawIdx};
use crate::idx_range::IdxRange;
use crate::iter::{IntoIter, Iter, IterMut, Values, ValuesMut};
use std::alloc::{AllocError, Global};
use std::fmt;
use std::hash::{Hash, Hasher};
use std::marker::Model;
use std::ops::{Index, IndexMut};
use thiserror::Error;

/// Why an arena did not place a value. The value is dropped, and the arena is as it was.
#[derive(Debug, PartialEq, Eq, Drop, Error)]
pub enum ArenaError {
    /// The arena holds 4,294,967,295 values, and no index is left for one more.
    #[error("the arena is full")]
    Full,
    /// No memory is left.
    #[error("{0}")]
    Memory(AllocError),
}

/// A list of values of one type, each reached by the index under which it was placed.
///
/// It holds at most 4,294,967,295 values, whose indexes are 0 to 4,294,967,294.
///
/// ```
/// let mut arena = Arena::new(rt.alloc());
/// let one = arena.alloc(10)?;
/// let two = arena.alloc(20)?;
/// arena[two] = 21;
/// assert_eq!(rt; arena[one], 10);
/// assert_eq!(rt; arena.get(two), Some(&21));
/// ```
#[derive(Drop)]
pub struct Arena<T> {
    data: Vec<T>,
}

impl<T> Model for Arena<T> {
    ghost use Rattle.std.specs.Prelude.{◌^◌, ◌<◌, List, length};
    ghost use Rattle.std.specs.Coded.{coded_list};

    ghost Value = { List T };

    ghost coded = { coded_list T.code };

    ghost view = { λ arena. arena.data.items };

    ghost invariant = { λ arena. length arena.data.items < 2 ^ 32 };
}

impl<T> Arena<T> {
    ghost use Rattle.la_arena.specs.Idx.{index_of};
    ghost use Rattle.la_arena.specs.Arena.{Places, PlacesItems, CollectsItems};
    ghost use Rattle.la_arena.specs.Iter.{iter_mut_rest, iter_mut_name, values_mut_rest, values_mut_name, IterMutCanStep};
    ghost use Rattle.la_arena.specs.Lends.{lends_values};

    /// Creates a new empty arena, which takes no memory.
    pub fn new(alloc: Global) -> Arena<T>
        ensures { result ≡ [] }
    {
        Arena {
            data: Vec::new(alloc),
        }
    }

    /// Creates a new empty arena with room for `capacity` values.
    pub fn with_capacity(alloc: Global, capacity: usize) -> Result<Arena<T>, AllocError>
        ensures { IfOk result (λ arena. arena ≡ []) }
    {
        Ok(Arena {
            data: Vec::with_capacity(alloc, capacity)?,
        })
    }

    /// Empties the arena, and drops all its values.
    pub fn clear(&mut self)
    where
        T: Drop,
        ensures { self.new ≡ [] }
    {
        self.data.clear();
    }

    /// Returns how many values the arena holds.
    pub fn len(&self) -> usize
        ensures value { result ≡ length self.now }
        ensures bound { result < 2 ^ 32 }
    {
        self.data.len()
    }

    /// Returns whether the arena holds no values.
    pub fn is_empty(&self) -> bool
        ensures { IsTrue result ↔ (self.now ≡ []) }
    {
        self.data.is_empty()
    }

    /// Returns the value at an index, or `None` where the index is not below `len`.
    pub fn get(&self, idx: Idx<T>) -> Option<&T>
        ensures value { option_copied result ≡ slice_get self.now (index_of idx) }
        ensures none { IsNone result ↔ (length self.now ≤ index_of idx) }
    {
        self.data.get(idx.into_raw().into_u32() as usize)
    }

    /// Places a value behind the others, and returns its index: how many there were before.
    ///
    /// `Full` comes exactly where the arena holds 4,294,967,295 values. A value that is refused is dropped.
    pub fn alloc(&mut self, value: T) -> Result<Idx<T>, ArenaError>
    where
        T: Drop,
        ensures ok { IfOk result (λ idx. Places self.old value (index_of idx) self.new) }
        ensures fits { length self.new < 2 ^ 32 }
        ensures full { result ≡ Err ArenaError.Full ↔ (length self.old ≡ 4_294_967_295) }
        ensures err { OnErr result (self.new ≡ self.old) }
    {
        let index = self.data.len();
        if index == u32::MAX as usize {
            return Err(ArenaError::Full);
        }
        match self.data.push(value) {
            Ok(()) => Ok(Idx::from_raw(RawIdx::from_u32(index as u32))),
            Err(_) => Err(ArenaError::Memory(AllocError)),
        }
    }

    /// Places the items of an iterator one behind the other, and returns the range of their indexes.
    ///
    /// The iterator must end. A refusal keeps the items that were placed before it, and drops the one that found no room.
    ///
    /// ```
    /// let mut arena: Arena<u32> = Arena::new(rt.alloc());
    /// arena.alloc(5)?;
    /// let range = arena.alloc_many(7..9)?;
    /// assert_eq!(rt; range.len(), 2);
    /// assert_eq!(rt; arena.get(range.start()), Some(&7));
    /// ```
    pub fn alloc_many<I: IntoIterator<Item = T>>(
        &mut self,
        iter: I,
    ) -> Result<IdxRange<T>, ArenaError>
    where
        T: Drop,
        requires { IsFiniteIterable I.into_iter_gives I.IntoIter.can_next I.IntoIter.remaining iter }
        ensures range { IfOk result (λ range. (range.start ≡ length self.old) × (range.end ≡ length self.new)) }
        ensures ordered { IfOk result (λ range. range.start ≤ range.end) }
        ensures placed { (s : I.IntoIter) × (items : List T) × I.into_iter_gives iter s × PlacesItems I.IntoIter.next_gives s items self.old result self.new }
    {
        let start = self.next_idx();
        self.extend(iter)?;
        let end = self.next_idx();
        Ok(IdxRange::new(start..end))
    }

    /// Places the items of an iterator one behind the other.
    ///
    /// The iterator must end. A refusal keeps the items that were placed before it, and drops the one that found no room.
    pub fn extend<I: IntoIterator<Item = T>>(&mut self, iter: I) -> Result<(), ArenaError>
    where
        T: Drop,
        requires { IsFiniteIterable I.into_iter_gives I.IntoIter.can_next I.IntoIter.remaining iter }
        ensures placed { (s : I.IntoIter) × (items : List T) × I.into_iter_gives iter s × PlacesItems I.IntoIter.next_gives s items self.old result self.new }
    {
        for value in iter {
            self.alloc(value)?;
        }
        Ok(())
    }

    /// Creates an arena of the items of an iterator, in their order. The iterator must end.
    pub fn from_iter<I: IntoIterator<Item = T>>(
        alloc: Global,
        iter: I,
    ) -> Result<Arena<T>, ArenaError>
    where
        T: Drop,
        requires { IsFiniteIterable I.into_iter_gives I.IntoIter.can_next I.IntoIter.remaining iter }
        ensures { (s : I.IntoIter) × (items : List T) × I.into_iter_gives iter s × CollectsItems I.IntoIter.next_gives s items result }
    {
        let mut arena = Arena::new(alloc);
        arena.extend(iter)?;
        Ok(arena)
    }

    /// Returns an iterator over the arena's elements, each with its index.
    ///
    /// ```
    /// let a = arena.alloc('a')?;
    /// let b = arena.alloc('b')?;
    /// let mut iter = arena.iter();
    /// assert_eq!(rt; iter.next(), Some((a, &'a')));
    /// assert_eq!(rt; iter.next_back(), Some((b, &'b')));
    /// assert_eq!(rt; iter.next(), None);
    /// ```
    pub fn iter(&self) -> Iter<'_, T>
        ensures left { result ≡ enumerate_from 0 self.now }
        ensures fits { length self.now < 2 ^ 32 }
    {
        Iter::new(self.data.as_slice())
    }

    /// Returns an iterator over the arena's values.
    pub fn values(&self) -> Values<'_, T>
        ensures left { result ≡ self.now }
        ensures fits { length self.now < 2 ^ 32 }
    {
        Values::new(self.data.as_slice())
    }

    /// Returns an iterator over the arena's elements for writing, each with its index.
    ///
    /// ```
    /// let mut arena = Arena::from_iter(rt.alloc(), ['a', 'b', 'c'])?;
    /// if let Some((_, letter)) = arena.iter_mut().next_back() {
    ///     *letter = 'z';
    /// }
    /// assert_eq!(rt; arena.values().next_back(), Some(&'z'));
    /// ```
    pub fn iter_mut(&mut self) -> IterMut<'_, T>
        ensures* writes_back { sem 𝓛 (lends_values T.row self.entry (iter_mut_name result)) }
        ensures rest { iter_mut_rest result ≡ enumerate_from 0 self.old }
        ensures fits { length self.old < 2 ^ 32 }
        ensures ready { IterMutCanStep result }
    {
        IterMut::new(self.data.as_mut_slice())
    }

    /// Returns an iterator over the arena's values for writing.
    pub fn values_mut(&mut self) -> ValuesMut<'_, T>
        ensures* writes_back { sem 𝓛 (lends_values T.row self.entry (values_mut_name result)) }
        ensures rest { values_mut_rest result ≡ self.old }
        ensures fits { length self.old < 2 ^ 32 }
    {
        ValuesMut::new(self.data.as_mut_slice())
    }

    /// Returns the values of a range of indexes, in order.
    ///
    /// The start of the range must be at most its end, and its end at most `len`.
    pub fn slice_of(&self, range: IdxRange<T>) -> &[T]
        requires ordered { range.start ≤ range.end }
        requires within { range.end ≤ length self.now }
        ensures { result.now ≡ slice_range self.now range.start range.end }
    {
        let start = range.start().into_raw().into_u32() as usize;
        let end = range.end().into_raw().into_u32() as usize;
        &self.data[start..end]
    }

    /// Returns all values, in order, for writing.
    pub fn as_mut_slice(&mut self) -> &mut [T]
        ensures* writes_back { sem 𝓛 (lends_values T.row self.entry result.ghost_name) }
        ensures value { result.now ≡ self.old }
    {
        self.data.as_mut_slice()
    }

    /// Gives back the memory that the arena does not need, and keeps its values.
    pub fn shrink_to_fit(&mut self) -> Result<(), AllocError>
        ensures kept { self.new ≡ self.old }
        ensures ok { IsOk result }
    {
        self.data.shrink_to_fit();
        Ok(())
    }

    /// Returns an arena with a copy of each value, in the same order.
    ///
    /// A copy of a value must equal the value.
    pub fn try_clone(&self, alloc: Global) -> Result<Arena<T>, AllocError>
    where
        T: Clone,
        requires { (x y : T) → T.is_clone x y → y ≡ x }
        ensures { IfOk result (λ copy. copy ≡ self.now) }
    {
        Ok(Arena {
            data: Vec::from_clones(alloc, self.data.as_slice())?,
        })
    }

    // The index of the next value that is placed.
    fn next_idx(&self) -> Idx<T>
        ensures { index_of result ≡ length self.now }
    {
        Idx::from_raw(RawIdx::from_u32(self.data.len() as u32))
    }
}

impl<T> Index<Idx<T>> for Arena<T> {
    ghost use Rattle.la_arena.specs.Idx.{index_of};

    type Output = T;

    ghost can_index = { λ arena idx. index_of idx < length arena };

    ghost index_gives = { λ arena idx value. slice_get arena (index_of idx) ≡ Some value };

    fn index(&self, idx: Idx<T>) -> &T {
        &self.data[idx.into_raw().into_u32() as usize]
    }
}

impl<T> IndexMut<Idx<T>> for Arena<T> {
    ghost use Rattle.la_arena.specs.Idx.{index_of};
    ghost use Rattle.la_arena.specs.Lends.{lends_value};

    fn index_mut(&mut self, idx: Idx<T>) -> &mut T
        requires { index_of idx < length self.old }
        ensures* writes_back { sem 𝓛 (lends_value T.row self.entry (index_of idx) result) }
        ensures value { slice_get self.old (index_of idx) ≡ Some result.now }
    {
        &mut self.data[idx.into_raw().into_u32() as usize]
    }
}

impl<T: Drop> IntoIterator for Arena<T> {
    type Item = (Idx<T>, T);

    type IntoIter = IntoIter<T>;

    ghost into_iter_gives = { λ arena rest. (rest ≡ enumerate_from 0 arena) × (length arena < 2 ^ 32) };

    fn into_iter(self) -> IntoIter<T> {
        IntoIter::new(self.data)
    }
}

impl<T: fmt::Debug> fmt::Debug for Arena<T> {
    fn fmt<W: fmt::Write>(&self, f: &mut fmt::Formatter<W>) -> fmt::Result {
        f.debug_struct("Arena")
            .field("len", &self.len())
            .field("data", &self.data)
            .finish()
    }
}

impl<T: PartialEq> PartialEq for Arena<T> {
    ghost eq = { pointwise T.eq };

    ghost laws = { lists_per T.laws };

    fn eq(&self, other: &Arena<T>) -> bool {
        self.data.as_slice() == other.data.as_slice()
    }
}

impl<T: Eq> Eq for Arena<T> {
    ghost laws = { lists_equiv T.Eq.laws };
}

impl<T: Hash> Hash for Arena<T> {
    ghost hash_input = { fed.slice T.hash_input };

    ghost respects_eq = { (items_Alike (record { fed = T.respects_eq })).fed };

    fn hash<H: Hasher>(&self, state: &mut H) {
        self.data.as_slice().hash(state);
    }
}
