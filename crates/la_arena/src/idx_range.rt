ghost use Rattle.std.specs.Prelude.{◌≡◌, ◌+◌, ◌<◌, ◌≤◌, ◌^◌, ◌↔◌, ◌++◌, Some, IfSome, IsTrue, MatchOption, codes, length};
ghost use Rattle.std.specs.Fmt.{decimal};
ghost use Rattle.std.specs.Iterator.{item_count, at_most, IsFinite, size, UpTo};
ghost use Rattle.std.specs.Range.{range_inclusive_start, range_inclusive_end};
ghost use Rattle.std.specs.Iterator.SizeHint.{IsWithinCount};
ghost use Rattle.la_arena.specs.Idx.{index_of};
ghost use Rattle.la_arena.specs.IdxRange.{Span, numbers, TakesFirst, TakesLast, TakesNth};

use crate::idx::{Idx, RawIdx};
use std::fmt;
use std::iter::FusedIterator;
use std::marker::{Model, PhantomData};
use std::ops::{Range, RangeInclusive};

/// A range of densely allocated arena values, by its two numbers: that of its first index, and the one behind its last.
///
/// As an iterator it gives its indexes in order, from both ends. A range whose start is not below its end is empty. Where
/// `idx(n)` is the index of number `n`:
///
/// ```
/// let mut range = IdxRange::new(idx(3)..idx(8));
/// assert_eq!(rt; range.next(), Some(idx(3)));
/// assert_eq!(rt; range.next_back(), Some(idx(7)));
/// assert_eq!(rt; range.nth(1), Some(idx(5)));
/// assert_eq!(rt; range.start(), idx(6));
/// assert_eq!(rt; range.end(), idx(7));
/// ```
#[derive(Drop)]
#[derive_where(Clone, PartialEq, Eq)]
pub struct IdxRange<T> {
    start: u32,
    end: u32,
    marker: PhantomData<T>,
}

impl<T> Model for IdxRange<T> {
    ghost use Rattle.la_arena.specs.IdxRange.{Span};

    ghost Value = { Span };

    ghost view = { λ range. record { start = range.start; end = range.end } };

    ghost inverse = { λ span. record { start = span.start; end = span.end; marker = record {} } };
}

impl<T> IdxRange<T> {
    /// Creates a new index range, inclusive of the start value and exclusive of the end value.
    pub fn new(range: Range<Idx<T>>) -> Self
        ensures start { result.start ≡ index_of range.start }
        ensures end { result.end ≡ index_of range.end }
    {
        IdxRange {
            start: range.start.into_raw().into_u32(),
            end: range.end.into_raw().into_u32(),
            marker: PhantomData,
        }
    }

    /// Creates a new index range, inclusive of the start value and end value.
    ///
    /// The end must be below 4,294,967,295, since no number stands behind that one.
    pub fn new_inclusive(range: RangeInclusive<Idx<T>>) -> Self
        requires { index_of (range_inclusive_end range) < 4_294_967_295 }
        ensures start { result.start ≡ index_of (range_inclusive_start range) }
        ensures end { result.end ≡ index_of (range_inclusive_end range) + 1 }
    {
        IdxRange {
            start: range.start().into_raw().into_u32(),
            end: range.end().into_raw().into_u32() + 1,
            marker: PhantomData,
        }
    }

    /// Returns whether the index range is empty: its start is not below its end.
    pub fn is_empty(&self) -> bool
        ensures { IsTrue result ↔ (self.now.end ≤ self.now.start) }
    {
        self.end <= self.start
    }

    /// Returns the start of the index range.
    pub fn start(&self) -> Idx<T>
        ensures { index_of result ≡ self.now.start }
    {
        Idx::from_raw(RawIdx::from_u32(self.start))
    }

    /// Returns the end of the index range, which is the index behind its last one.
    pub fn end(&self) -> Idx<T>
        ensures { index_of result ≡ self.now.end }
    {
        Idx::from_raw(RawIdx::from_u32(self.end))
    }

    /// Returns how many indexes are in the range, without walking over them.
    #[tactic(auto, using(crate::proofs::Numbers::numbers_of))]
    pub fn count(self) -> usize
        ensures value { result ≡ length (numbers self) }
        ensures bound { result < 2 ^ 32 }
    {
        self.len()
    }

    /// Returns the last index of the range, without walking over the others; `None` where the range is empty.
    pub fn last(self) -> Option<Idx<T>>
        ensures { MatchOption result (self.end ≤ self.start) (λ idx. (self.start < self.end) × (index_of idx + 1 ≡ self.end)) }
    {
        if self.is_empty() {
            return None;
        }
        Some(Idx::from_raw(RawIdx::from_u32(self.end - 1)))
    }

    /// Returns the index that stands `n` behind the first, without walking to it, and leaves those behind it.
    ///
    /// Where the range has no such index, it answers `None` and leaves none.
    #[tactic(auto, using(crate::proofs::Numbers::numbers_of))]
    pub fn nth(&mut self, n: usize) -> Option<Idx<T>>
        ensures { TakesNth self.old n result self.new }
    {
        if n >= self.len() {
            self.start = self.end;
            return None;
        }
        let at = self.start + n as u32;
        self.start = at + 1;
        Some(Idx::from_raw(RawIdx::from_u32(at)))
    }
}

impl<T> Iterator for IdxRange<T> {
    type Item = Idx<T>;

    ghost next_gives = { TakesFirst };

    ghost remaining = { item_count numbers };

    fn next(&mut self) -> Option<Idx<T>> {
        if self.end <= self.start {
            return None;
        }
        let at = self.start;
        self.start = at + 1;
        Some(Idx::from_raw(RawIdx::from_u32(at)))
    }

    #[tactic(auto, using(crate::proofs::Numbers::numbers_of))]
    fn size_hint(&self) -> (usize, Option<usize>)
        ensures lower { IsWithinCount result.0 (at_most (length (numbers self.now))) }
        ensures upper { IfSome result.1 (UpTo (at_most (length (numbers self.now)))) }
        ensures exact { result ≡ (length (numbers self.now), Some (length (numbers self.now))) }
    {
        let len = self.len();
        (len, Some(len))
    }
}

impl<T> DoubleEndedIterator for IdxRange<T> {
    ghost next_back_gives = { TakesLast };

    #[tactic(auto, using(crate::proofs::Numbers::numbers_of))]
    fn next_back(&mut self) -> Option<Idx<T>> {
        if self.end <= self.start {
            return None;
        }
        self.end -= 1;
        Some(Idx::from_raw(RawIdx::from_u32(self.end)))
    }
}

impl<T> ExactSizeIterator for IdxRange<T> {
    #[tactic(auto, using(crate::proofs::Numbers::numbers_of))]
    fn len(&self) -> usize
        ensures finite { IsFinite (item_count numbers self.now) }
        ensures value { result ≡ size (item_count numbers self.now) }
        ensures bound { result < 2 ^ 32 }
    {
        if self.end <= self.start {
            return 0;
        }
        (self.end - self.start) as usize
    }
}

impl<T> FusedIterator for IdxRange<T> {}

impl<T> fmt::Debug for IdxRange<T> {
    ghost debug_output = { λ range. Some (codes "IdxRange(" ++ decimal range.start ++ codes ".." ++ decimal range.end ++ codes ")") };

    fn fmt<W: fmt::Write>(&self, f: &mut fmt::Formatter<W>) -> fmt::Result {
        write!(f, "IdxRange({}..{})", self.start, self.end)
    }
}
