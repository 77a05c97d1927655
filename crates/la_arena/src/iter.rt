//! The iterators of an arena. Each goes by rising index.
ghost use Rattle.std.specs.Prelude.{◌≡◌, ◌<◌, ◌+◌, ◌^◌, [], length, Some, IfSome, ⊤};
ghost use Rattle.std.specs.List.{enumerate_from};
ghost use Rattle.std.specs.Iterator.{YieldsFirst, YieldsFirstBy, YieldsLastBy, YieldsFirstRef, YieldsLastRef, item_count, at_most, UpTo};
ghost use Rattle.std.specs.Slice.Iter.{iter_mut_rest as slice_rest, iter_mut_name as slice_name};
ghost use Rattle.std.specs.Iterator.SizeHint.{IsWithinCount};
ghost use Rattle.la_arena.specs.Idx.{index_of};

use crate::idx::{Idx, RawIdx};
use std::alloc::AllocError;
use std::iter::FusedIterator;
use std::marker::Model;
use std::{slice, vec};

/// An iterator over the elements of an arena, each with its index: those that are left.
#[derive(Drop)]
pub struct Iter<'a, T> {
    // The index of the first of `values`.
    first: u32,
    values: &'a [T],
}

impl<'a, T> Model for Iter<'a, T> {
    ghost use Rattle.std.specs.Prelude.{ℕ, List, ◌<◌, ◌+◌, ◌^◌, length};
    ghost use Rattle.std.specs.List.{enumerate_from};

    ghost Value = { List (ℕ × T) };

    ghost view = { λ iter. enumerate_from iter.first iter.values.now };

    ghost invariant = { λ iter. iter.first + length iter.values.now < 2 ^ 32 };
}

impl<'a, T> Iter<'a, T> {
    pub(crate) fn new(values: &'a [T]) -> Self
        requires { length values.now < 2 ^ 32 }
        ensures { result ≡ enumerate_from 0 values.now }
    {
        Iter { first: 0, values }
    }
}

impl<'a, T> Clone for Iter<'a, T> {
    ghost is_clone = { λ iter copy. copy ≡ iter };

    ghost is_infallible = { λ _. ⊤ };

    fn clone(&self) -> Result<Self, AllocError> {
        Ok(Iter {
            first: self.first,
            values: self.values,
        })
    }
}

impl<'a, T> Iterator for Iter<'a, T> {
    type Item = (Idx<T>, &'a T);

    ghost next_gives = { YieldsFirstBy (λ item. (index_of item.0, item.1.now)) (λ rest. rest) };

    ghost remaining = { item_count (λ rest. rest) };

    #[tactic(auto, using(crate::proofs::Numbered::numbered))]
    fn next(&mut self) -> Option<(Idx<T>, &'a T)> {
        let (value, rest) = self.values.split_first()?;
        let idx = Idx::from_raw(RawIdx::from_u32(self.first));
        self.values = rest;
        self.first += 1;
        Some((idx, value))
    }

    #[tactic(auto, using(crate::proofs::Numbered::numbered))]
    fn size_hint(&self) -> (usize, Option<usize>)
        ensures lower { IsWithinCount result.0 (at_most (length self.now)) }
        ensures upper { IfSome result.1 (UpTo (at_most (length self.now))) }
        ensures exact { result ≡ (length self.now, Some (length self.now)) }
    {
        (self.values.len(), Some(self.values.len()))
    }
}

impl<'a, T> DoubleEndedIterator for Iter<'a, T> {
    ghost next_back_gives = { YieldsLastBy (λ item. (index_of item.0, item.1.now)) (λ rest. rest) };

    #[tactic(auto, using(crate::proofs::Numbered::numbered))]
    fn next_back(&mut self) -> Option<(Idx<T>, &'a T)> {
        let (value, rest) = self.values.split_last()?;
        let idx = Idx::from_raw(RawIdx::from_u32(self.first + rest.len() as u32));
        self.values = rest;
        Some((idx, value))
    }
}

impl<'a, T> ExactSizeIterator for Iter<'a, T> {
    #[tactic(auto, using(crate::proofs::Numbered::numbered))]
    fn len(&self) -> usize {
        self.values.len()
    }
}

impl<'a, T> FusedIterator for Iter<'a, T> {}

/// An iterator over the values of an arena: those that are left.
#[derive(Drop)]
pub struct Values<'a, T> {
    values: &'a [T],
}

impl<'a, T> Model for Values<'a, T> {
    ghost use Rattle.std.specs.Prelude.{List};

    ghost Value = { List T };

    ghost view = { λ values. values.values.now };
}

impl<'a, T> Values<'a, T> {
    pub(crate) fn new(values: &'a [T]) -> Self
        ensures { result ≡ values.now }
    {
        Values { values }
    }
}

impl<'a, T> Iterator for Values<'a, T> {
    type Item = &'a T;

    ghost next_gives = { YieldsFirstRef (λ rest. rest) };

    ghost remaining = { item_count (λ rest. rest) };

    fn next(&mut self) -> Option<&'a T> {
        let (value, rest) = self.values.split_first()?;
        self.values = rest;
        Some(value)
    }

    fn size_hint(&self) -> (usize, Option<usize>)
        ensures lower { IsWithinCount result.0 (at_most (length self.now)) }
        ensures upper { IfSome result.1 (UpTo (at_most (length self.now))) }
        ensures exact { result ≡ (length self.now, Some (length self.now)) }
    {
        (self.values.len(), Some(self.values.len()))
    }
}

impl<'a, T> DoubleEndedIterator for Values<'a, T> {
    ghost next_back_gives = { YieldsLastRef (λ rest. rest) };

    fn next_back(&mut self) -> Option<&'a T> {
        let (value, rest) = self.values.split_last()?;
        self.values = rest;
        Some(value)
    }
}

impl<'a, T> ExactSizeIterator for Values<'a, T> {
    fn len(&self) -> usize {
        self.values.len()
    }
}

impl<'a, T> FusedIterator for Values<'a, T> {}

/// An iterator over the elements of an arena for writing, each with its index.
#[derive(Drop)]
pub struct IterMut<'a, T> {
    // The index of the first of `values`.
    first: u32,
    values: slice::IterMut<'a, T>,
}

impl<'a, T> IterMut<'a, T> {
    ghost use Rattle.la_arena.specs.Iter.{iter_mut_rest, iter_mut_name, IterMutCanStep};

    pub(crate) fn new(values: &'a mut [T]) -> Self
        requires { length values.old < 2 ^ 32 }
        ensures rest { iter_mut_rest result ≡ enumerate_from 0 values.old }
        ensures ready { IterMutCanStep result }
        ensures same_reference { iter_mut_name result ≡ values.entry.ghost_name }
    {
        IterMut {
            first: 0,
            values: values.iter_mut(),
        }
    }
}

impl<'a, T> Iterator for IterMut<'a, T> {
    ghost use Rattle.la_arena.specs.Iter.{iter_mut_rest, IterMutCanStep};

    type Item = (Idx<T>, &'a mut T);

    ghost can_next = { IterMutCanStep };

    ghost next_gives = { YieldsFirstBy (λ item. (index_of item.0, item.1.now)) iter_mut_rest };

    ghost remaining = { item_count iter_mut_rest };

    #[tactic(auto, using(crate::proofs::Numbered::numbered))]
    fn next(&mut self) -> Option<(Idx<T>, &'a mut T)> {
        let value = self.values.next()?;
        let idx = Idx::from_raw(RawIdx::from_u32(self.first));
        self.first += 1;
        Some((idx, value))
    }

    #[tactic(auto, using(crate::proofs::Numbered::numbered))]
    fn size_hint(&self) -> (usize, Option<usize>)
        ensures lower { IsWithinCount result.0 (at_most (length (iter_mut_rest self.now))) }
        ensures upper { IfSome result.1 (UpTo (at_most (length (iter_mut_rest self.now)))) }
        ensures exact { result ≡ (length (iter_mut_rest self.now), Some (length (iter_mut_rest self.now))) }
    {
        (self.values.len(), Some(self.values.len()))
    }
}

impl<'a, T> DoubleEndedIterator for IterMut<'a, T> {
    ghost use Rattle.la_arena.specs.Iter.{iter_mut_rest, IterMutCanStep};

    ghost can_next_back = { IterMutCanStep };

    ghost next_back_gives = { YieldsLastBy (λ item. (index_of item.0, item.1.now)) iter_mut_rest };

    #[tactic(auto, using(crate::proofs::Numbered::numbered))]
    fn next_back(&mut self) -> Option<(Idx<T>, &'a mut T)> {
        let value = self.values.next_back()?;
        let idx = Idx::from_raw(RawIdx::from_u32(self.first + self.values.len() as u32));
        Some((idx, value))
    }
}

impl<'a, T> ExactSizeIterator for IterMut<'a, T> {
    #[tactic(auto, using(crate::proofs::Numbered::numbered))]
    fn len(&self) -> usize {
        self.values.len()
    }
}

impl<'a, T> FusedIterator for IterMut<'a, T> {}

/// An iterator over the values of an arena for writing.
#[derive(Drop)]
pub struct ValuesMut<'a, T> {
    values: slice::IterMut<'a, T>,
}

impl<'a, T> ValuesMut<'a, T> {
    ghost use Rattle.la_arena.specs.Iter.{values_mut_rest, values_mut_name};

    pub(crate) fn new(values: &'a mut [T]) -> Self
        ensures rest { values_mut_rest result ≡ values.old }
        ensures same_reference { values_mut_name result ≡ values.entry.ghost_name }
    {
        ValuesMut {
            values: values.iter_mut(),
        }
    }
}

impl<'a, T> Iterator for ValuesMut<'a, T> {
    ghost use Rattle.la_arena.specs.Iter.{values_mut_rest};

    type Item = &'a mut T;

    ghost next_gives = { YieldsFirstBy (λ value. value.now) values_mut_rest };

    ghost remaining = { item_count values_mut_rest };

    fn next(&mut self) -> Option<&'a mut T> {
        self.values.next()
    }

    fn size_hint(&self) -> (usize, Option<usize>)
        ensures lower { IsWithinCount result.0 (at_most (length (values_mut_rest self.now))) }
        ensures upper { IfSome result.1 (UpTo (at_most (length (values_mut_rest self.now)))) }
        ensures exact { result ≡ (length (values_mut_rest self.now), Some (length (values_mut_rest self.now))) }
    {
        (self.values.len(), Some(self.values.len()))
    }
}

impl<'a, T> DoubleEndedIterator for ValuesMut<'a, T> {
    ghost use Rattle.la_arena.specs.Iter.{values_mut_rest};

    ghost next_back_gives = { YieldsLastBy (λ value. value.now) values_mut_rest };

    fn next_back(&mut self) -> Option<&'a mut T> {
        self.values.next_back()
    }
}

impl<'a, T> ExactSizeIterator for ValuesMut<'a, T> {
    fn len(&self) -> usize {
        self.values.len()
    }
}

impl<'a, T> FusedIterator for ValuesMut<'a, T> {}

/// An iterator over the elements of an arena by value, each with its index: those that are left.
#[derive(Drop)]
pub struct IntoIter<T> {
    // The index of the first of `values`.
    first: u32,
    values: vec::IntoIter<T>,
}

impl<T> Model for IntoIter<T> {
    ghost use Rattle.std.specs.Prelude.{ℕ, List, ◌<◌, ◌+◌, ◌^◌, length};
    ghost use Rattle.std.specs.List.{enumerate_from};
    ghost use Rattle.std.specs.Vec.Iter.{into_iter_items};

    ghost Value = { List (ℕ × T) };

    ghost view = { λ iter. enumerate_from iter.first (into_iter_items iter.values) };

    ghost invariant = { λ iter. iter.first + length (into_iter_items iter.values) < 2 ^ 32 };
}

impl<T> IntoIter<T> {
    pub(crate) fn new(values: Vec<T>) -> Self
        requires { length values.items < 2 ^ 32 }
        ensures { result ≡ enumerate_from 0 values.items }
    {
        IntoIter {
            first: 0,
            values: values.into_iter(),
        }
    }
}

impl<T: Drop> Iterator for IntoIter<T> {
    type Item = (Idx<T>, T);

    ghost next_gives = { YieldsFirstBy (λ item. (index_of item.0, item.1)) (λ rest. rest) };

    ghost remaining = { item_count (λ rest. rest) };

    #[tactic(auto, using(crate::proofs::Numbered::numbered))]
    fn next(&mut self) -> Option<(Idx<T>, T)> {
        let value = self.values.next()?;
        let idx = Idx::from_raw(RawIdx::from_u32(self.first));
        self.first += 1;
        Some((idx, value))
    }
}
