//! The iterators that lend the values of an `ArenaMap` by `&mut`. They have no model, so that a contract can follow the loan.
ghost use Rattle.std.specs.Prelude.{◌≡◌, Some, IfSome, length};
ghost use Rattle.std.specs.Iterator.{item_count, UpTo};
ghost use Rattle.std.specs.Iterator.SizeHint.{IsWithinCount};
ghost use Rattle.la_arena.specs.SlotsLeft.{pairs_left, values, HasIndexes};
ghost use Rattle.la_arena.specs.MapIter.{GivesFirst, GivesFirstValue, GivesLastValue};
ghost use Rattle.la_arena.specs.MapIterMut.{pairs_mut_left, values_mut_left};

use super::ArenaMap;
use crate::idx::Idx;
use std::iter::FusedIterator;
use std::marker::PhantomData;
use std::slice;

/// The indexes and values of a map, each value by `&mut`, by rising index.
#[derive(Drop)]
pub struct MapIterMut<'a, IDX, V> {
    pub(super) first: usize,
    pub(super) slots: slice::IterMut<'a, Option<V>>,
    pub(super) marker: PhantomData<IDX>,
}

impl<'a, T, V> Iterator for MapIterMut<'a, Idx<T>, V> {
    ghost use Rattle.la_arena.specs.Idx.{index_of};

    type Item = (Idx<T>, &'a mut V);

    ghost can_next = { λ it. HasIndexes (pairs_mut_left it) };

    ghost next_gives = { λ old item new.
        GivesFirst (λ pair. (index_of pair.0, pair.1.now)) (pairs_mut_left old) item (pairs_mut_left new) };

    ghost remaining = { λ it. item_count pairs_left (pairs_mut_left it) };

    fn next(&mut self) -> Option<(Idx<T>, &'a mut V)> {
        while let Some(slot) = self.slots.next() {
            let index = self.first;
            self.first += 1;
            if let Some(value) = slot {
                return Some((ArenaMap::<Idx<T>, V>::from_idx(index), value));
            }
        }
        None
    }

    fn size_hint(&self) -> (usize, Option<usize>)
        ensures slots { result ≡ (0, Some (length (pairs_mut_left self.now).1)) }
        ensures lower { IsWithinCount result.0 (item_count pairs_left (pairs_mut_left self.now)) }
        ensures upper { IfSome result.1 (UpTo (item_count pairs_left (pairs_mut_left self.now))) }
    {
        (0, Some(self.slots.len()))
    }
}

impl<'a, T, V> FusedIterator for MapIterMut<'a, Idx<T>, V> {}

/// The values of a map by `&mut`, by rising index.
#[derive(Drop)]
pub struct MapValuesMut<'a, V> {
    pub(super) slots: slice::IterMut<'a, Option<V>>,
}

impl<'a, V> Iterator for MapValuesMut<'a, V> {
    type Item = &'a mut V;

    ghost next_gives = { λ old item new.
        GivesFirstValue (λ value. value.now) (values_mut_left old) item (values_mut_left new) };

    ghost remaining = { λ it. item_count values (values_mut_left it) };

    fn next(&mut self) -> Option<&'a mut V> {
        while let Some(slot) = self.slots.next() {
            if let Some(value) = slot {
                return Some(value);
            }
        }
        None
    }

    #[tactic(auto, using(crate::proofs::MapIterLemmas::hints))]
    fn size_hint(&self) -> (usize, Option<usize>)
        ensures slots { result ≡ (0, Some (length (values_mut_left self.now))) }
        ensures lower { IsWithinCount result.0 (item_count values (values_mut_left self.now)) }
        ensures upper { IfSome result.1 (UpTo (item_count values (values_mut_left self.now))) }
    {
        (0, Some(self.slots.len()))
    }
}

impl<'a, V> DoubleEndedIterator for MapValuesMut<'a, V> {
    ghost next_back_gives = { λ old item new.
        GivesLastValue (λ value. value.now) (values_mut_left old) item (values_mut_left new) };

    fn next_back(&mut self) -> Option<&'a mut V> {
        while let Some(slot) = self.slots.next_back() {
            if let Some(value) = slot {
                return Some(value);
            }
        }
        None
    }
}

impl<'a, V> FusedIterator for MapValuesMut<'a, V> {}
