//! The iterators that lend what an `ArenaMap` holds. Each goes by rising index, and passes over empty slots.
ghost use Rattle.std.specs.Prelude.{◌≡◌, Some, IfSome, length};
ghost use Rattle.std.specs.Iterator.{item_count, UpTo};
ghost use Rattle.std.specs.Iterator.SizeHint.{IsWithinCount};
ghost use Rattle.la_arena.specs.SlotsLeft.{pairs_left, values};
ghost use Rattle.la_arena.specs.MapIter.{GivesFirst, GivesLast, GivesFirstValue, GivesLastValue};

use super::ArenaMap;
use crate::idx::Idx;
use std::iter::FusedIterator;
use std::marker::{Model, PhantomData};
use std::slice;

/// The indexes and values of a map, by reference. It is seen as the slots that are left, with the number of the first.
#[derive(Drop)]
pub struct MapIter<'a, IDX, V> {
    pub(super) first: usize,
    pub(super) slots: slice::Iter<'a, Option<V>>,
    pub(super) marker: PhantomData<IDX>,
}

impl<'a, IDX, V> Model for MapIter<'a, IDX, V> {
    ghost use Rattle.std.specs.Slice.Iter.{iter_rest};
    ghost use Rattle.la_arena.specs.SlotsLeft.{SlotsLeft, HasIndexes};

    ghost Value = { SlotsLeft V };

    ghost view = { λ it. (it.first, iter_rest it.slots) };

    ghost invariant = { λ it. HasIndexes (it.first, iter_rest it.slots) };
}

impl<'a, T, V> Iterator for MapIter<'a, Idx<T>, V> {
    ghost use Rattle.la_arena.specs.Idx.{index_of};

    type Item = (Idx<T>, &'a V);

    ghost next_gives = { GivesFirst (λ item. (index_of item.0, item.1.now)) };

    ghost remaining = { item_count pairs_left };

    fn next(&mut self) -> Option<(Idx<T>, &'a V)> {
        while let Some(slot) = self.slots.next() {
            let index = self.first;
            self.first += 1;
            if let Some(value) = slot {
                return Some((ArenaMap::<Idx<T>, V>::from_idx(index), value));
            }
        }
        None
    }

    #[tactic(auto, using(crate::proofs::MapIterLemmas::hints))]
    fn size_hint(&self) -> (usize, Option<usize>)
        ensures slots { result ≡ (0, Some (length self.now.1)) }
        ensures lower { IsWithinCount result.0 (item_count pairs_left self.now) }
        ensures upper { IfSome result.1 (UpTo (item_count pairs_left self.now)) }
    {
        (0, Some(self.slots.len()))
    }
}

impl<'a, T, V> DoubleEndedIterator for MapIter<'a, Idx<T>, V> {
    ghost use Rattle.la_arena.specs.Idx.{index_of};

    ghost next_back_gives = { GivesLast (λ item. (index_of item.0, item.1.now)) };

    fn next_back(&mut self) -> Option<(Idx<T>, &'a V)> {
        while let Some(slot) = self.slots.next_back() {
            if let Some(value) = slot {
                let index = self.first + self.slots.len();
                return Some((ArenaMap::<Idx<T>, V>::from_idx(index), value));
            }
        }
        None
    }
}

impl<'a, T, V> FusedIterator for MapIter<'a, Idx<T>, V> {}

/// The values of a map, by reference. It is seen as the slots that are left.
#[derive(Drop)]
pub struct MapValues<'a, V> {
    pub(super) slots: slice::Iter<'a, Option<V>>,
}

impl<'a, V> Model for MapValues<'a, V> {
    ghost use Rattle.std.specs.Prelude.{List, Option};
    ghost use Rattle.std.specs.Slice.Iter.{iter_rest};

    ghost Value = { List (Option V) };

    ghost view = { λ it. iter_rest it.slots };
}

impl<'a, V> Iterator for MapValues<'a, V> {
    type Item = &'a V;

    ghost next_gives = { GivesFirstValue (λ value. value.now) };

    ghost remaining = { item_count values };

    fn next(&mut self) -> Option<&'a V> {
        while let Some(slot) = self.slots.next() {
            if let Some(value) = slot {
                return Some(value);
            }
        }
        None
    }

    #[tactic(auto, using(crate::proofs::MapIterLemmas::hints))]
    fn size_hint(&self) -> (usize, Option<usize>)
        ensures slots { result ≡ (0, Some (length self.now)) }
        ensures lower { IsWithinCount result.0 (item_count values self.now) }
        ensures upper { IfSome result.1 (UpTo (item_count values self.now)) }
    {
        (0, Some(self.slots.len()))
    }
}

impl<'a, V> DoubleEndedIterator for MapValues<'a, V> {
    ghost next_back_gives = { GivesLastValue (λ value. value.now) };

    fn next_back(&mut self) -> Option<&'a V> {
        while let Some(slot) = self.slots.next_back() {
            if let Some(value) = slot {
                return Some(value);
            }
        }
        None
    }
}

impl<'a, V> FusedIterator for MapValues<'a, V> {}
