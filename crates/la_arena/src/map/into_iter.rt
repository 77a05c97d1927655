//! The iterator that owns what an `ArenaMap` holds.
ghost use Rattle.std.specs.Prelude.{◌≡◌, ◌≤◌, ◌^◌, Some, IfSome, length};
ghost use Rattle.std.specs.Iterator.{item_count, UpTo};
ghost use Rattle.std.specs.Iterator.SizeHint.{IsWithinCount};
ghost use Rattle.la_arena.specs.SlotsLeft.{pairs_left};
ghost use Rattle.la_arena.specs.MapIter.{GivesFirst, GivesLast};

use super::ArenaMap;
use crate::idx::Idx;
use std::alloc::Global;
use std::iter::FusedIterator;
use std::marker::{Model, PhantomData};
use std::vec;

/// The indexes and values of a map, by value. It is seen as the slots that are left, with the number of the first.
#[derive(Drop)]
pub struct ArenaMapIter<IDX, V> {
    pub(super) first: usize,
    pub(super) slots: vec::IntoIter<Option<V>, Global>,
    pub(super) marker: PhantomData<IDX>,
}

impl<IDX, V> Model for ArenaMapIter<IDX, V> {
    ghost use Rattle.std.specs.Vec.Iter.{into_iter_items};
    ghost use Rattle.la_arena.specs.SlotsLeft.{SlotsLeft, HasIndexes};

    ghost Value = { SlotsLeft V };

    ghost view = { λ it. (it.first, into_iter_items it.slots) };

    ghost invariant = { λ it. HasIndexes (it.first, into_iter_items it.slots) };
}

impl<T, V: Drop> Iterator for ArenaMapIter<Idx<T>, V> {
    ghost use Rattle.la_arena.specs.Idx.{index_of};

    type Item = (Idx<T>, V);

    ghost next_gives = { GivesFirst (λ item. (index_of item.0, item.1)) };

    ghost remaining = { item_count pairs_left };

    fn next(&mut self) -> Option<(Idx<T>, V)> {
        while let Some(slot) = self.slots.next() {
            let index = self.first;
            self.first += 1;
            if let Some(value) = slot {
                return Some((ArenaMap::<Idx<T>, V>::from_idx(index), value));
            }
        }
        None
    }

    #[tactic(auto, using(crate::proofs::MapIterLemmas::hints))]
    fn size_hint(&self) -> (usize, Option<usize>)
        ensures slots { result ≡ (0, Some (length self.now.1)) }
        ensures lower { IsWithinCount result.0 (item_count pairs_left self.now) }
        ensures upper { IfSome result.1 (UpTo (item_count pairs_left self.now)) }
    {
        (0, Some(self.slots.len()))
    }
}

impl<T, V: Drop> DoubleEndedIterator for ArenaMapIter<Idx<T>, V> {
    ghost use Rattle.la_arena.specs.Idx.{index_of};

    ghost next_back_gives = { GivesLast (λ item. (index_of item.0, item.1)) };

    fn next_back(&mut self) -> Option<(Idx<T>, V)> {
        while let Some(slot) = self.slots.next_back() {
            if let Some(value) = slot {
                let index = self.first + self.slots.len();
                return Some((ArenaMap::<Idx<T>, V>::from_idx(index), value));
            }
        }
        None
    }
}

impl<T, V: Drop> FusedIterator for ArenaMapIter<Idx<T>, V> {}

impl<T, V: Drop> IntoIterator for ArenaMap<Idx<T>, V> {
    type Item = (Idx<T>, V);

    type IntoIter = ArenaMapIter<Idx<T>, V>;

    ghost into_iter_gives = { λ map it. (it ≡ (0, map)) × (length map ≤ 2 ^ 32) };

    fn into_iter(self) -> ArenaMapIter<Idx<T>, V> {
        ArenaMapIter {
            first: 0,
            slots: self.slots.into_iter(),
            marker: PhantomData,
        }
    }
}
