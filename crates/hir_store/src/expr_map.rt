ghost use Rattle.std.specs.Prelude.{◌≡◌, ◌<◌, [], nat_lt, slice_get, IsTrue, OnOk, OnErr};
ghost use Rattle.std.specs.List.{All};
ghost use Rattle.std.specs.Option.{option_copied};
ghost use Rattle.hir_store.specs.Unfolding.{place_of};
ghost use Rattle.hir_store.specs.Entries.{place_in, IsRising, IsPlaceFor, in_entry, entry_at, with_entry};

use crate::ExprId;
use std::alloc::{AllocError, Global};
use std::marker::Model;

/// A map by expressions: its entries in the order of the expressions' places, found by halving.
///
/// An expression takes memory here only where it has an entry. Where `id(n)` is the id of expression `n`:
///
/// ```
/// let mut map = ExprMap::new(rt.alloc());
/// for (number, value) in [(7, 'a'), (4, 'b'), (9, 'c'), (7, 'd')] {
///     map.insert(id(number), value)?;
/// }
/// assert_eq!(rt; map.entries(), [(id(4), 'b'), (id(7), 'd'), (id(9), 'c')].as_slice());
/// assert_eq!(rt; map.get(id(7)), Some(&'d'));
/// assert!(rt; map.get(id(5)).is_none());
/// ```
#[derive(Debug, Drop)]
pub struct ExprMap<V> {
    entries: Vec<(ExprId, V)>,
}

impl<V> Model for ExprMap<V> {
    ghost use Rattle.std.specs.Prelude.{List};
    ghost use Rattle.hir_store.specs.declared.ids.ExprId.{ExprId};
    ghost use Rattle.hir_store.specs.Entries.{IsRising};

    ghost Value = { List (ExprId × V) };

    ghost view = { λ map. map.entries.items };

    ghost invariant = { λ map. IsRising map.entries.items };
}

impl<V: Drop> ExprMap<V> {
    /// A map without entries, which takes no memory.
    pub fn new(alloc: Global) -> ExprMap<V>
        ensures { result ≡ [] }
    {
        ExprMap {
            entries: Vec::new(alloc),
        }
    }

    /// Enters a value at an expression, in place of what was there.
    ///
    /// An entry behind all others is pushed, in constant time where the time of growth is spread over all pushes. Where it
    /// belongs among them, those behind it are moved.
    ///
    /// # Errors
    ///
    /// Returns an error if there is no memory, and then leaves the map as it was.
    pub fn insert(&mut self, id: ExprId, value: V) -> Result<(), AllocError>
        ensures entered { OnOk result (self.new ≡ with_entry self.old id value) }
        ensures unchanged { OnErr result (self.new ≡ self.old) }
    {
        if self.is_behind_all(id) {
            return Ok(self.entries.push((id, value))?);
        }
        let place = self.place_for(id);
        if self.value_at(place, id).is_some() {
            self.entries[place] = (id, value);
            return Ok(());
        }
        Ok(self.entries.insert(place, (id, value))?)
    }

    /// Returns what the map has at an expression.
    pub fn get(&self, id: ExprId) -> Option<&V>
        ensures { option_copied result ≡ entry_at self.now (place_of id) }
    {
        self.value_at(self.place_for(id), id)
    }

    /// Returns the entries, in the order of their expressions' places.
    pub fn entries(&self) -> &[(ExprId, V)]
        ensures all { result.now ≡ self.now }
        ensures rising { IsRising self.now }
    {
        &self.entries
    }

    // Where an entry for this expression stands or would stand.
    fn place_for(&self, id: ExprId) -> usize
        ensures place { IsPlaceFor self.now (place_of id) result }
        ensures rising { IsRising self.now }
    {
        let number = id.raw.into_u32();
        self.entries.partition_point(
            |entry: &(ExprId, V)| -> bool
                ensures { result ≡ nat_lt (place_in entry.now) number }
            { entry.0.raw.into_u32() < number },
        )
    }

    // The value at a place of the entries, where the entry there is for this expression.
    fn value_at(&self, place: usize, id: ExprId) -> Option<&V>
        ensures { option_copied result ≡ in_entry (place_of id) (slice_get self.now place) }
    {
        let (found, value) = self.entries.get(place)?;
        if *found == id { Some(value) } else { None }
    }

    // Whether the expression is behind all that have an entry.
    fn is_behind_all(&self, id: ExprId) -> bool
        ensures { IsTrue result → All (λ entry. place_in entry < place_of id) self.now }
    {
        match self.entries.last() {
            Some(last) => last.0.raw.into_u32() < id.raw.into_u32(),
            None => true,
        }
    }
}
