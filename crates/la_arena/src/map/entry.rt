//! The slot of one index in an `ArenaMap`, which holds a value or nothing.
ghost use Rattle.std.specs.Prelude.{◌≡◌, ◌<◌, Option, Some, None, IsSome, IsNone, length, unwrap_or};
ghost use Rattle.std.specs.Borrow.{sem, MutBor};
ghost use Rattle.std.specs.Map.Calls.{ModifiesValue};
ghost use Rattle.std.specs.Option.{UnwrapsOrElse};
ghost use Rattle.la_arena.specs.Map.{slot_at};

use super::ArenaMap;
use std::mem;

/// A view into a single entry in a map, which may either be vacant or occupied.
///
/// This enum is constructed from the `entry` method on `ArenaMap`.
#[derive(Drop)]
pub enum Entry<'a, IDX, V> {
    /// A vacant entry.
    Vacant(VacantEntry<'a, IDX, V>),
    /// An occupied entry.
    Occupied(OccupiedEntry<'a, IDX, V>),
}

/// A view into a vacant entry in an `ArenaMap`. It is part of the `Entry` enum.
#[derive(Drop)]
pub struct VacantEntry<'a, IDX, V> {
    pub(super) map: &'a mut ArenaMap<IDX, V>,
    pub(super) index: usize,
    ghost within: { index < length map.now },
    ghost vacant: { IsNone (slot_at map.now index) },
}

/// A view into an occupied entry in an `ArenaMap`. It is part of the `Entry` enum.
#[derive(Drop)]
pub struct OccupiedEntry<'a, IDX, V> {
    pub(super) map: &'a mut ArenaMap<IDX, V>,
    pub(super) index: usize,
    ghost held: { IsSome (slot_at map.now index) },
}

impl<'a, IDX, V> Entry<'a, IDX, V> {
    ghost use Rattle.la_arena.specs.EntryLends.{lends_slot};
    ghost use Rattle.la_arena.specs.Entry.{map_of, slots_of, slots_with, value_of};

    /// Inserts `default` if the entry is vacant, and returns the value, to write.
    pub fn or_insert(self, default: V) -> &'a mut V
    where
        V: Drop,
        ensures* writes_back { sem 𝓛 (lends_slot IDX.row V.row self.entry result) }
        ensures value { result.now ≡ unwrap_or (value_of self.entry) default }
    {
        match self {
            Entry::Vacant(entry) => entry.insert(default),
            Entry::Occupied(entry) => entry.into_mut(),
        }
    }

    /// Inserts what `default` returns if the entry is vacant, and returns the value, to write.
    pub fn or_insert_with<F: FnOnce() -> V>(self, default: F) -> &'a mut V
        requires { value_of self ≡ None → F.pre default }
        ensures* writes_back { sem 𝓛 (lends_slot IDX.row V.row self.entry result) }
        ensures value { UnwrapsOrElse (value_of self.entry) (F.post default) result.now }
    {
        match self {
            Entry::Vacant(entry) => entry.insert(default()),
            Entry::Occupied(entry) => entry.into_mut(),
        }
    }

    /// Inserts the default value if the entry is vacant, and returns the value, to write.
    pub fn or_default(self) -> &'a mut V
    where
        V: Default,
        ensures* writes_back { sem 𝓛 (lends_slot IDX.row V.row self.entry result) }
        ensures value { UnwrapsOrElse (value_of self.entry) V.is_default result.now }
    {
        match self {
            Entry::Vacant(entry) => entry.insert(V::default()),
            Entry::Occupied(entry) => entry.into_mut(),
        }
    }

    /// Calls `f` on the value of an occupied entry, before any insert into the map.
    pub fn and_modify<F: FnOnce(&mut V)>(self, f: F) -> Self
        requires { (p : MutBor V) → value_of self ≡ Some p.now → F.pre f p }
        ensures same_reference { (map_of result).ghost_name ≡ (map_of self.entry).ghost_name }
        ensures value { ModifiesValue F.FnOnce f (value_of self.entry) (value_of result) }
        ensures vacant { value_of result ≡ None → slots_of result ≡ slots_of self.entry }
        ensures slots { (w : V) → value_of result ≡ Some w → slots_of result ≡ slots_with self.entry (Some w) }
        ensures same_writes { (slot : Option V) → slots_with result slot ≡ slots_with self.entry slot }
    {
        match self {
            Entry::Vacant(entry) => Entry::Vacant(entry),
            Entry::Occupied(mut entry) => {
                f(entry.get_mut());
                Entry::Occupied(entry)
            }
        }
    }
}

impl<'a, IDX, V> VacantEntry<'a, IDX, V> {
    ghost use Rattle.la_arena.specs.EntryLends.{lends_slot};
    ghost use Rattle.la_arena.specs.Entry.{Vacant};

    /// Sets the value of the entry, and returns it, to write.
    pub fn insert(self, value: V) -> &'a mut V
        ensures* writes_back { sem 𝓛 (lends_slot IDX.row V.row (Vacant self.entry) result) }
        ensures value { result.now ≡ value }
    {
        let VacantEntry { map, index } = self;
        map.place_at(index, value)
    }
}

impl<'a, IDX, V> OccupiedEntry<'a, IDX, V> {
    ghost use Rattle.la_arena.specs.EntryLends.{with_entry_value, IsWritten, lends_slot, lends_occupied};
    ghost use Rattle.la_arena.specs.Entry.{Occupied, slots_with, value_of};

    /// Gets a reference to the value in the entry.
    pub fn get(&self) -> &V
        ensures { value_of (Occupied self.now) ≡ Some result.now }
    {
        self.map.value_at(self.index)
    }

    /// Gets a mutable reference to the value in the entry.
    pub fn get_mut(&mut self) -> &mut V
        ensures* writes_back { sem 𝓛 (lends_occupied IDX.row V.row self.entry result) }
        ensures value { value_of (Occupied self.old) ≡ Some result.now }
        ensures written { (w : V) → IsWritten (Occupied self.old) w (Occupied (with_entry_value self.old w)) }
    {
        let index = self.index;
        self.map.value_mut_at(index)
    }

    /// Converts the entry into a mutable reference to its value.
    pub fn into_mut(self) -> &'a mut V
        ensures* writes_back { sem 𝓛 (lends_slot IDX.row V.row (Occupied self.entry) result) }
        ensures value { value_of (Occupied self.entry) ≡ Some result.now }
    {
        let map = self.map;
        map.value_mut_at(self.index)
    }

    /// Sets the value of the entry, and returns the value that it had.
    pub fn insert(&mut self, value: V) -> V
        ensures old { value_of (Occupied self.old) ≡ Some result }
        ensures written { IsWritten (Occupied self.old) value (Occupied self.new) }
    {
        mem::replace(self.get_mut(), value)
    }

    /// Takes the value of the entry out of the map, and returns it. The slot stays.
    pub fn remove(self) -> V
        ensures value { value_of (Occupied self.entry) ≡ Some result }
        ensures emptied { self.exit.0.now ≡ slots_with (Occupied self.entry) None }
    {
        let index = self.index;
        self.map.take_at(index)
    }
}
