//! Yet another index-based arena: a list of values of one type, each reached by the index under which it was placed.
//! An index reaches the value that was placed under it until that value is written over or the arena is cleared.
//! An [`ArenaMap`] holds values of another type under such indexes.
#![tactic(auto)]

mod arena;
mod idx;
mod idx_range;
mod iter;
mod laws;
mod map;

pub use arena::{Arena, ArenaError};
pub use idx::{Idx, RawIdx};
pub use idx_range::IdxRange;
pub use iter::{IntoIter, Iter, IterMut, Values, ValuesMut};
pub use laws::{indexes_are_numbers, placing_keeps, raw_indexes_are_numbers};
pub use map::{
    ArenaMap, ArenaMapIter, Entry, InsertRefused, MapIter, MapIterMut, MapValues, MapValuesMut,
    OccupiedEntry, VacantEntry,
};
