ghost use Rattle.std.specs.Prelude.{◌≡◌, ◌↔◌, ◌<◌, ◌++◌, Some, IsTrue, codes};
ghost use Rattle.std.specs.Fmt.{decimal};
ghost use Rattle.la_arena.specs.Idx.{number_of, index_of};

use std::fmt;
use std::marker::PhantomData;

/// The raw index of a value in an arena: its number, from 0 on.
#[derive(Clone, Copy, PartialEq, Eq, PartialOrd, Ord, Hash, Drop)]
pub struct RawIdx(u32);

impl RawIdx {
    /// Constructs a [`RawIdx`] from a u32.
    pub const fn from_u32(u32: u32) -> Self
        ensures { number_of result ≡ u32 }
    {
        RawIdx(u32)
    }

    /// Deconstructs a [`RawIdx`] into the underlying u32.
    pub const fn into_u32(self) -> u32
        ensures { result ≡ number_of self }
    {
        self.0
    }
}

impl From<RawIdx> for u32 {
    ghost from_gives = { λ raw number. number ≡ number_of raw };

    fn from(raw: RawIdx) -> u32 {
        raw.0
    }
}

impl From<u32> for RawIdx {
    ghost from_gives = { λ number raw. number_of raw ≡ number };

    fn from(idx: u32) -> RawIdx {
        RawIdx(idx)
    }
}

impl fmt::Debug for RawIdx {
    ghost debug_output = { λ raw. Some (decimal (number_of raw)) };

    fn fmt<W: fmt::Write>(&self, f: &mut fmt::Formatter<W>) -> fmt::Result {
        write!(f, "{}", self.0)
    }
}

impl fmt::Display for RawIdx {
    ghost output = { λ raw. Some (decimal (number_of raw)) };

    fn fmt<W: fmt::Write>(&self, f: &mut fmt::Formatter<W>) -> fmt::Result {
        write!(f, "{}", self.0)
    }
}

/// The index of a value in an arena that holds `T`s.
///
/// Two indexes are equal, ordered and hashed as their numbers are.
///
/// ```
/// let idx: Idx<u8> = Idx::from_raw(RawIdx::from_u32(40));
/// assert_eq!(rt; idx.into_raw().into_u32(), 40);
/// assert!(rt; idx < Idx::from_raw(RawIdx::from_u32(41)));
/// assert_eq!(rt; format!(in rt.alloc(); "{idx:?}")?.as_str(), "Idx(40)");
/// ```
#[derive(Drop)]
#[derive_where(Clone, Copy, PartialEq, Eq, PartialOrd, Ord, Hash)]
pub struct Idx<T> {
    raw: RawIdx,
    marker: PhantomData<T>,
}

impl<T> Idx<T> {
    /// Creates a new index from a [`RawIdx`].
    pub const fn from_raw(raw: RawIdx) -> Self
        ensures { index_of result ≡ number_of raw }
    {
        Idx {
            raw,
            marker: PhantomData,
        }
    }

    /// Converts this index into the underlying [`RawIdx`].
    pub const fn into_raw(self) -> RawIdx
        ensures { number_of result ≡ index_of self }
    {
        self.raw
    }
}

impl<T> fmt::Debug for Idx<T> {
    ghost debug_output = { λ idx. Some (codes "Idx(" ++ decimal (index_of idx) ++ codes ")") };

    fn fmt<W: fmt::Write>(&self, f: &mut fmt::Formatter<W>) -> fmt::Result {
        write!(f, "Idx({})", self.raw)
    }
}
