ghost use Rattle.std.specs.Prelude.{◌≡◌, ◌++◌, Some, codes};
ghost use Rattle.std.specs.Fmt.{decimal};
ghost use Rattle.la_arena.specs.Idx.{number_of, index_of};

use crate::{Binding, Expr, Pat};
use la_arena::{Idx, RawIdx};
use std::fmt;
use std::fmt::Debug;

/// The place of an expression in its store, counted from 0.
///
/// A type of its own rather than an index of the arena, so that no type of the store leads back to
/// itself.
#[derive(Clone, Copy, PartialEq, Eq, PartialOrd, Ord, Hash)]
pub struct ExprId {
    /// The number of an expression in its arena.
    pub raw: RawIdx,
}

impl ExprId {
    /// Returns the index of the same number in the arena.
    pub fn idx(self) -> Idx<Expr>
        ensures { index_of result ≡ number_of self.raw }
    {
        Idx::from_raw(self.raw)
    }
}

impl From<Idx<Expr>> for ExprId {
    ghost from_gives = { λ idx id. number_of id.raw ≡ index_of idx };

    fn from(idx: Idx<Expr>) -> ExprId {
        ExprId {
            raw: idx.into_raw(),
        }
    }
}

impl fmt::Debug for ExprId {
    ghost debug_output = { λ id. Some (codes "Idx(" ++ decimal (number_of id.raw) ++ codes ")") };

    fn fmt<W: fmt::Write>(&self, f: &mut fmt::Formatter<W>) -> fmt::Result {
        self.idx().fmt(f)
    }
}

/// The place of a pattern in its store, counted from 0.
#[derive(Clone, Copy, PartialEq, Eq, PartialOrd, Ord, Hash)]
pub struct PatId {
    /// The number of a pattern in its arena.
    pub raw: RawIdx,
}

impl PatId {
    /// Returns the index of the same number in the arena.
    pub fn idx(self) -> Idx<Pat>
        ensures { index_of result ≡ number_of self.raw }
    {
        Idx::from_raw(self.raw)
    }
}

impl From<Idx<Pat>> for PatId {
    ghost from_gives = { λ idx id. number_of id.raw ≡ index_of idx };

    fn from(idx: Idx<Pat>) -> PatId {
        PatId {
            raw: idx.into_raw(),
        }
    }
}

impl fmt::Debug for PatId {
    ghost debug_output = { λ id. Some (codes "Idx(" ++ decimal (number_of id.raw) ++ codes ")") };

    fn fmt<W: fmt::Write>(&self, f: &mut fmt::Formatter<W>) -> fmt::Result {
        self.idx().fmt(f)
    }
}

/// The place of a binding in its store, counted from 0.
#[derive(Clone, Copy, PartialEq, Eq, PartialOrd, Ord, Hash)]
pub struct BindingId {
    /// The number of a binding in its arena.
    pub raw: RawIdx,
}

impl BindingId {
    /// Returns the index of the same number in the arena.
    pub fn idx(self) -> Idx<Binding>
        ensures { index_of result ≡ number_of self.raw }
    {
        Idx::from_raw(self.raw)
    }
}

impl From<Idx<Binding>> for BindingId {
    ghost from_gives = { λ idx id. number_of id.raw ≡ index_of idx };

    fn from(idx: Idx<Binding>) -> BindingId {
        BindingId {
            raw: idx.into_raw(),
        }
    }
}

impl fmt::Debug for BindingId {
    ghost debug_output = { λ id. Some (codes "Idx(" ++ decimal (number_of id.raw) ++ codes ")") };

    fn fmt<W: fmt::Write>(&self, f: &mut fmt::Formatter<W>) -> fmt::Result {
        self.idx().fmt(f)
    }
}
