ghost use Rattle.std.specs.Prelude.{◌≡◌, ◌↔◌, Bool, None, map, fold, IfOk, IsTrue};
ghost use Rattle.std.specs.Hash as fed;
ghost use Rattle.std.specs.Fn.{FnReturnsAt};
ghost use Rattle.ra_cfg.specs.declared.cfg_expr.CfgAtom.{CfgAtom as AtomValue};
ghost use Rattle.ra_cfg.specs.Reading.{reading, read_all, read_any, atoms_of, Agrees, EvaluatesTo, FoldsTo};
ghost use Rattle.ra_cfg.specs.Hashed.{hashed};

use sqlite_items::{Boxed, Items};
use std::alloc::{AllocError, Global};
use std::hash::{Hash, Hasher};
use sym_core::Symbol;

/// A single condition, as the outside sets it.
///
/// Flags stand before pairs; flags are ordered by their bytes, and pairs by their key, then by their value.
#[derive(Clone, PartialEq, Eq, PartialOrd, Ord, Hash, Debug, Drop)]
pub enum CfgAtom {
    /// A name alone, as `test`.
    Flag(Symbol),
    /// A key with a value, as `target_os = "linux"`. One key can have many values at a time.
    KeyValue {
        /// The key.
        key: Symbol,
        /// The value.
        value: Symbol,
    },
}

/// A predicate, as in `#[cfg(..)]`.
///
/// ```
/// let set = |_atom: &CfgAtom| true;
/// let expr = CfgExpr::from(CfgAtom::Flag(Symbol::new(alloc, "unix")?));
/// assert_eq!(expr.fold(&set), Some(true));
/// let contrary = CfgExpr::Not(Boxed::new(alloc, expr)?);
/// assert_eq!(contrary.fold(&set), Some(false));
/// ```
#[derive(Debug, Drop)]
pub enum CfgExpr {
    /// What is no predicate.
    Invalid,
    /// A single condition.
    Atom(CfgAtom),
    /// All of the parts.
    All(Items<CfgExpr>),
    /// At least one of the parts.
    Any(Items<CfgExpr>),
    /// The contrary of the part.
    Not(Boxed<CfgExpr>),
    /// That the compiler is at least of this version.
    Version(Symbol),
}

impl From<CfgAtom> for CfgExpr {
    ghost use Rattle.ra_cfg.specs.declared.cfg_expr.CfgExpr.TheVariants.{Atom};

    ghost from_gives = { λ atom expr. expr ≡ Atom atom };

    fn from(atom: CfgAtom) -> CfgExpr {
        Self::Atom(atom)
    }
}

impl CfgExpr {
    /// Evaluates the predicate to `Some(true)`, `Some(false)` or `None`, as it reads true, false or nothing: `query` tells
    /// of each atom whether it is set, and `version` of each version what its answer is, if it has one.
    ///
    /// ```
    /// let set = |_atom: &CfgAtom| true;
    /// let version = CfgExpr::Version(Symbol::new(alloc, "1.70")?);
    /// assert_eq!(version.fold_with(&set, &|_text| Some(false)), Some(false));
    /// ```
    #[cycle(folding)]
    pub fn fold_with<F: Fn(&CfgAtom) -> bool, G: Fn(&Symbol) -> Option<bool>>(
        &self,
        query: &F,
        version: &G,
    ) -> Option<bool>
        requires query { F.IsAlwaysCallable query.now }
        requires version { G.IsAlwaysCallable version.now }
        ensures { EvaluatesTo (FnReturnsAt F.Fn query.now) (FnReturnsAt G.Fn version.now) self.now result }
    {
        match self {
            CfgExpr::Invalid => None,
            CfgExpr::Atom(atom) => Some(query(atom)),
            CfgExpr::All(parts) => fold_all(parts.as_slice(), query, version),
            CfgExpr::Any(parts) => fold_any(parts.as_slice(), query, version),
            CfgExpr::Not(part) => Some(!part.get().fold_with(query, version)?),
            CfgExpr::Version(text) => version(text),
        }
    }

    /// Evaluates the predicate to `Some(true)`, `Some(false)` or `None`, where no version has an answer, and `query` tells
    /// of each atom whether it is set.
    ///
    /// ```
    /// let set = |_atom: &CfgAtom| true;
    /// let version = CfgExpr::Version(Symbol::new(alloc, "1.70")?);
    /// assert_eq!(version.fold(&set), None);
    /// ```
    pub fn fold<F: Fn(&CfgAtom) -> bool>(&self, query: &F) -> Option<bool>
        requires { F.IsAlwaysCallable query.now }
        ensures { (holds : AtomValue → Bool) → Agrees (FnReturnsAt F.Fn query.now) holds (atoms_of self.now) → result ≡ reading holds (λ text. None) self.now }
    {
        self.fold_with(query, &|_text| None)
    }

    /// Makes a copy.
    ///
    /// # Errors
    ///
    /// Returns an error if there is no memory.
    #[cycle(copying)]
    pub fn try_clone(&self, alloc: Global) -> Result<CfgExpr, AllocError>
        ensures { IfOk result (λ copy. copy ≡ self.now) }
    {
        match self {
            CfgExpr::Invalid => Ok(CfgExpr::Invalid),
            CfgExpr::Atom(atom) => Ok(CfgExpr::Atom(atom.clone()?)),
            CfgExpr::All(parts) => Ok(CfgExpr::All(copy_all(alloc, parts.as_slice())?)),
            CfgExpr::Any(parts) => Ok(CfgExpr::Any(copy_all(alloc, parts.as_slice())?)),
            CfgExpr::Not(part) => {
                let copy = part.get().try_clone(alloc)?;
                Ok(CfgExpr::Not(Boxed::new(alloc, copy)?))
            }
            CfgExpr::Version(text) => Ok(CfgExpr::Version(text.clone()?)),
        }
    }

    #[cycle(comparing)]
    fn is_same(&self, other: &CfgExpr) -> bool
        ensures { IsTrue result ↔ (self.now ≡ other.now) }
    {
        match self {
            CfgExpr::Invalid => matches!(other, CfgExpr::Invalid),
            CfgExpr::Atom(atom) => match other {
                CfgExpr::Atom(second) => atom == second,
                _ => false,
            },
            CfgExpr::All(parts) => match other {
                CfgExpr::All(others) => are_same(parts.as_slice(), others.as_slice()),
                _ => false,
            },
            CfgExpr::Any(parts) => match other {
                CfgExpr::Any(others) => are_same(parts.as_slice(), others.as_slice()),
                _ => false,
            },
            CfgExpr::Not(part) => match other {
                CfgExpr::Not(second) => part.get().is_same(second.get()),
                _ => false,
            },
            CfgExpr::Version(text) => match other {
                CfgExpr::Version(second) => text == second,
                _ => false,
            },
        }
    }
}

impl PartialEq for CfgExpr {
    ghost use Rattle.std.specs.Cmp.{partial_equiv_from_equiv};
    ghost use Rattle.ra_cfg.specs.contracts.cfg_expr.CfgExpr.{the_row};
    ghost use Rattle.ra_cfg.specs.Decided.{equal, equal_equiv};

    ghost eq = { equal the_row.coded };

    ghost laws = { partial_equiv_from_equiv (equal_equiv the_row.coded) };

    fn eq(&self, other: &CfgExpr) -> bool {
        self.is_same(other)
    }
}

impl Eq for CfgExpr {
    ghost use Rattle.ra_cfg.specs.contracts.cfg_expr.CfgExpr.{the_row};
    ghost use Rattle.ra_cfg.specs.Decided.{equal_equiv};

    ghost laws = { equal_equiv the_row.coded };
}

impl Hash for CfgExpr {
    ghost use Rattle.std.specs.Hash.{same_Alike};
    ghost use Rattle.ra_cfg.specs.contracts.cfg_expr.CfgExpr.{the_row};
    ghost use Rattle.ra_cfg.specs.Decided.{equal_Decides};
    ghost use Rattle.ra_cfg.specs.Hashed.{hashed};

    ghost hash_input = { hashed };

    ghost respects_eq = { (same_Alike hashed (equal_Decides the_row.coded)).fed };

    #[cycle(hashing)]
    fn hash<H: Hasher>(&self, state: &mut H) {
        match self {
            CfgExpr::Invalid => state.write_u8(0),
            CfgExpr::Atom(atom) => {
                state.write_u8(1);
                atom.hash(state);
            }
            CfgExpr::All(parts) => {
                state.write_u8(2);
                hash_all(parts.as_slice(), state);
            }
            CfgExpr::Any(parts) => {
                state.write_u8(3);
                hash_all(parts.as_slice(), state);
            }
            CfgExpr::Not(part) => {
                state.write_u8(4);
                part.get().hash(state);
            }
            CfgExpr::Version(text) => {
                state.write_u8(5);
                text.hash(state);
            }
        }
    }
}

#[cycle(hashing)]
fn hash_all<H: Hasher>(parts: &[CfgExpr], state: &mut H)
    ensures { state.new ≡ fold H.write state.old (fed.slice (λ part. part) (map hashed parts.now)) }
{
    state.write_usize(parts.len());
    for part in parts {
        part.hash(state);
    }
}

#[cycle(copying)]
fn copy_all(alloc: Global, parts: &[CfgExpr]) -> Result<Items<CfgExpr>, AllocError>
    ensures { IfOk result (λ copies. copies ≡ parts.now) }
{
    let mut copies = Items::new(alloc);
    for part in parts {
        copies.push(part.try_clone(alloc)?)?;
    }
    Ok(copies)
}

#[cycle(comparing)]
fn are_same(parts: &[CfgExpr], others: &[CfgExpr]) -> bool
    ensures { IsTrue result ↔ (parts.now ≡ others.now) }
{
    if parts.len() != others.len() {
        return false;
    }
    for i in 0..parts.len() {
        if !parts[i].is_same(&others[i]) {
            return false;
        }
    }
    true
}

#[cycle(folding)]
fn fold_all<F: Fn(&CfgAtom) -> bool, G: Fn(&Symbol) -> Option<bool>>(
    parts: &[CfgExpr],
    query: &F,
    version: &G,
) -> Option<bool>
    requires query { F.IsAlwaysCallable query.now }
    requires version { G.IsAlwaysCallable version.now }
    ensures { FoldsTo (FnReturnsAt F.Fn query.now) (FnReturnsAt G.Fn version.now) read_all parts.now result }
{
    for part in parts {
        if !part.fold_with(query, version)? {
            return Some(false);
        }
    }
    Some(true)
}

#[cycle(folding)]
fn fold_any<F: Fn(&CfgAtom) -> bool, G: Fn(&Symbol) -> Option<bool>>(
    parts: &[CfgExpr],
    query: &F,
    version: &G,
) -> Option<bool>
    requires query { F.IsAlwaysCallable query.now }
    requires version { G.IsAlwaysCallable version.now }
    ensures { FoldsTo (FnReturnsAt F.Fn query.now) (FnReturnsAt G.Fn version.now) read_any parts.now result }
{
    for part in parts {
        if part.fold_with(query, version)? {
            return Some(true);
        }
    }
    Some(false)
}
