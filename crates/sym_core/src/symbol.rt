ghost use Rattle.std.specs.Prelude.{◌≡◌, ◌↔◌, Some, IfOk, IsTrue, codes, nat_eq, refl};
ghost use Rattle.std.specs.Ordering.{nat_cmp};
ghost use Rattle.std.specs.Hash as fed;
ghost use Rattle.std.specs.Cmp.{partial_equiv_from_equiv};
ghost use Rattle.std.specs.Cmp.Lexicographic.{pointwise, slice_cmp, nat_list_eq_equiv, nat_list_cmp_total, texts_ties, texts_po};
ghost use Rattle.std.specs.Cmp.Rules.{comparing, hashing};
ghost use Rattle.std.specs.Fmt.{debug_str};
ghost use Rattle.std.proofs.Common.{rules};

use std::alloc::{AllocError, Global};
use std::cmp::Ordering;
use std::fmt;
use std::fmt::{Debug, Display};
use std::hash::{Hash, Hasher};
use std::marker::Model;
use std::rc::RcStr;

/// Shared text: a copy shares the text of its original, and takes no more memory for it.
///
/// Two symbols are equal, ordered and hashed as their bytes are.
///
/// ```
/// let net = Symbol::new(rt.alloc(), "net")?;
/// let copy = net.clone()?;
/// assert_eq!(rt; net.as_str(), "net");
/// assert!(rt; net == copy);
/// assert!(rt; net < Symbol::new(rt.alloc(), "nets")?);
/// assert!(rt; Symbol::new(rt.alloc(), "all")?.is_all());
/// ```
#[derive(Drop)]
pub struct Symbol {
    text: RcStr,
}

impl Model for Symbol {
    ghost use Rattle.std.specs.Prelude.{ℕ, List};
    ghost use Rattle.std.specs.Rc.{rc_str_bytes};

    ghost Value = { List ℕ };

    ghost view = { λ symbol. rc_str_bytes symbol.text };
}

impl Symbol {
    /// Makes a symbol with this text.
    pub fn new(alloc: Global, text: &str) -> Result<Symbol, AllocError>
        ensures { IfOk result (λ symbol. symbol ≡ text.now) }
    {
        let text = RcStr::from_str(alloc, text)?;
        Ok(Symbol { text })
    }

    /// Returns the text.
    pub fn as_str(&self) -> &str
        ensures { result.now ≡ self.now }
    {
        self.text.as_str()
    }

    /// Returns whether the text is `all`.
    pub fn is_all(&self) -> bool
        ensures { IsTrue result ↔ (self.now ≡ codes "all") }
    {
        self.as_str() == "all"
    }

    /// Returns whether the text is `any`.
    pub fn is_any(&self) -> bool
        ensures { IsTrue result ↔ (self.now ≡ codes "any") }
    {
        self.as_str() == "any"
    }

    /// Returns whether the text is `not`.
    pub fn is_not(&self) -> bool
        ensures { IsTrue result ↔ (self.now ≡ codes "not") }
    {
        self.as_str() == "not"
    }

    /// Returns whether the text is `true`.
    pub fn is_true(&self) -> bool
        ensures { IsTrue result ↔ (self.now ≡ codes "true") }
    {
        self.as_str() == "true"
    }

    /// Returns whether the text is `false`.
    pub fn is_false(&self) -> bool
        ensures { IsTrue result ↔ (self.now ≡ codes "false") }
    {
        self.as_str() == "false"
    }
}

impl Clone for Symbol {
    ghost is_clone = { λ symbol copy. copy ≡ symbol };

    fn clone(&self) -> Result<Self, AllocError> {
        let text = self.text.clone()?;
        Ok(Symbol { text })
    }
}

impl PartialEq for Symbol {
    ghost eq = { pointwise nat_eq };

    ghost laws = { partial_equiv_from_equiv nat_list_eq_equiv };

    fn eq(&self, other: &Symbol) -> bool {
        self.text == other.text
    }
}

impl Eq for Symbol {
    ghost laws = { nat_list_eq_equiv };
}

impl PartialOrd for Symbol {
    ghost partial_cmp = { λ left right. Some (slice_cmp nat_cmp left right) };

    ghost laws = { texts_po };

    fn partial_cmp(&self, other: &Symbol) -> Option<Ordering> {
        Some(self.cmp(other))
    }
}

impl Ord for Symbol {
    ghost cmp = { slice_cmp nat_cmp };

    ghost total = { nat_list_cmp_total };

    ghost matches_partial_cmp = { λ left right. refl };

    ghost matches_eq = { texts_ties };

    fn cmp(&self, other: &Symbol) -> Ordering {
        self.text.cmp(&other.text)
    }
}

impl Hash for Symbol {
    ghost hash_input = { fed.str };

    ghost respects_eq = { Prim.search (hashing, rules) };

    fn hash<H: Hasher>(&self, state: &mut H) {
        self.text.hash(state);
    }
}

impl fmt::Display for Symbol {
    ghost output = { λ symbol. Some symbol };

    fn fmt<W: fmt::Write>(&self, f: &mut fmt::Formatter<W>) -> fmt::Result {
        f.write_str(self.as_str())
    }
}

impl fmt::Debug for Symbol {
    ghost debug_output = { λ symbol. debug_str symbol };

    fn fmt<W: fmt::Write>(&self, f: &mut fmt::Formatter<W>) -> fmt::Result {
        Debug::fmt(self.as_str(), f)
    }
}
