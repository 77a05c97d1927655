ghost use Rattle.std.specs.Prelude.{◌≡◌, IfOk};
ghost use Rattle.ra_cfg.specs.Hashable.{IsOfOptions};

use crate::cfg_expr::CfgAtom;
use std::alloc::{AllocError, Global};
use std::hash::{Hash, Hasher};
use std::marker::Model;
use sym_core::Symbol;

/// The atoms and the answers of options as lists in order, which are compared and hashed: two are equal exactly where
/// the options are.
#[derive(Debug, Drop)]
pub struct HashableCfgOptions {
    pub(crate) atoms: Vec<CfgAtom>,
    pub(crate) versions: Vec<(Symbol, bool)>,
}

impl Model for HashableCfgOptions {
    ghost use Rattle.ra_cfg.specs.Hashable.{Listing, listing_code, IsOfOptions};

    ghost Value = { Listing };

    ghost coded = { listing_code };

    ghost view = { λ h. record { atoms = h.atoms.items; versions = h.versions.items } };

    ghost invariant = { λ h. IsOfOptions (record { atoms = h.atoms.items; versions = h.versions.items }) };
}

impl HashableCfgOptions {
    /// Returns the atoms, in order: the flag `true` is among them.
    pub fn atoms(&self) -> &[CfgAtom]
        ensures value { result.now ≡ self.now.atoms }
        ensures of_options { IsOfOptions self.now }
    {
        self.atoms.as_slice()
    }

    /// Makes a copy.
    ///
    /// # Errors
    ///
    /// Returns an error if there is no memory.
    pub fn try_clone(&self, alloc: Global) -> Result<HashableCfgOptions, AllocError>
        ensures { IfOk result (λ copy. copy ≡ self.now) }
    {
        let atoms = Vec::from_clones(alloc, self.atoms.as_slice())?;
        let versions = Vec::from_clones(alloc, self.versions.as_slice())?;
        Ok(HashableCfgOptions { atoms, versions })
    }
}

impl PartialEq for HashableCfgOptions {
    ghost use Rattle.std.specs.Cmp.{partial_equiv_from_equiv};
    ghost use Rattle.ra_cfg.specs.Hashable.{same_listing, same_listing_equiv};

    ghost eq = { same_listing };

    ghost laws = { partial_equiv_from_equiv same_listing_equiv };

    fn eq(&self, other: &HashableCfgOptions) -> bool {
        self.atoms == other.atoms && self.versions == other.versions
    }
}

impl Eq for HashableCfgOptions {
    ghost use Rattle.ra_cfg.specs.Hashable.{same_listing_equiv};

    ghost laws = { same_listing_equiv };
}

impl Hash for HashableCfgOptions {
    ghost use Rattle.ra_cfg.specs.Hashable.{listing_input, same_listing_input};

    ghost hash_input = { listing_input };

    ghost respects_eq = { same_listing_input };

    fn hash<H: Hasher>(&self, state: &mut H) {
        self.atoms.hash(state);
        self.versions.hash(state);
    }
}
