ghost use Rattle.std.specs.Prelude.{◌≡◌, ◌↔◌, List, Ok, Err, IfOk, OnOk, OnErr, IsTrue, true, false, if◌then◌else◌, IsOk};
ghost use Rattle.std.specs.Iterator.{Drains, ExtendsWithItems, IsFinite};
ghost use Rattle.std.specs.FinSet as set;
ghost use Rattle.std.specs.FinMap as finite;
ghost use Rattle.std.specs.Cmp.Lexicographic.{slice_cmp};
ghost use Rattle.std.specs.Ordering.{nat_cmp};
ghost use Rattle.ra_cfg.specs.declared.cfg_expr.CfgAtom.{CfgAtom as AtomValue};
ghost use Rattle.ra_cfg.specs.Options.{IsReserved, IsSettable, Lists, OptionSet, names_of, values_at, atom_cmp, name_of, only_true, with_atom, with_flag, with_free, with_answer, appended, with_all, without_free, without_all, TakesIn};
ghost use Rattle.ra_cfg.specs.Diff.{with_diff};
ghost use Rattle.ra_cfg.specs.Hashable.{IsListing};
ghost use Rattle.std.specs.List.Sorted.{IsStrictlySortedBy};
ghost use Rattle.std.specs.Map.{keys_of};
ghost use Rattle.ra_cfg.specs.Reading.{reads_under};

use crate::cfg_diff::CfgDiff;
use crate::cfg_expr::{CfgAtom, CfgExpr};
use crate::cfg_iter::{CfgIntoIter, CfgIter, CfgKeys, CfgValues, name_of};
use crate::hashable::HashableCfgOptions;
use std::alloc::{AllocError, Global};
use std::cmp::Ordering;
use std::collections::btree_map::Comparable;
use std::collections::{BTreeMap, BTreeSet};
use std::marker::Model;
use sym_core::Symbol;

/// The options that predicates are evaluated under: the atoms that are set, and the versions that have an answer.
///
/// The flag `true` is always set, and no other atom whose name or key is `true` or `false`.
///
/// ```
/// let mut options = CfgOptions::new(alloc)?;
/// assert!(options.insert_atom(Symbol::new(alloc, "unix")?)?);
/// assert!(!options.insert_atom(Symbol::new(alloc, "true")?)?);     // reserved, and set from the start
/// assert!(options.insert_key_value(Symbol::new(alloc, "k")?, Symbol::new(alloc, "v")?)?);
/// assert_eq!(options.check(&expr), Some(true));                     // of `all(unix, k = "v")`
/// ```
#[derive(Debug, Drop)]
pub struct CfgOptions {
    enabled: BTreeSet<CfgAtom>,
    versions: BTreeMap<Symbol, bool>,
}

impl Model for CfgOptions {
    ghost use Rattle.std.specs.FinSet as set;
    ghost use Rattle.std.specs.FinMap as finite;
    ghost use Rattle.ra_cfg.specs.Options.{OptionSet, options_code, IsSettable};

    ghost Value = { OptionSet };

    ghost coded = { options_code };

    ghost view = { λ o. record { atoms = set.from_list o.enabled.keys; versions = finite.from_entries o.versions.entries } };

    ghost invariant = { λ o. IsSettable (set.from_list o.enabled.keys) };
}

impl CfgOptions {
    /// Makes options with the flag `true` alone, and no version that has an answer. The type's example begins with it.
    ///
    /// # Errors
    ///
    /// Returns an error if there is no memory.
    pub fn new(alloc: Global) -> Result<CfgOptions, AllocError>
        ensures { IfOk result (λ options. options ≡ only_true) }
    {
        let name = Symbol::new(alloc, "true")?;
        let mut enabled = BTreeSet::new(alloc);
        enabled.insert(CfgAtom::Flag(name))?;
        Ok(CfgOptions {
            enabled,
            versions: BTreeMap::new(alloc),
        })
    }

    /// Evaluates the predicate under these options: to `Some(true)`, `Some(false)` or `None`, as it reads true, false or
    /// nothing. The type has an example.
    pub fn check(&self, cfg: &CfgExpr) -> Option<bool>
        ensures { result ≡ reads_under self.now cfg.now }
    {
        cfg.fold_with(
            &|atom| self.check_atom(atom),
            &|text| self.version(text.as_str()),
        )
    }

    /// Returns whether the atom is set.
    ///
    /// ```
    /// let options = CfgOptions::new(alloc)?;
    /// assert!(options.check_atom(&CfgAtom::Flag(Symbol::new(alloc, "true")?)));
    /// assert!(!options.check_atom(&CfgAtom::Flag(Symbol::new(alloc, "false")?)));
    /// ```
    pub fn check_atom(&self, cfg: &CfgAtom) -> bool
        ensures value { result ≡ set.contains self.now.atoms cfg.now }
        ensures settable { IsSettable self.now.atoms }
    {
        self.enabled.contains(cfg)
    }

    /// Returns the answer for the version with this text, if it has one.
    pub fn version(&self, text: &str) -> Option<bool>
        ensures { result ≡ finite.get self.now.versions text.now }
    {
        self.versions.get(Text { text }).copied()
    }

    /// Sets the flag with this name, and returns true.
    ///
    /// The names `true` and `false` are reserved: for them it returns false, and sets nothing. The type has an example.
    ///
    /// # Errors
    ///
    /// Returns an error if there is no memory; the options are then as they were.
    pub fn insert_atom(&mut self, key: Symbol) -> Result<bool, AllocError>
        ensures reserved { result ≡ Ok false ↔ IsReserved key }
        ensures set { IfOk result (λ added. self.new ≡ (if added then with_atom self.old (CfgAtom.Flag key) else self.old)) }
        ensures flag { OnOk result (self.new ≡ with_flag self.old key) }
        ensures err { OnErr result (self.new ≡ self.old) }
    {
        self.insert_any(CfgAtom::Flag(key))
    }

    /// Sets the pair of this key and this value, and returns true.
    ///
    /// The keys `true` and `false` are reserved: for them it returns false, and sets nothing. The type has an example.
    ///
    /// # Errors
    ///
    /// Returns an error if there is no memory; the options are then as they were.
    pub fn insert_key_value(&mut self, key: Symbol, value: Symbol) -> Result<bool, AllocError>
        ensures reserved { result ≡ Ok false ↔ IsReserved key }
        ensures set { IfOk result (λ added. self.new ≡ (if added then with_atom self.old (CfgAtom.KeyValue key value) else self.old)) }
        ensures pair { OnOk result (self.new ≡ with_free self.old (CfgAtom.KeyValue key value)) }
        ensures err { OnErr result (self.new ≡ self.old) }
    {
        self.insert_any(CfgAtom::KeyValue { key, value })
    }

    fn insert_any(&mut self, atom: CfgAtom) -> Result<bool, AllocError>
        ensures reserved { result ≡ Ok false ↔ IsReserved (name_of atom) }
        ensures set { IfOk result (λ added. self.new ≡ (if added then with_atom self.old atom else self.old)) }
        ensures free { OnOk result (self.new ≡ with_free self.old atom) }
        ensures err { OnErr result (self.new ≡ self.old) }
    {
        if is_reserved(&atom) {
            return Ok(false);
        }
        self.enabled.insert(atom)?;
        Ok(true)
    }

    /// Sets the answer for the version with this text, in place of an older one.
    ///
    /// ```
    /// options.set_version(Symbol::new(alloc, "1.70")?, false)?;
    /// assert_eq!(options.version("1.70"), Some(false));
    /// assert_eq!(options.version("1.7"), None);
    /// ```
    ///
    /// # Errors
    ///
    /// Returns an error if there is no memory; the options are then as they were.
    pub fn set_version(&mut self, text: Symbol, answer: bool) -> Result<(), AllocError>
        ensures ok { OnOk result (self.new ≡ with_answer self.old text answer) }
        ensures err { OnErr result (self.new ≡ self.old) }
    {
        self.versions.insert(text, answer)?;
        Ok(())
    }

    /// Takes in the atoms and the answers of other options, whose answers stand in place of older ones.
    ///
    /// ```
    /// options.set_version(Symbol::new(alloc, "1.70")?, false)?;
    /// later.set_version(Symbol::new(alloc, "1.70")?, true)?;
    /// options.append(later)?;
    /// assert_eq!(options.version("1.70"), Some(true));
    /// ```
    ///
    /// # Errors
    ///
    /// Returns an error if there is no memory; the options are then as they were.
    pub fn append(&mut self, other: CfgOptions) -> Result<(), AllocError>
        ensures ok { OnOk result (self.new ≡ appended self.old other) }
        ensures err { OnErr result (self.new ≡ self.old) }
    {
        let CfgOptions {
            enabled: mut more,
            versions: mut answers,
        } = other;
        let mut enabled = self.enabled.clone()?;
        let mut versions = self.versions.clone()?;
        enabled.append(&mut more)?;
        versions.append(&mut answers)?;
        self.enabled = enabled;
        self.versions = versions;
        Ok(())
    }

    /// Sets the atoms that the diff enables, then unsets those that it disables. It leaves reserved names and keys alone.
    ///
    /// ```
    /// let mut options = CfgOptions::from_iter(alloc, before)?;     // the flag `a`
    /// options.apply_diff(CfgDiff::new(enable, disable))?;          // the flags `b` and `false`, and the flags `a` and `true`
    /// assert!(options == CfgOptions::from_iter(alloc, after)?);    // the flag `b`
    /// ```
    ///
    /// # Errors
    ///
    /// Returns an error if there is no memory; the options are then as they were.
    pub fn apply_diff(&mut self, diff: CfgDiff) -> Result<(), AllocError>
        ensures ok { OnOk result (self.new ≡ with_diff self.old diff) }
        ensures err { OnErr result (self.new ≡ self.old) }
    {
        let mut changed = self.clone()?;
        changed.insert_all(diff.enabled())?;
        changed.remove_all(diff.disabled());
        *self = changed;
        Ok(())
    }

    fn insert_all(&mut self, atoms: &[CfgAtom]) -> Result<(), AllocError>
        ensures { OnOk result (self.new ≡ with_all self.old atoms.now) }
    {
        for atom in atoms {
            self.insert_any(atom.clone()?)?;
        }
        Ok(())
    }

    fn remove_all(&mut self, atoms: &[CfgAtom])
        ensures { self.new ≡ without_all self.old atoms.now }
    {
        for atom in atoms {
            self.remove_any(atom);
        }
    }

    fn remove_any(&mut self, atom: &CfgAtom)
        ensures { self.new ≡ without_free self.old atom.now }
    {
        if is_reserved(atom) {
            return;
        }
        self.enabled.remove(atom);
    }

    /// Sets the atoms one after the other, and leaves out those with a reserved name or key.
    ///
    /// # Errors
    ///
    /// Returns an error if there is no memory; the atoms that came before are then set.
    #[tactic(auto, using(crate::proofs::OptionSets::with_all_last))]
    pub fn extend<I: IntoIterator<Item = CfgAtom>>(&mut self, iter: I) -> Result<(), AllocError>
        requires { (it : I.IntoIter) → I.into_iter_gives iter it → I.IntoIter.can_next it × IsFinite (I.IntoIter.remaining it) }
        ensures { ExtendsWithItems I.into_iter_gives I.IntoIter.next_gives TakesIn iter self.old self.new result }
    {
        for atom in iter {
            self.insert_any(atom)?;
        }
        Ok(())
    }

    /// Makes options with the flag `true` and these atoms, without those with a reserved name or key.
    ///
    /// # Errors
    ///
    /// Returns an error if there is no memory.
    pub fn from_iter<I: IntoIterator<Item = CfgAtom>>(
        alloc: Global,
        iter: I,
    ) -> Result<CfgOptions, AllocError>
        requires { (it : I.IntoIter) → I.into_iter_gives iter it → I.IntoIter.can_next it × IsFinite (I.IntoIter.remaining it) }
        ensures { IfOk result (λ options. (it : I.IntoIter) × (atoms : List AtomValue) × I.into_iter_gives iter it × Drains I.IntoIter.next_gives it atoms × TakesIn only_true atoms options) }
    {
        let atoms = iter.into_iter();
        let mut options = CfgOptions::new(alloc)?;
        options.extend(atoms)?;
        Ok(options)
    }

    /// Returns the atoms, each once.
    ///
    /// ```
    /// let options = CfgOptions::from_iter(alloc, atoms)?;     // the pair `k = "v"` and the flag `a`
    /// assert_eq!(options.iter().count(), 3);                  // and the flag `true`
    /// ```
    pub fn iter(&self) -> CfgIter<'_>
        ensures lists { Lists self.now.atoms result }
        ensures settable { IsSettable self.now.atoms }
    {
        CfgIter::new(self.enabled.iter())
    }

    /// Returns the name or the key of each atom.
    ///
    /// ```
    /// let options = CfgOptions::from_iter(alloc, atoms)?;     // the pair `k = "v"` and the flag `a`
    /// assert_eq!(options.get_cfg_keys().count(), 3);          // `a`, `true` and `k`
    /// ```
    pub fn get_cfg_keys(&self) -> CfgKeys<'_>
        ensures { (atoms : List AtomValue) × Lists self.now.atoms atoms × (result ≡ names_of atoms) }
    {
        CfgKeys::new(self.enabled.iter())
    }

    /// Returns the value of each pair with this key.
    ///
    /// ```
    /// let mut values = options.get_cfg_values("k");           // `options` has the pair `k = "v"`
    /// assert_eq!(values.next(), Some(&Symbol::new(alloc, "v")?));
    /// assert_eq!(values.next(), None);
    /// ```
    pub fn get_cfg_values<'a>(&'a self, cfg_key: &'a str) -> CfgValues<'a>
        ensures { (atoms : List AtomValue) × Lists self.now.atoms atoms × (result ≡ values_at cfg_key.now atoms) }
    {
        CfgValues::new(cfg_key, self.enabled.iter())
    }

    /// Lists the atoms and the answers in order, as a value that is compared and hashed.
    ///
    /// ```
    /// let listing = options.to_hashable(alloc)?;              // `options` has the pair `k = "v"` and the flag `a`
    /// assert!(listing.atoms() == want.as_slice());            // the flags `a` and `true`, and the pair
    /// ```
    ///
    /// # Errors
    ///
    /// Returns an error if there is no memory.
    pub fn to_hashable(&self, alloc: Global) -> Result<HashableCfgOptions, AllocError>
        ensures { IfOk result (λ listing. IsListing self.now listing) }
    {
        let atoms = listed_atoms(alloc, &self.enabled)?;
        let versions = listed_versions(alloc, &self.versions)?;
        Ok(HashableCfgOptions { atoms, versions })
    }

    /// Keeps the options as they are.
    ///
    /// Atoms and answers are kept in trees, which offer no way to give spare memory back: this does nothing, and the
    /// answer is `Ok`.
    pub fn shrink_to_fit(&mut self) -> Result<(), AllocError>
        ensures kept { self.new ≡ self.old }
        ensures ok { IsOk result }
    {
        Ok(())
    }

    /// Makes a copy.
    ///
    /// # Errors
    ///
    /// Returns an error if there is no memory.
    pub fn try_clone(&self, _alloc: Global) -> Result<CfgOptions, AllocError>
        ensures { IfOk result (λ copy. copy ≡ self.now) }
    {
        Ok(self.clone()?)
    }
}

impl Clone for CfgOptions {
    ghost is_clone = { λ options copy. copy ≡ options };

    fn clone(&self) -> Result<Self, AllocError> {
        let enabled = self.enabled.clone()?;
        let versions = self.versions.clone()?;
        Ok(CfgOptions { enabled, versions })
    }
}

impl IntoIterator for CfgOptions {
    type Item = CfgAtom;

    type IntoIter = CfgIntoIter;

    ghost into_iter_gives = { λ options it. Lists options.atoms it };

    fn into_iter(self) -> CfgIntoIter {
        let CfgOptions { enabled, versions } = self;
        drop(versions);
        CfgIntoIter::new(enabled.into_iter())
    }
}

impl<'a> IntoIterator for &'a CfgOptions {
    type Item = &'a CfgAtom;

    type IntoIter = CfgIter<'a>;

    ghost into_iter_gives = { λ options it. Lists options.now.atoms it };

    fn into_iter(self) -> CfgIter<'a> {
        self.iter()
    }
}

impl PartialEq for CfgOptions {
    ghost use Rattle.std.specs.Cmp.{partial_equiv_from_equiv};
    ghost use Rattle.ra_cfg.specs.SameOptions.{same_options, same_options_equiv};

    ghost eq = { same_options };

    ghost laws = { partial_equiv_from_equiv same_options_equiv };

    fn eq(&self, other: &CfgOptions) -> bool {
        // `len` tells that what is kept is in order.
        let _ = (self.enabled.len(), other.enabled.len());
        let _ = (self.versions.len(), other.versions.len());
        self.enabled == other.enabled && self.versions == other.versions
    }
}

impl Eq for CfgOptions {
    ghost use Rattle.ra_cfg.specs.SameOptions.{same_options_equiv};

    ghost laws = { same_options_equiv };
}

fn listed_atoms(alloc: Global, enabled: &BTreeSet<CfgAtom>) -> Result<Vec<CfgAtom>, AllocError>
    ensures kept { IfOk result (λ atoms. atoms.items ≡ enabled.now.keys) }
    ensures sorted { IsStrictlySortedBy atom_cmp enabled.now.keys }
{
    // `len` tells that what is kept is in order.
    let _ = enabled.len();
    let mut atoms = Vec::new(alloc);
    for atom in enabled {
        atoms.push(atom.clone()?)?;
    }
    Ok(atoms)
}

fn listed_versions(
    alloc: Global,
    versions: &BTreeMap<Symbol, bool>,
) -> Result<Vec<(Symbol, bool)>, AllocError>
    ensures kept { IfOk result (λ answers. answers.items ≡ versions.now.entries) }
    ensures sorted { IsStrictlySortedBy (slice_cmp nat_cmp) (keys_of versions.now.entries) }
{
    let _ = versions.len();
    let mut answers = Vec::new(alloc);
    for (text, answer) in versions {
        answers.push((text.clone()?, *answer))?;
    }
    Ok(answers)
}

// Whether the name or the key of the atom is reserved.
fn is_reserved(atom: &CfgAtom) -> bool
    ensures { IsTrue result ↔ IsReserved (name_of atom.now) }
{
    let name = name_of(atom);
    name.is_true() || name.is_false()
}

// A text that symbols are compared with.
#[derive(Clone, Copy)]
struct Text<'a> {
    text: &'a str,
}

impl<'a> Comparable<Symbol> for Text<'a> {
    ghost use Rattle.std.specs.Cmp.Lexicographic.{nat_list_cmp_total};
    ghost use Rattle.std.specs.BTreeMap.Comparable.{le_lt_trans};

    ghost compare = { λ query key. slice_cmp nat_cmp query.text.now key };

    ghost respects_cmp = { λ query x y. nat_list_cmp_total.congr query.text.now x y };

    ghost below_greater = { λ query x y. le_lt_trans nat_list_cmp_total query.text.now x y };

    fn compare(&self, key: &Symbol) -> Ordering {
        self.text.cmp(key.as_str())
    }
}
