ghost use Rattle.std.specs.Prelude.{◌≡◌, ◌↔◌, ◌+◌, ◌<◌, ◌≤◌, ◌++◌, [], ◌∷◌, length, take, drop, slice_index_or, IfOk, IsTrue};
ghost use Rattle.std.specs.List.Sorted.{IsStrictlySortedBy};
ghost use Rattle.ra_cfg.specs.declared.cfg_expr.CfgAtom.{CfgAtom as AtomValue};
ghost use Rattle.ra_cfg.specs.Diff.{HasOnly, IsDiff, only, stands_in};
ghost use Rattle.ra_cfg.specs.Options.{atom_cmp};

use crate::cfg_expr::CfgAtom;
use crate::cfg_text::write_diff;
use std::alloc::{AllocError, Global};
use std::cmp::Ordering;
use std::fmt;
use std::marker::Model;

/// Atoms to enable and atoms to disable.
///
/// Each list is in order and has no atom twice, and no atom stands in both.
///
/// ```
/// let diff = CfgDiff::new(enable, disable);            // the flags `b`, `a` and `b`, and the flag `b`
/// assert_eq!((diff.len(), diff.is_empty()), (1, false));
/// assert_eq!(format!("{diff}"), "enable a");
/// ```
#[derive(Debug, Drop)]
pub struct CfgDiff {
    enable: Vec<CfgAtom>,
    disable: Vec<CfgAtom>,
}

impl Model for CfgDiff {
    ghost use Rattle.ra_cfg.specs.Diff.{Diff, diff_code, IsDiff};

    ghost Value = { Diff };

    ghost coded = { diff_code };

    ghost view = { λ d. record { enabled = d.enable.items; disabled = d.disable.items } };

    ghost invariant = { λ d. IsDiff (record { enabled = d.enable.items; disabled = d.disable.items }) };
}

impl fmt::Display for CfgDiff {
    ghost use Rattle.std.specs.Prelude.{Some};
    ghost use Rattle.ra_cfg.specs.Text.{diff_text};

    ghost output = { λ diff. Some (diff_text diff.enabled diff.disabled) };

    fn fmt<W: fmt::Write>(&self, f: &mut fmt::Formatter<W>) -> fmt::Result {
        write_diff(&self.enable, &self.disable, f)
    }
}

impl CfgDiff {
    /// Makes a diff of these atoms: it puts each list in order, and leaves out repeats and what stands in both lists.
    pub fn new(enable: Vec<CfgAtom>, disable: Vec<CfgAtom>) -> CfgDiff
        ensures is_diff { IsDiff result }
        ensures enabled { HasOnly enable.items disable.items result.enabled }
        ensures disabled { HasOnly disable.items enable.items result.disabled }
    {
        let mut enable = in_order(enable);
        let mut disable = in_order(disable);
        keep_apart(&mut enable, &mut disable);
        CfgDiff { enable, disable }
    }

    /// Returns how many atoms the diff changes.
    pub fn len(&self) -> usize
        ensures value { result ≡ length self.now.enabled + length self.now.disabled }
        ensures is_diff { IsDiff self.now }
    {
        self.enable.len() + self.disable.len()
    }

    /// Returns whether the diff changes nothing.
    pub fn is_empty(&self) -> bool
        ensures value { IsTrue result ↔ (length self.now.enabled + length self.now.disabled ≡ 0) }
        ensures is_diff { IsDiff self.now }
    {
        self.len() == 0
    }

    /// Returns the atoms to enable, in order.
    pub fn enabled(&self) -> &[CfgAtom]
        ensures value { result.now ≡ self.now.enabled }
        ensures is_diff { IsDiff self.now }
    {
        self.enable.as_slice()
    }

    /// Returns the atoms to disable, in order.
    pub fn disabled(&self) -> &[CfgAtom]
        ensures value { result.now ≡ self.now.disabled }
        ensures is_diff { IsDiff self.now }
    {
        self.disable.as_slice()
    }

    /// Makes a copy.
    ///
    /// # Errors
    ///
    /// Returns an error if there is no memory.
    pub fn try_clone(&self, alloc: Global) -> Result<CfgDiff, AllocError>
        ensures { IfOk result (λ copy. copy ≡ self.now) }
    {
        let enable = Vec::from_clones(alloc, self.enable.as_slice())?;
        let disable = Vec::from_clones(alloc, self.disable.as_slice())?;
        Ok(CfgDiff { enable, disable })
    }
}

impl PartialEq for CfgDiff {
    ghost use Rattle.std.specs.Cmp.{partial_equiv_from_equiv};
    ghost use Rattle.ra_cfg.specs.Diff.{same_diff, same_diff_equiv};

    ghost eq = { same_diff };

    ghost laws = { partial_equiv_from_equiv same_diff_equiv };

    fn eq(&self, other: &CfgDiff) -> bool {
        self.enable == other.enable && self.disable == other.disable
    }
}

impl Eq for CfgDiff {
    ghost use Rattle.ra_cfg.specs.Diff.{same_diff_equiv};

    ghost laws = { same_diff_equiv };
}

// The same atoms, in order and each once.
fn in_order(atoms: Vec<CfgAtom>) -> Vec<CfgAtom>
    ensures sorted { IsStrictlySortedBy atom_cmp result.items }
    ensures same { (a : AtomValue) → stands_in a result.items ≡ stands_in a atoms.items }
{
    let mut sorted = atoms;
    sorted.sort_unstable();
    sorted.dedup();
    sorted
}

// Takes out of both lists what stands in both.
fn keep_apart(left: &mut Vec<CfgAtom>, right: &mut Vec<CfgAtom>)
    ensures left { left.new.items ≡ only left.old.items right.old.items }
    ensures right { right.new.items ≡ only right.old.items left.old.items }
{
    let (mut kept_left, mut kept_right) = (0, 0);
    let (mut i, mut j) = (0, 0);
    while i < left.len() && j < right.len() {
        match left[i].cmp(&right[j]) {
            Ordering::Less => {
                keep(left, kept_left, i);
                kept_left += 1;
                i += 1;
            }
            Ordering::Equal => {
                i += 1;
                j += 1;
            }
            Ordering::Greater => {
                keep(right, kept_right, j);
                kept_right += 1;
                j += 1;
            }
        }
    }
    keep_rest(left, kept_left, i);
    keep_rest(right, kept_right, j);
}

// Moves the atom at `next` behind the first `kept` ones.
fn keep(atoms: &mut Vec<CfgAtom>, kept: usize, next: usize)
    requires behind { kept ≤ next }
    requires within { next < length atoms.old.items }
    ensures front { (d : AtomValue) → take (kept + 1) atoms.new.items ≡ take kept atoms.old.items ++ slice_index_or atoms.old.items next d ∷ [] }
    ensures rest { drop (next + 1) atoms.new.items ≡ drop (next + 1) atoms.old.items }
    ensures length { length atoms.new.items ≡ length atoms.old.items }
{
    atoms.swap(kept, next);
}

// Keeps the first `kept` atoms and those from `first` on, and no others.
fn keep_rest(atoms: &mut Vec<CfgAtom>, kept: usize, first: usize)
    requires behind { kept ≤ first }
    requires within { first ≤ length atoms.old.items }
    ensures { atoms.new.items ≡ take kept atoms.old.items ++ drop first atoms.old.items }
{
    let mut end = kept;
    let mut next = first;
    while next < atoms.len() {
        keep(atoms, end, next);
        end += 1;
        next += 1;
    }
    atoms.truncate(end);
}
