ghost use Rattle.std.specs.Prelude.{◌≡◌, [], ◌∷◌, IfOk};
ghost use Rattle.ra_cfg.specs.Reading.{reads_true};
ghost use Rattle.cfg_dnf.specs.declared.literal.Leaf.TheVariants as leaf;
ghost use Rattle.cfg_dnf.specs.Conjunctions.{literal};
ghost use Rattle.cfg_dnf.specs.Form.{Product, form, part_forms};
ghost use Rattle.cfg_dnf.specs.Hints.{answer_if, is_true as holds_true};
ghost use Rattle.cfg_dnf.specs.Leaves.{has, some_has, all_have, passes, some_passes, all_pass, counted, all_counted};
ghost use Rattle.cfg_dnf.specs.Gathering.{Gathers, TakesIn};

use ra_cfg::{CfgAtom, CfgExpr, CfgOptions};
use std::alloc::{AllocError, Global};

/// Atoms of false literals: those that are on, and those that are off.
#[derive(Drop)]
pub(crate) struct FalseAtoms {
    pub(crate) enabled: Vec<CfgAtom>,
    pub(crate) disabled: Vec<CfgAtom>,
}

impl FalseAtoms {
    /// Makes it without an atom.
    pub(crate) fn new(alloc: Global) -> FalseAtoms
        ensures enabled { result.enabled.items ≡ [] }
        ensures disabled { result.disabled.items ≡ [] }
    {
        FalseAtoms {
            enabled: Vec::new(alloc),
            disabled: Vec::new(alloc),
        }
    }
}

/// Returns whether the predicate has a conjunction.
#[cycle(having)]
#[tactic(auto, using(crate::proofs::Equations::form_rules))]
pub(crate) fn has_any(expr: &CfgExpr, negated: bool) -> bool
    ensures { result ≡ has (form expr.now negated) }
{
    match expr {
        CfgExpr::Invalid | CfgExpr::Atom(_) | CfgExpr::Version(_) => true,
        CfgExpr::All(parts) if negated => one_has(parts.as_slice(), negated),
        CfgExpr::All(parts) => each_has(parts.as_slice(), negated),
        CfgExpr::Any(parts) if negated => each_has(parts.as_slice(), negated),
        CfgExpr::Any(parts) => one_has(parts.as_slice(), negated),
        CfgExpr::Not(part) => has_any(part.get(), !negated),
    }
}

// Whether one of the parts has a conjunction.
#[cycle(having)]
fn one_has(parts: &[CfgExpr], negated: bool) -> bool
    ensures { result ≡ some_has (part_forms negated parts.now) }
{
    for part in parts {
        if has_any(part, negated) {
            return true;
        }
    }
    false
}

// Whether each of the parts has a conjunction.
#[cycle(having)]
pub(crate) fn each_has(parts: &[CfgExpr], negated: bool) -> bool
    ensures { result ≡ all_have (part_forms negated parts.now) }
{
    for part in parts {
        if !has_any(part, negated) {
            return false;
        }
    }
    true
}

// What a leaf's answer makes of a literal: whether it is true.
pub(crate) fn is_so(answer: Option<bool>, negated: bool) -> bool
    ensures { result ≡ reads_true (answer_if answer negated) }
{
    match answer {
        Some(answer) => answer != negated,
        None => false,
    }
}

/// Returns whether the literals of one conjunction are all true.
#[cycle(passing)]
#[tactic(auto, using(crate::proofs::Equations::form_rules))]
pub(crate) fn is_true(expr: &CfgExpr, negated: bool, opts: &CfgOptions) -> bool
    ensures { result ≡ passes (holds_true opts.now) (form expr.now negated) }
{
    match expr {
        CfgExpr::Invalid => false,
        CfgExpr::Atom(atom) => is_so(Some(opts.check_atom(atom)), negated),
        CfgExpr::Version(text) => is_so(opts.version(text.as_str()), negated),
        CfgExpr::All(parts) if negated => one_true(parts.as_slice(), negated, opts),
        CfgExpr::All(parts) => each_true(parts.as_slice(), negated, opts),
        CfgExpr::Any(parts) if negated => each_true(parts.as_slice(), negated, opts),
        CfgExpr::Any(parts) => one_true(parts.as_slice(), negated, opts),
        CfgExpr::Not(part) => is_true(part.get(), !negated, opts),
    }
}

// Whether that is so of one of the parts.
#[cycle(passing)]
fn one_true(parts: &[CfgExpr], negated: bool, opts: &CfgOptions) -> bool
    ensures { result ≡ some_passes (holds_true opts.now) (part_forms negated parts.now) }
{
    for part in parts {
        if is_true(part, negated, opts) {
            return true;
        }
    }
    false
}

// Whether that is so of each of the parts.
#[cycle(passing)]
fn each_true(parts: &[CfgExpr], negated: bool, opts: &CfgOptions) -> bool
    ensures { result ≡ all_pass (holds_true opts.now) (part_forms negated parts.now) }
{
    for part in parts {
        if !is_true(part, negated, opts) {
            return false;
        }
    }
    true
}

/// Takes in the atoms of the false literals that count, and returns whether none that counts is open.
#[cycle(gathering)]
#[tactic(auto, using(crate::proofs::Equations::form_rules))]
pub(crate) fn gather(
    expr: &CfgExpr,
    negated: bool,
    opts: &CfgOptions,
    found: &mut FalseAtoms,
) -> Result<bool, AllocError>
    ensures { Gathers opts.now (counted (form expr.now negated)) result found.old found.new }
{
    match expr {
        CfgExpr::Invalid => Ok(false),
        CfgExpr::Atom(atom) => {
            take_atom(atom, negated, opts, found)?;
            Ok(true)
        }
        CfgExpr::Version(text) => Ok(opts.version(text.as_str()).is_some()),
        CfgExpr::All(parts) if negated => gather_each(parts.as_slice(), negated, opts, found),
        CfgExpr::All(parts) => gather_product(parts.as_slice(), negated, opts, found),
        CfgExpr::Any(parts) if negated => gather_product(parts.as_slice(), negated, opts, found),
        CfgExpr::Any(parts) => gather_each(parts.as_slice(), negated, opts, found),
        CfgExpr::Not(part) => gather(part.get(), !negated, opts, found),
    }
}

// Takes in the atom of a literal that is false.
pub(crate) fn take_atom(
    atom: &CfgAtom,
    negated: bool,
    opts: &CfgOptions,
    found: &mut FalseAtoms,
) -> Result<(), AllocError>
    ensures { IfOk result (λ u. TakesIn opts.now (literal (leaf.Atom atom.now) negated ∷ []) found.old found.new) }
{
    let is_set = opts.check_atom(atom);
    if is_set && negated {
        found.enabled.push(atom.clone()?)?;
    }
    if !is_set && !negated {
        found.disabled.push(atom.clone()?)?;
    }
    Ok(())
}

// Takes in what counts of the parts of a product: nothing, where one of them has no conjunction.
#[cycle(gathering)]
fn gather_product(
    parts: &[CfgExpr],
    negated: bool,
    opts: &CfgOptions,
    found: &mut FalseAtoms,
) -> Result<bool, AllocError>
    ensures { Gathers opts.now (counted (Product (part_forms negated parts.now))) result found.old found.new }
{
    if !each_has(parts, negated) {
        return Ok(true);
    }
    gather_each(parts, negated, opts, found)
}

// Takes in what counts of each of the parts.
#[cycle(gathering)]
fn gather_each(
    parts: &[CfgExpr],
    negated: bool,
    opts: &CfgOptions,
    found: &mut FalseAtoms,
) -> Result<bool, AllocError>
    ensures { Gathers opts.now (all_counted (part_forms negated parts.now)) result found.old found.new }
{
    for part in parts {
        if !gather(part, negated, opts, found)? {
            return Ok(false);
        }
    }
    Ok(true)
}
