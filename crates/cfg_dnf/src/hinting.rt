ghost use Rattle.std.specs.Prelude.{◌≡◌, ◌↔◌, false, [], ◌∷◌, IfOk, IsTrue};
ghost use Rattle.std.specs.List.{list_any, list_all, filter_map, cons_option};
ghost use Rattle.std.specs.FinSet as set;
ghost use Rattle.ra_cfg.specs.Options.{atom_cmp, IsReserved, name_of};
ghost use Rattle.cfg_dnf.specs.Conjunctions.{literal as literal_of};
ghost use Rattle.cfg_dnf.specs.Form.{form, chosen};
ghost use Rattle.cfg_dnf.specs.Gathering.{TakesIn, put_in};
ghost use Rattle.cfg_dnf.specs.Hints.{leaf_answer as answer_of_leaf, is_true as holds_true, is_atom as is_of_atom, is_settled as settled, leaf_atom, plain_atom, negated_atom, contradicts as contradict, is_fixed as fixed, hint_if};

use crate::conjunction::take_literals;
use crate::counted::{FalseAtoms, is_so, take_atom};
use crate::literal::{Leaf, Literal};
use ra_cfg::{CfgAtom, CfgDiff, CfgExpr, CfgOptions};
use std::alloc::{AllocError, Global};
use std::collections::BTreeSet;

/// Returns the hint of the conjunction of these choices, if it gives one.
pub(crate) fn chosen_hint(
    alloc: Global,
    expr: &CfgExpr,
    choices: &[usize],
    opts: &CfgOptions,
) -> Result<Option<CfgDiff>, AllocError>
    ensures { IfOk result (λ hint. hint ≡ hint_if opts.now (chosen (form expr.now false) choices.now)) }
{
    let mut literals: Vec<Literal> = Vec::new(alloc);
    take_literals(expr, false, choices, &mut literals)?;
    hint_of(alloc, literals.as_slice(), opts)
}

// The hint of a conjunction, if it gives one.
fn hint_of(
    alloc: Global,
    literals: &[Literal],
    opts: &CfgOptions,
) -> Result<Option<CfgDiff>, AllocError>
    ensures { IfOk result (λ hint. hint ≡ hint_if opts.now literals.now) }
{
    if !all_settled(literals, opts) || all_true(literals, opts) {
        return Ok(None);
    }
    if contradict_one_another(alloc, literals)? {
        return Ok(None);
    }
    let mut found = FalseAtoms::new(alloc);
    take_false(literals, opts, &mut found)?;
    if any_fixed(found.enabled.as_slice()) || any_fixed(found.disabled.as_slice()) {
        return Ok(None);
    }
    let FalseAtoms { enabled, disabled } = found;
    Ok(Some(CfgDiff::new(disabled, enabled)))
}

// What the leaf is under the options: nothing, where it is open.
fn leaf_answer(leaf: &Leaf, opts: &CfgOptions) -> Option<bool>
    ensures { result ≡ answer_of_leaf opts.now leaf.now }
{
    match leaf {
        Leaf::Atom(atom) => Some(opts.check_atom(atom)),
        Leaf::Invalid => None,
        Leaf::Version(text) => opts.version(text.as_str()),
    }
}

// Whether the literal is true.
fn is_true(literal: &Literal, opts: &CfgOptions) -> bool
    ensures { result ≡ holds_true opts.now literal.now }
{
    match literal {
        Literal::Plain(leaf) => is_so(leaf_answer(leaf, opts), false),
        Literal::Negated(leaf) => is_so(leaf_answer(leaf, opts), true),
    }
}

// Whether the literal is of an atom.
fn is_atom(literal: &Literal) -> bool
    ensures { result ≡ is_of_atom literal.now }
{
    match literal {
        Literal::Plain(Leaf::Atom(_)) | Literal::Negated(Leaf::Atom(_)) => true,
        _ => false,
    }
}

// Whether each literal is of an atom, or true.
fn all_settled(literals: &[Literal], opts: &CfgOptions) -> bool
    ensures { result ≡ list_all (settled opts.now) literals.now }
{
    for literal in literals {
        if !is_atom(literal) && !is_true(literal, opts) {
            return false;
        }
    }
    true
}

// Whether each literal is true.
fn all_true(literals: &[Literal], opts: &CfgOptions) -> bool
    ensures { result ≡ list_all (holds_true opts.now) literals.now }
{
    for literal in literals {
        if !is_true(literal, opts) {
            return false;
        }
    }
    true
}

// Takes in the atoms of the literals that are false.
fn take_false(
    literals: &[Literal],
    opts: &CfgOptions,
    found: &mut FalseAtoms,
) -> Result<(), AllocError>
    ensures { IfOk result (λ u. TakesIn opts.now literals.now found.old found.new) }
{
    for literal in literals {
        take_literal(literal, opts, found)?;
    }
    Ok(())
}

// Takes in the atom of a literal that is false.
fn take_literal(
    literal: &Literal,
    opts: &CfgOptions,
    found: &mut FalseAtoms,
) -> Result<(), AllocError>
    ensures { IfOk result (λ u. TakesIn opts.now (literal.now ∷ []) found.old found.new) }
{
    match literal {
        Literal::Plain(leaf) => take_leaf(leaf, false, opts, found),
        Literal::Negated(leaf) => take_leaf(leaf, true, opts, found),
    }
}

// The same, of a leaf that is negated or not.
fn take_leaf(
    leaf: &Leaf,
    negated: bool,
    opts: &CfgOptions,
    found: &mut FalseAtoms,
) -> Result<(), AllocError>
    ensures { IfOk result (λ u. TakesIn opts.now (literal_of leaf.now negated ∷ []) found.old found.new) }
{
    match leaf {
        Leaf::Atom(atom) => take_atom(atom, negated, opts, found),
        Leaf::Invalid => Ok(()),
        Leaf::Version(_) => Ok(()),
    }
}

// Whether the name or the key of one of the atoms is reserved.
fn any_fixed(atoms: &[CfgAtom]) -> bool
    ensures { result ≡ list_any fixed atoms.now }
{
    for atom in atoms {
        if is_fixed(atom) {
            return true;
        }
    }
    false
}

// Whether the name or the key of the atom is reserved.
fn is_fixed(atom: &CfgAtom) -> bool
    ensures { result ≡ fixed atom.now }
{
    is_reserved(atom)
}

// The same, by what is reserved.
fn is_reserved(atom: &CfgAtom) -> bool
    ensures { IsTrue result ↔ IsReserved (name_of atom.now) }
{
    let name = match atom {
        CfgAtom::Flag(name) => name,
        CfgAtom::KeyValue { key, value: _ } => key,
    };
    name.is_true() || name.is_false()
}

// Whether an atom stands among the literals both plain and negated.
fn contradict_one_another(alloc: Global, literals: &[Literal]) -> Result<bool, AllocError>
    ensures { IfOk result (λ told. told ≡ contradict literals.now) }
{
    let plain = plain_atoms(alloc, literals)?;
    Ok(any_negated(literals, &plain))
}

// Whether one of the literals is negated, and of an atom of the set.
fn any_negated(literals: &[Literal], plain: &BTreeSet<CfgAtom>) -> bool
    ensures { result ≡ list_any (set.contains (set.from_list {R = atom_cmp} plain.now.keys)) (filter_map negated_atom literals.now) }
{
    for literal in literals {
        if is_negated_in(literal, plain) {
            return true;
        }
    }
    false
}

// Whether the literal is negated, and of an atom of the set.
fn is_negated_in(literal: &Literal, plain: &BTreeSet<CfgAtom>) -> bool
    ensures { result ≡ list_any (set.contains (set.from_list {R = atom_cmp} plain.now.keys)) (filter_map negated_atom (literal.now ∷ [])) }
{
    match literal {
        Literal::Plain(_) => false,
        Literal::Negated(leaf) => is_in(leaf, plain),
    }
}

// Whether the leaf is an atom of the set.
fn is_in(leaf: &Leaf, plain: &BTreeSet<CfgAtom>) -> bool
    ensures { result ≡ list_any (set.contains (set.from_list {R = atom_cmp} plain.now.keys)) (cons_option (leaf_atom leaf.now) []) }
{
    match leaf {
        Leaf::Atom(atom) => plain.contains(atom),
        Leaf::Invalid => false,
        Leaf::Version(_) => false,
    }
}

// The atoms of the plain literals.
fn plain_atoms(alloc: Global, literals: &[Literal]) -> Result<BTreeSet<CfgAtom>, AllocError>
    ensures { IfOk result (λ atoms. set.from_list {R = atom_cmp} atoms.keys ≡ put_in set.empty (filter_map plain_atom literals.now)) }
{
    let mut atoms = BTreeSet::new(alloc);
    for literal in literals {
        take_plain(literal, &mut atoms)?;
    }
    Ok(atoms)
}

// Puts in the atom of a plain literal.
fn take_plain(literal: &Literal, atoms: &mut BTreeSet<CfgAtom>) -> Result<(), AllocError>
    ensures { IfOk result (λ u. set.from_list {R = atom_cmp} atoms.new.keys ≡ put_in (set.from_list atoms.old.keys) (filter_map plain_atom (literal.now ∷ []))) }
{
    match literal {
        Literal::Plain(leaf) => put_leaf(leaf, atoms),
        Literal::Negated(_) => Ok(()),
    }
}

// Puts in the atom of a leaf.
fn put_leaf(leaf: &Leaf, atoms: &mut BTreeSet<CfgAtom>) -> Result<(), AllocError>
    ensures { IfOk result (λ u. set.from_list {R = atom_cmp} atoms.new.keys ≡ put_in (set.from_list atoms.old.keys) (cons_option (leaf_atom leaf.now) [])) }
{
    match leaf {
        Leaf::Atom(atom) => {
            atoms.insert(atom.clone()?)?;
            Ok(())
        }
        Leaf::Invalid => Ok(()),
        Leaf::Version(_) => Ok(()),
    }
}
