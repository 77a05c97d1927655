ghost use Rattle.std.specs.Prelude.{◌≡◌, [], ◌∷◌, ◌++◌, IfOk};
ghost use Rattle.cfg_dnf.specs.Conjunctions.{literal as literal_of};
ghost use Rattle.cfg_dnf.specs.Form.{Sum, form, part_forms, chosen as chosen_in, product_chosen};

use crate::choices::width;
use crate::literal::{Leaf, Literal};
use ra_cfg::CfgExpr;
use std::alloc::AllocError;

// A leaf, negated or not.
fn literal(leaf: Leaf, negated: bool) -> Literal
    ensures { result ≡ literal_of leaf negated }
{
    if negated {
        Literal::Negated(leaf)
    } else {
        Literal::Plain(leaf)
    }
}

/// Puts the literals of the conjunction of these choices behind those that there are.
#[cycle(choosing)]
#[tactic(auto, using(crate::proofs::Equations::form_rules))]
pub(crate) fn take_literals(
    expr: &CfgExpr,
    negated: bool,
    choices: &[usize],
    literals: &mut Vec<Literal>,
) -> Result<(), AllocError>
    ensures { IfOk result (λ u. literals.new.items ≡ literals.old.items ++ chosen_in (form expr.now negated) choices.now) }
{
    match expr {
        CfgExpr::Invalid => take_leaf(Leaf::Invalid, negated, literals),
        CfgExpr::Atom(atom) => take_leaf(Leaf::Atom(atom.clone()?), negated, literals),
        CfgExpr::Version(text) => take_leaf(Leaf::Version(text.clone()?), negated, literals),
        CfgExpr::All(parts) if negated => take_sum(parts.as_slice(), negated, choices, literals),
        CfgExpr::All(parts) => take_product(parts.as_slice(), negated, choices, literals),
        CfgExpr::Any(parts) if negated => take_product(
            parts.as_slice(),
            negated,
            choices,
            literals,
        ),
        CfgExpr::Any(parts) => take_sum(parts.as_slice(), negated, choices, literals),
        CfgExpr::Not(part) => take_literals(part.get(), !negated, choices, literals),
    }
}

// The literal of a leaf.
fn take_leaf(leaf: Leaf, negated: bool, literals: &mut Vec<Literal>) -> Result<(), AllocError>
    ensures { IfOk result (λ u. literals.new.items ≡ literals.old.items ++ literal_of leaf negated ∷ []) }
{
    literals.push(literal(leaf, negated))?;
    Ok(())
}

// The same for a sum: the literals of the chosen part.
#[cycle(choosing)]
fn take_sum(
    parts: &[CfgExpr],
    negated: bool,
    choices: &[usize],
    literals: &mut Vec<Literal>,
) -> Result<(), AllocError>
    ensures { IfOk result (λ u. literals.new.items ≡ literals.old.items ++ chosen_in (Sum (part_forms negated parts.now)) choices.now) }
{
    let Some((chosen, rest)) = choices.split_first() else {
        return Ok(());
    };
    match parts.get(*chosen) {
        Some(part) => take_literals(part, negated, rest, literals),
        None => Ok(()),
    }
}

// The same for a product: the literals of each part, by the choices that are made in it.
#[cycle(choosing)]
fn take_product(
    parts: &[CfgExpr],
    negated: bool,
    choices: &[usize],
    literals: &mut Vec<Literal>,
) -> Result<(), AllocError>
    ensures { IfOk result (λ u. literals.new.items ≡ literals.old.items ++ product_chosen (part_forms negated parts.now) choices.now) }
{
    let mut end = 0;
    for part in parts {
        let rest = &choices[end..];
        let wide = width(part, negated, rest);
        take_literals(part, negated, &rest[..wide], literals)?;
        end += wide;
    }
    Ok(())
}
