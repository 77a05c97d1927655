ghost use Rattle.std.specs.Prelude.{◌≡◌, false, map, codes, IfOk, string_bytes};
ghost use Rattle.ra_cfg.specs.Text.{call_text, joined};
ghost use Rattle.cfg_dnf.specs.DnfText.{leaf_text as text_of_leaf, literal_text as text_of_literal, conjunction_text as text_of_conjunction};
ghost use Rattle.cfg_dnf.specs.Form.{form, chosen};

use crate::conjunction::take_literals;
use crate::literal::{Leaf, Literal};
use ra_cfg::CfgExpr;
use std::alloc::{AllocError, Global};

// The text of a leaf.
#[tactic(auto, using(crate::proofs::TextSteps::version_text))]
fn leaf_text(alloc: Global, leaf: &Leaf) -> Result<String, AllocError>
    ensures { IfOk result (λ text. string_bytes text ≡ text_of_leaf leaf.now) }
{
    match leaf {
        Leaf::Atom(atom) => format!(in alloc; "{atom}"),
        Leaf::Invalid => format!(in alloc; "<invalid>"),
        Leaf::Version(text) => {
            let version = CfgExpr::Version(text.clone()?);
            format!(in alloc; "{version}")
        }
    }
}

// The text of a literal.
fn literal_text(alloc: Global, literal: &Literal) -> Result<String, AllocError>
    ensures { IfOk result (λ text. string_bytes text ≡ text_of_literal literal.now) }
{
    match literal {
        Literal::Plain(leaf) => leaf_text(alloc, leaf),
        Literal::Negated(leaf) => {
            let inside = leaf_text(alloc, leaf)?;
            format!(in alloc; "not({inside})")
        }
    }
}

// The texts of literals, with `, ` between.
fn joined_text(alloc: Global, literals: &[Literal]) -> Result<String, AllocError>
    ensures { IfOk result (λ text. string_bytes text ≡ joined (map text_of_literal literals.now)) }
{
    let Some((first, rest)) = literals.split_first() else {
        return Ok(String::new(alloc));
    };
    let mut text = literal_text(alloc, first)?;
    for literal in rest {
        let more = literal_text(alloc, literal)?;
        text.push_str(", ")?;
        text.push_str(more.as_str())?;
    }
    Ok(text)
}

// The text of a conjunction.
fn conjunction_text(alloc: Global, literals: &[Literal]) -> Result<String, AllocError>
    ensures { IfOk result (λ text. string_bytes text ≡ text_of_conjunction literals.now) }
{
    if literals.len() == 1 {
        return literal_text(alloc, &literals[0]);
    }
    bracketed_text(alloc, literals)
}

// The texts of literals in `all(..)`.
fn bracketed_text(alloc: Global, literals: &[Literal]) -> Result<String, AllocError>
    ensures { IfOk result (λ text. string_bytes text ≡ call_text (codes "all(") (joined (map text_of_literal literals.now))) }
{
    let inside = joined_text(alloc, literals)?;
    format!(in alloc; "all({inside})")
}

/// Returns the text of the conjunction of these choices.
pub(crate) fn chosen_text(
    alloc: Global,
    expr: &CfgExpr,
    choices: &[usize],
) -> Result<String, AllocError>
    ensures { IfOk result (λ text. string_bytes text ≡ text_of_conjunction (chosen (form expr.now false) choices.now)) }
{
    let mut literals = Vec::new(alloc);
    take_literals(expr, false, choices, &mut literals)?;
    conjunction_text(alloc, literals.as_slice())
}
