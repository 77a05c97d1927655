//! Predicates are read from syntax trees.

ghost use Rattle.std.specs.Prelude.{◌≡◌, Err, None, map, option_map, IfOk, OnOk};
ghost use Rattle.syn_trees.specs.ReadString.{value_of};
ghost use Rattle.ra_cfg.specs.Syntax.{worded, atom_of, not_of, composite_of, version_by, meaning};

use crate::cfg_expr::{CfgAtom, CfgExpr};
use sqlite_items::{Boxed, Items};
use std::alloc::{AllocError, Global};
use sym_core::Symbol;
use syn_trees::{CfgAtomKey, CfgPredicate, EscapeError, StringLit};

// What is answered where a literal has no value, or no memory is left.
fn refused(error: EscapeError) -> Result<Option<Symbol>, AllocError>
    ensures { IfOk result (λ value. (value ≡ None) × (error ≡ EscapeError.Escape)) }
{
    match error {
        EscapeError::Escape => Ok(None),
        EscapeError::Memory(refusal) => Err(refusal),
    }
}

// The value of a literal, where it has one.
#[tactic(auto, using(crate::proofs::Meanings::values))]
fn value_of(alloc: Global, literal: &StringLit) -> Result<Option<Symbol>, AllocError>
    ensures { IfOk result (λ value. value ≡ value_of literal.now) }
{
    match literal.value(alloc) {
        Ok(value) => Ok(Some(value)),
        Err(error) => refused(error),
    }
}

// A word with a string or without one.
fn worded(alloc: Global, word: &Symbol, string: Option<&StringLit>) -> Result<CfgExpr, AllocError>
    ensures { IfOk result (λ expr. expr ≡ worded word.now (option_map (λ literal. literal.now) string.entry)) }
{
    let Some(literal) = string else {
        return Ok(CfgExpr::Atom(CfgAtom::Flag(word.clone()?)));
    };
    match value_of(alloc, literal)? {
        Some(value) => Ok(CfgExpr::Atom(CfgAtom::KeyValue {
            key: word.clone()?,
            value,
        })),
        None => Ok(CfgExpr::Invalid),
    }
}

// The flag of this name.
fn flag(alloc: Global, name: &str) -> Result<CfgExpr, AllocError>
    ensures { IfOk result (λ expr. expr ≡ CfgExpr.Atom (CfgAtom.Flag name.now)) }
{
    Ok(CfgExpr::Atom(CfgAtom::Flag(Symbol::new(alloc, name)?)))
}

// An atom.
fn atom(
    alloc: Global,
    key: Option<&CfgAtomKey>,
    string: Option<&StringLit>,
) -> Result<CfgExpr, AllocError>
    ensures { IfOk result (λ expr. expr ≡ atom_of (option_map (λ word. word.now) key.entry) (option_map (λ literal. literal.now) string.entry)) }
{
    let Some(key) = key else {
        return Ok(CfgExpr::Invalid);
    };
    match key {
        CfgAtomKey::True => flag(alloc, "true"),
        CfgAtomKey::False => flag(alloc, "false"),
        CfgAtomKey::Ident(word) => worded(alloc, word, string),
    }
}

// A version with a string or without one.
fn version(alloc: Global, string: Option<&StringLit>) -> Result<CfgExpr, AllocError>
    ensures { IfOk result (λ expr. expr ≡ version_by (option_map (λ literal. literal.now) string.entry)) }
{
    let Some(literal) = string else {
        return Ok(CfgExpr::Invalid);
    };
    match value_of(alloc, literal)? {
        Some(text) => Ok(CfgExpr::Version(text)),
        None => Ok(CfgExpr::Invalid),
    }
}

impl CfgExpr {
    /// Returns the predicate that this syntax means.
    ///
    /// ```
    /// let ast = CfgPredicate::Version(StringLit::new(Symbol::new(alloc, "\"1.70\"")?));
    /// let expr = CfgExpr::parse_from_ast(alloc, &ast)?;
    /// assert_eq!(format!("{expr}"), "version(\"1.70\")");
    /// ```
    ///
    /// # Errors
    ///
    /// Returns an error if there is no memory.
    #[cycle(meaning)]
    pub fn parse_from_ast(alloc: Global, ast: &CfgPredicate) -> Result<CfgExpr, AllocError>
        ensures { IfOk result (λ expr. expr ≡ meaning ast.now) }
    {
        match ast {
            CfgPredicate::Atom { key, string } => atom(alloc, key.as_ref(), string.as_ref()),
            CfgPredicate::Composite { keyword, parts } => {
                composite(alloc, keyword.as_ref(), parts.as_slice())
            }
            CfgPredicate::Version(string) => version(alloc, string.as_ref()),
        }
    }
}

// A keyword with parts.
#[cycle(meaning)]
fn composite(
    alloc: Global,
    keyword: Option<&Symbol>,
    parts: &[CfgPredicate],
) -> Result<CfgExpr, AllocError>
    ensures { IfOk result (λ expr. expr ≡ composite_of (option_map (λ word. word.now) keyword.entry) (map meaning parts.now)) }
{
    let Some(word) = keyword else {
        return Ok(CfgExpr::Invalid);
    };
    match word.as_str() {
        "all" => Ok(CfgExpr::All(read_parts(alloc, parts)?)),
        "any" => Ok(CfgExpr::Any(read_parts(alloc, parts)?)),
        "not" => negated(alloc, parts),
        _ => Ok(CfgExpr::Invalid),
    }
}

// `not` with parts.
#[cycle(meaning)]
fn negated(alloc: Global, parts: &[CfgPredicate]) -> Result<CfgExpr, AllocError>
    ensures { IfOk result (λ expr. expr ≡ not_of (map meaning parts.now)) }
{
    if parts.len() != 1 {
        return Ok(CfgExpr::Invalid);
    }
    let part = CfgExpr::parse_from_ast(alloc, &parts[0])?;
    Ok(CfgExpr::Not(Boxed::new(alloc, part)?))
}

// What the parts mean, in order.
#[cycle(meaning)]
fn read_parts(alloc: Global, parts: &[CfgPredicate]) -> Result<Items<CfgExpr>, AllocError>
    ensures { IfOk result (λ read. read ≡ map meaning parts.now) }
{
    let mut read = Items::new(alloc);
    for part in parts {
        read.push(CfgExpr::parse_from_ast(alloc, part)?)?;
    }
    Ok(read)
}
