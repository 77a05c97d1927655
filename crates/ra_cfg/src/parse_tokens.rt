//! Predicates are read from token trees.

ghost use Rattle.std.specs.Prelude.{◌≡◌, ◌+◌, ◌≤◌, map, drop, option_map, IfOk, IfSome, OnOk, OnErr};
ghost use Rattle.syn_trees.specs.declared.token_tree.TokenTree.{TokenTree as Tree};
ghost use Rattle.ra_cfg.specs.TokenRules.{item, next, name, literal, mark, group, is_alone, is_equals, equals_next, comma, commas, grouped, version_of, only_literal, inside_of, valued, behind_name, all_predicates, next_predicate, behind_predicate, Reads};
ghost use Rattle.ra_cfg.specs.Weights.{weight, weights};

use crate::cfg_expr::{CfgAtom, CfgExpr};
use sqlite_items::{Boxed, Items};
use std::alloc::{AllocError, Global};
use sym_core::Symbol;
use syn_trees::{Spacing, TokenTree, TopSubtree, TtIter};

// The name, where the tree is one.
#[tactic(auto, using(crate::proofs::Items::items))]
fn name_of(tree: &TokenTree) -> Option<&Symbol>
    ensures value { option_map (λ word. word.now) result ≡ name (item tree.now) }
    ensures weighs { IfSome result (λ word. weight tree.now ≡ 1) }
{
    match tree {
        TokenTree::Ident(word) => Some(word),
        TokenTree::Literal(_) => None,
        TokenTree::Punct { ch: _, spacing: _ } => None,
        TokenTree::Subtree(_) => None,
    }
}

// The kept text, where the tree is a literal.
#[tactic(auto, using(crate::proofs::Items::items))]
fn literal_of(tree: &TokenTree) -> Option<&Symbol>
    ensures { option_map (λ text. text.now) result ≡ literal (item tree.now) }
{
    match tree {
        TokenTree::Ident(_) => None,
        TokenTree::Literal(kept) => Some(&kept.text),
        TokenTree::Punct { ch: _, spacing: _ } => None,
        TokenTree::Subtree(_) => None,
    }
}

// The character and the spacing, where the tree is a punctuation mark.
#[tactic(auto, using(crate::proofs::Items::items))]
fn mark_of(tree: &TokenTree) -> Option<(char, Spacing)>
    ensures { result ≡ mark (item tree.now) }
{
    match tree {
        TokenTree::Ident(_) => None,
        TokenTree::Literal(_) => None,
        TokenTree::Punct { ch, spacing } => Some((*ch, *spacing)),
        TokenTree::Subtree(_) => None,
    }
}

// The trees inside, where the tree is a group.
#[tactic(auto, using(crate::proofs::Items::items))]
fn group_of(tree: &TokenTree) -> Option<&[TokenTree]>
    ensures value { option_map (λ trees. inside_of (map item trees.now)) result ≡ group (item tree.now) }
    ensures lighter { IfSome result (λ trees. weights trees.now + 1 ≡ weight tree.now) }
{
    match tree {
        TokenTree::Ident(_) => None,
        TokenTree::Literal(_) => None,
        TokenTree::Punct { ch: _, spacing: _ } => None,
        TokenTree::Subtree(trees) => Some(trees.as_slice()),
    }
}

// The next mark, where a mark stands next.
fn next_mark(trees: &TtIter<'_>) -> Option<(char, Spacing)>
    ensures { result ≡ next mark (map item trees.now) }
{
    mark_of(trees.peek()?)
}

// The trees behind the next one.
fn behind<'a>(trees: &TtIter<'a>) -> Result<TtIter<'a>, AllocError>
    ensures { IfOk result (λ left. left ≡ drop 1 trees.now) }
{
    let mut left = trees.clone()?;
    left.next();
    Ok(left)
}

// Whether `=` stands next, alone or not followed by a mark.
#[tactic(auto, using(crate::proofs::Fronts::drops))]
fn equals_next(trees: &TtIter<'_>) -> Result<bool, AllocError>
    ensures { IfOk result (λ found. found ≡ equals_next (map item trees.now)) }
{
    let follower = next_mark(&behind(trees)?);
    match next_mark(trees) {
        Some((c, spacing)) => Ok(c == '=' && (spacing == Spacing::Alone || follower.is_none())),
        None => Ok(false),
    }
}

// Goes past a comma, where one stands next.
fn eat_comma(trees: &mut TtIter<'_>)
    ensures { trees.new ≡ drop (commas (map item trees.old)) trees.old }
{
    if let Some((c, _)) = next_mark(trees) {
        if c == ',' {
            trees.next();
        }
    }
}

// A key and `=`, which stands next: with the literal behind it, or `Invalid`, which takes nothing more.
#[tactic(auto, using(crate::proofs::Fronts::drops))]
fn valued(key: &Symbol, trees: &mut TtIter<'_>) -> Result<CfgExpr, AllocError>
    ensures { IfOk result (λ expr. Reads (valued key.now (next literal (drop 1 (map item trees.old))) (drop 2 (map item trees.old))) trees.old expr trees.new) }
{
    let mut ahead = behind(trees)?;
    let Some(tree) = ahead.next() else {
        return Ok(CfgExpr::Invalid);
    };
    let Some(value) = literal_of(tree) else {
        return Ok(CfgExpr::Invalid);
    };
    *trees = ahead;
    eat_comma(trees);
    Ok(CfgExpr::Atom(CfgAtom::KeyValue {
        key: key.clone()?,
        value: value.clone()?,
    }))
}

// `version` and a group: with the literal inside, where it stands there alone.
#[tactic(auto, using(crate::proofs::Fronts::drops))]
fn version(inside: &[TokenTree]) -> Result<CfgExpr, AllocError>
    ensures { IfOk result (λ expr. expr ≡ version_of (only_literal (map item inside.now))) }
{
    let mut trees = TtIter::new(inside);
    let Some(tree) = trees.next() else {
        return Ok(CfgExpr::Invalid);
    };
    if trees.peek().is_some() {
        return Ok(CfgExpr::Invalid);
    }
    match literal_of(tree) {
        Some(text) => Ok(CfgExpr::Version(text.clone()?)),
        None => Ok(CfgExpr::Invalid),
    }
}

// The group that stands next, where one does.
fn next_group<'a>(trees: &TtIter<'a>) -> Option<&'a [TokenTree]>
    ensures value { option_map (λ inside. inside_of (map item inside.now)) result ≡ next group (map item trees.now) }
    ensures lighter { IfSome result (λ inside. weights inside.now + 1 ≤ weights trees.now) }
{
    group_of(trees.peek()?)
}

// A name, and what stands behind it.
#[cycle(reading)]
#[tactic(auto, using(crate::proofs::Fronts::drops))]
fn named(alloc: Global, word: &Symbol, trees: &mut TtIter<'_>) -> Result<CfgExpr, AllocError>
    ensures { IfOk result (λ expr. Reads (behind_name word.now (map item trees.old)) trees.old expr trees.new) }
{
    if equals_next(trees)? {
        return valued(word, trees);
    }
    let expr = match next_group(trees) {
        Some(inside) => {
            trees.next();
            grouped(alloc, word, inside)?
        }
        None => CfgExpr::Atom(CfgAtom::Flag(word.clone()?)),
    };
    eat_comma(trees);
    Ok(expr)
}

// A name and a group.
#[cycle(reading)]
#[tactic(auto, using(crate::proofs::Fronts::firsts))]
fn grouped(alloc: Global, word: &Symbol, inside: &[TokenTree]) -> Result<CfgExpr, AllocError>
    ensures { IfOk result (λ expr. expr ≡ grouped word.now (inside_of (map item inside.now))) }
{
    match word.as_str() {
        "all" => Ok(CfgExpr::All(read_all(alloc, inside)?)),
        "any" => Ok(CfgExpr::Any(read_all(alloc, inside)?)),
        "not" => {
            let part = CfgExpr::parse_from_iter(alloc, &mut TtIter::new(inside))?;
            Ok(CfgExpr::Not(Boxed::new(alloc, part)?))
        }
        "version" => version(inside),
        _ => Ok(CfgExpr::Invalid),
    }
}

// All predicates of these trees, one after the other.
#[cycle(reading)]
#[tactic(auto, using(crate::proofs::Fronts::turns))]
fn read_all(alloc: Global, inside: &[TokenTree]) -> Result<Items<CfgExpr>, AllocError>
    ensures { IfOk result (λ parts. parts ≡ all_predicates inside.now) }
{
    let mut trees = TtIter::new(inside);
    let mut parts = Items::new(alloc);
    while let Some(_first) = trees.peek() {
        parts.push(CfgExpr::parse_from_iter(alloc, &mut trees)?)?;
    }
    Ok(parts)
}

impl CfgExpr {
    /// Reads the first predicate of these trees; the rest is not looked at. Without a tree it is `Invalid`.
    ///
    /// ```
    /// let first = CfgExpr::parse(alloc, &top)?;     // of the trees of `a, b`
    /// assert_eq!(format!("{first}"), "a");
    /// ```
    ///
    /// # Errors
    ///
    /// Returns an error if there is no memory.
    pub fn parse(alloc: Global, tt: &TopSubtree) -> Result<CfgExpr, AllocError>
        ensures { IfOk result (λ expr. expr ≡ next_predicate tt.now.trees) }
    {
        CfgExpr::parse_from_iter(alloc, &mut tt.iter())
    }

    /// Reads the next predicate of these trees, with a comma behind it. Where no tree is left it is `Invalid`.
    ///
    /// ```
    /// let mut left = top.iter();                                    // the trees of `a, b`
    /// let first = CfgExpr::parse_from_iter(alloc, &mut left)?;      // `a`
    /// let second = CfgExpr::parse_from_iter(alloc, &mut left)?;     // `b`
    /// let third = CfgExpr::parse_from_iter(alloc, &mut left)?;      // no tree is left
    /// assert_eq!(format!("{first}; {second}; {third}"), "a; b; invalid");
    /// ```
    ///
    /// # Errors
    ///
    /// Returns an error if there is no memory; the iterator is then as it was.
    #[cycle(reading)]
    pub fn parse_from_iter(alloc: Global, tt: &mut TtIter<'_>) -> Result<CfgExpr, AllocError>
        ensures value { IfOk result (λ expr. expr ≡ next_predicate tt.old) }
        ensures rest { OnOk result (tt.new ≡ behind_predicate tt.old) }
        ensures refused { OnErr result (tt.new ≡ tt.old) }
    {
        let mut ahead = tt.clone()?;
        let Some(tree) = ahead.next() else {
            return Ok(CfgExpr::Invalid);
        };
        let expr = match name_of(tree) {
            Some(word) => named(alloc, word, &mut ahead)?,
            None => CfgExpr::Invalid,
        };
        *tt = ahead;
        Ok(expr)
    }
}
