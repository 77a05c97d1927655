ghost use Rattle.std.specs.Prelude.{◌≡◌, ◌<◌, ◌≤◌, IfOk, IfSome, length};
ghost use Rattle.script_tokens.specs.Ahead.{ahead, end};
ghost use Rattle.script_tokens.specs.Readers.{behind};
ghost use Rattle.script_tokens.specs.Many.{many};
ghost use Rattle.script_tokens.specs.Found.{Read};
ghost use Rattle.script_grammar.specs.Preds.{key_of, flag_of, valued_behind, version_in, past_mark, and_more, preds, composite_of, in_brackets, brackets_in, behind_word, pred_in, pred};

use crate::trees::MAX_DEPTH;
use script_tokens::{close_round, mark, open_round, text, word};
use sqlite_items::Items;
use std::alloc::{AllocError, Global};
use sym_core::Symbol;
use syn_trees::{CfgAtomKey, CfgPredicate, StringLit};
use text_cut::Cursor;

// The key that a word is.
fn key_of(alloc: Global, word: &str) -> Result<CfgAtomKey, AllocError>
    ensures { IfOk result (λ key. key ≡ key_of word.now) }
{
    match word {
        "true" => Ok(CfgAtomKey::True),
        "false" => Ok(CfgAtomKey::False),
        _ => Ok(CfgAtomKey::Ident(Symbol::new(alloc, word)?)),
    }
}

// The flag that a word is.
fn flag_of(alloc: Global, word: &str) -> Result<CfgPredicate, AllocError>
    ensures { IfOk result (λ flag. flag ≡ flag_of word.now) }
{
    let key = Some(key_of(alloc, word)?);
    Ok(CfgPredicate::Atom { key, string: None })
}

// A key with the string behind its `=`.
fn valued<'a>(
    alloc: Global,
    key: &str,
    here: Cursor<'a>,
) -> Result<Option<(CfgPredicate, Cursor<'a>)>, AllocError>
    ensures { Read (λ p. p) (valued_behind key.now) here.entry result }
{
    let Some((string, after)) = text(here) else {
        return Ok(None);
    };
    let key = Some(key_of(alloc, key)?);
    let string = Some(StringLit::of_token(alloc, string)?);
    Ok(Some((CfgPredicate::Atom { key, string }, after)))
}

// A string in front of `)`, behind `version`.
fn version_in<'a>(
    alloc: Global,
    here: Cursor<'a>,
) -> Result<Option<(CfgPredicate, Cursor<'a>)>, AllocError>
    ensures { Read (λ p. p) version_in here.entry result }
{
    let Some((string, end)) = text(here) else {
        return Ok(None);
    };
    let Some(after) = close_round(end) else {
        return Ok(None);
    };
    let string = StringLit::of_token(alloc, string)?;
    Ok(Some((CfgPredicate::Version(Some(string)), after)))
}

// The place behind this mark, where it stands here.
fn past_mark(here: Cursor<'_>, c: char) -> Cursor<'_>
    ensures value { ahead result ≡ past_mark c (ahead here.entry) }
    ensures end { end result ≡ end here.entry }
    ensures fewer { length (ahead result) ≤ length (ahead here.entry) }
{
    match mark(here, c) {
        Some(after) => after,
        None => here,
    }
}

// A predicate behind a comma.
#[cycle(preds)]
fn next_pred<'a>(
    alloc: Global,
    here: Cursor<'a>,
    depth: u32,
) -> Result<Option<(CfgPredicate, Cursor<'a>)>, AllocError>
    ensures value { Read (λ p. p) (behind 44 (pred_in depth)) here.entry result }
    ensures fewer { IfOk result (λ o. IfSome o (λ r. length (ahead r.1) < length (ahead here.entry))) }
{
    let Some(behind) = mark(here, ',') else {
        return Ok(None);
    };
    pred_in(alloc, behind, depth)
}

// As many predicates behind commas as stand there.
#[cycle(preds)]
#[tactic(auto, using(script_tokens::proofs::Many::manys))]
fn more_preds<'a>(
    alloc: Global,
    here: Cursor<'a>,
    depth: u32,
) -> Result<(Items<CfgPredicate>, Cursor<'a>), AllocError>
    ensures value { IfOk result (λ r. many (behind 44 (pred_in depth)) (ahead here.entry) ≡ (r.0, ahead r.1)) }
    ensures end { IfOk result (λ r. end r.1 ≡ end here.entry) }
    ensures fewer { IfOk result (λ r. length (ahead r.1) ≤ length (ahead here.entry)) }
{
    let mut more = Items::new(alloc);
    let mut after = here;
    while let Some((pred, behind)) = next_pred(alloc, after, depth)? {
        more.push(pred)?;
        after = behind;
    }
    Ok((more, after))
}

// A first predicate with those behind commas, and a comma behind the last.
#[cycle(preds)]
fn and_more<'a>(
    alloc: Global,
    first: CfgPredicate,
    here: Cursor<'a>,
    depth: u32,
) -> Result<(Items<CfgPredicate>, Cursor<'a>), AllocError>
    ensures value { IfOk result (λ r. and_more (pred_in depth) (first, ahead here.entry) ≡ (r.0, ahead r.1)) }
    ensures end { IfOk result (λ r. end r.1 ≡ end here.entry) }
    ensures fewer { IfOk result (λ r. length (ahead r.1) ≤ length (ahead here.entry)) }
{
    let (more, end) = more_preds(alloc, here, depth)?;
    let mut parts = Items::new(alloc);
    parts.push(first)?;
    parts.append(more)?;
    Ok((parts, past_mark(end, ',')))
}

// No predicate, or some.
#[cycle(preds)]
fn preds<'a>(
    alloc: Global,
    here: Cursor<'a>,
    depth: u32,
) -> Result<(Items<CfgPredicate>, Cursor<'a>), AllocError>
    ensures value { IfOk result (λ r. preds (pred_in depth) (ahead here.entry) ≡ (r.0, ahead r.1)) }
    ensures end { IfOk result (λ r. end r.1 ≡ end here.entry) }
    ensures fewer { IfOk result (λ r. length (ahead r.1) ≤ length (ahead here.entry)) }
{
    let Some((first, behind)) = pred_in(alloc, here, depth)? else {
        return Ok((Items::new(alloc), here));
    };
    and_more(alloc, first, behind, depth)
}

// Predicates in front of `)`, behind their keyword.
#[cycle(preds)]
fn composite<'a>(
    alloc: Global,
    keyword: &str,
    here: Cursor<'a>,
    depth: u32,
) -> Result<Option<(CfgPredicate, Cursor<'a>)>, AllocError>
    ensures { Read (λ p. p) (λ toks. composite_of keyword.now (preds (pred_in depth) toks)) here.entry result }
{
    let (parts, end) = preds(alloc, here, depth)?;
    let Some(after) = close_round(end) else {
        return Ok(None);
    };
    let keyword = Some(Symbol::new(alloc, keyword)?);
    Ok(Some((CfgPredicate::Composite { keyword, parts }, after)))
}

// What stands in the brackets behind a word: of `version` a string, or else predicates.
#[cycle(preds)]
fn in_brackets<'a>(
    alloc: Global,
    keyword: &str,
    here: Cursor<'a>,
    depth: u32,
) -> Result<Option<(CfgPredicate, Cursor<'a>)>, AllocError>
    ensures { Read (λ p. p) (in_brackets (pred_in depth) keyword.now) here.entry result }
{
    if keyword != "version" {
        return composite(alloc, keyword, here, depth);
    }
    match version_in(alloc, here)? {
        Some(version) => Ok(Some(version)),
        None => composite(alloc, keyword, here, depth),
    }
}

// What stands in the brackets behind a word, with so many pairs of brackets in one another at most.
#[cycle(preds)]
#[tactic(auto, using(crate::proofs::Depths::brackets))]
fn brackets<'a>(
    alloc: Global,
    keyword: &str,
    here: Cursor<'a>,
    depth: u32,
) -> Result<Option<(CfgPredicate, Cursor<'a>)>, AllocError>
    ensures { Read (λ p. p) (brackets_in depth keyword.now) here.entry result }
{
    if depth == 0 {
        return Ok(None);
    }
    in_brackets(alloc, keyword, here, depth - 1)
}

// Behind a word: `=` and a string, brackets, or nothing.
#[cycle(preds)]
fn behind_word<'a>(
    alloc: Global,
    key: &str,
    here: Cursor<'a>,
    depth: u32,
) -> Result<Option<(CfgPredicate, Cursor<'a>)>, AllocError>
    ensures { Read (λ p. p) (behind_word (brackets_in depth key.now) key.now) here.entry result }
{
    if let Some(behind) = mark(here, '=') {
        return valued(alloc, key, behind);
    }
    if let Some(inside) = open_round(here) {
        return brackets(alloc, key, inside, depth);
    }
    Ok(Some((flag_of(alloc, key)?, here)))
}

// A predicate, with so many pairs of brackets in one another at most.
#[cycle(preds)]
fn pred_in<'a>(
    alloc: Global,
    here: Cursor<'a>,
    depth: u32,
) -> Result<Option<(CfgPredicate, Cursor<'a>)>, AllocError>
    ensures value { Read (λ p. p) (pred_in depth) here.entry result }
    ensures fewer { IfOk result (λ o. IfSome o (λ r. length (ahead r.1) < length (ahead here.entry))) }
{
    let Some((key, behind)) = word(here) else {
        return Ok(None);
    };
    behind_word(alloc, key, behind, depth)
}

/// Returns the predicate that stands at the front of the tokens that are left, as an attribute writes it, and the place behind it.
///
/// `None` where none stands there, or one with more than 128 pairs of brackets in one another. What follows it is not looked at: of
/// `a b` it is the flag `a`.
///
/// ```
/// let (pred, end) = read_pred(alloc, begin("unix, a"))?.unwrap();
/// assert!(matches!(pred, CfgPredicate::Atom { string: None, .. }));
/// assert_eq!(end.rest, ", a");
/// ```
pub fn read_pred<'a>(
    alloc: Global,
    here: Cursor<'a>,
) -> Result<Option<(CfgPredicate, Cursor<'a>)>, AllocError>
    ensures { Read (λ p. p) pred here.entry result }
{
    pred_in(alloc, here, MAX_DEPTH)
}
