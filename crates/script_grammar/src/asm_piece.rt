ghost use Rattle.std.specs.Prelude.{◌≡◌, ◌<◌, ◌≤◌, IfOk, IfSome, length};
ghost use Rattle.script_tokens.specs.Ahead.{ahead, end};
ghost use Rattle.script_tokens.specs.Readers.{word, behind};
ghost use Rattle.script_tokens.specs.Many.{many};
ghost use Rattle.script_tokens.specs.Found.{Found, Read};
ghost use Rattle.script_grammar.specs.AsmPieces.{piece_cfg, and_more_words, option_words, options, clobber_abi, operand_name, operand_of, body, piece};

use crate::asm_operand::operand;
use crate::asm_word::exact_word;
use crate::pred::read_pred;
use script_tokens::{TokenKind, close_round, mark, next_token, open_round, word};
use sqlite_items::Items;
use std::alloc::{AllocError, Global};
use sym_core::{AstPtr, Symbol};
use syn_trees::{AsmPiece, AsmPieceKind, CfgPredicate, StringLit};
use text_cut::Cursor;

// A predicate of a piece.
fn piece_cfg<'a>(
    alloc: Global,
    here: Cursor<'a>,
) -> Result<Option<(CfgPredicate, Cursor<'a>)>, AllocError>
    ensures value { Read (λ p. p) piece_cfg here.entry result }
    ensures fewer { IfOk result (λ o. IfSome o (λ r. length (ahead r.1) < length (ahead here.entry))) }
{
    let Some(behind) = exact_word(here, "cfg") else {
        return Ok(None);
    };
    let Some(inside) = open_round(behind) else {
        return Ok(None);
    };
    let Some((syntax, end)) = read_pred(alloc, inside)? else {
        return Ok(None);
    };
    let Some(after) = close_round(end) else {
        return Ok(None);
    };
    Ok(Some((syntax, after)))
}

// As many predicates of a piece as stand there.
#[tactic(auto, using(script_tokens::proofs::Many::manys))]
fn piece_cfgs<'a>(
    alloc: Global,
    here: Cursor<'a>,
) -> Result<(Items<CfgPredicate>, Cursor<'a>), AllocError>
    ensures value { IfOk result (λ r. many piece_cfg (ahead here.entry) ≡ (r.0, ahead r.1)) }
    ensures end { IfOk result (λ r. end r.1 ≡ end here.entry) }
    ensures fewer { IfOk result (λ r. length (ahead r.1) ≤ length (ahead here.entry)) }
{
    let mut cfgs = Items::new(alloc);
    let mut after = here;
    while let Some((cfg, behind)) = piece_cfg(alloc, after)? {
        cfgs.push(cfg)?;
        after = behind;
    }
    Ok((cfgs, after))
}

// A word behind a comma.
fn next_word<'a>(
    alloc: Global,
    here: Cursor<'a>,
) -> Result<Option<(Symbol, Cursor<'a>)>, AllocError>
    ensures value { Read (λ w. w) (behind 44 word) here.entry result }
    ensures fewer { IfOk result (λ o. IfSome o (λ r. length (ahead r.1) < length (ahead here.entry))) }
{
    let Some(behind) = mark(here, ',') else {
        return Ok(None);
    };
    let Some((name, after)) = word(behind) else {
        return Ok(None);
    };
    Ok(Some((Symbol::new(alloc, name)?, after)))
}

// As many words behind commas as stand there.
#[tactic(auto, using(script_tokens::proofs::Many::manys))]
fn more_words<'a>(
    alloc: Global,
    here: Cursor<'a>,
) -> Result<(Items<Symbol>, Cursor<'a>), AllocError>
    ensures value { IfOk result (λ r. many (behind 44 word) (ahead here.entry) ≡ (r.0, ahead r.1)) }
    ensures end { IfOk result (λ r. end r.1 ≡ end here.entry) }
    ensures fewer { IfOk result (λ r. length (ahead r.1) ≤ length (ahead here.entry)) }
{
    let mut more = Items::new(alloc);
    let mut after = here;
    while let Some((name, behind)) = next_word(alloc, after)? {
        more.push(name)?;
        after = behind;
    }
    Ok((more, after))
}

// As many words behind commas as stand there, behind a first.
fn and_more_words<'a>(
    alloc: Global,
    first: &str,
    here: Cursor<'a>,
) -> Result<(Items<Symbol>, Cursor<'a>), AllocError>
    ensures value { IfOk result (λ r. and_more_words (first.now, ahead here.entry) ≡ (r.0, ahead r.1)) }
    ensures end { IfOk result (λ r. end r.1 ≡ end here.entry) }
    ensures fewer { IfOk result (λ r. length (ahead r.1) ≤ length (ahead here.entry)) }
{
    let (more, after) = more_words(alloc, here)?;
    let mut words = Items::new(alloc);
    words.push(Symbol::new(alloc, first)?)?;
    words.append(more)?;
    Ok((words, after))
}

// No word, or some with commas between them.
fn option_words<'a>(
    alloc: Global,
    here: Cursor<'a>,
) -> Result<(Items<Symbol>, Cursor<'a>), AllocError>
    ensures value { IfOk result (λ r. option_words (ahead here.entry) ≡ (r.0, ahead r.1)) }
    ensures end { IfOk result (λ r. end r.1 ≡ end here.entry) }
    ensures fewer { IfOk result (λ r. length (ahead r.1) ≤ length (ahead here.entry)) }
{
    let Some((first, behind)) = word(here) else {
        return Ok((Items::new(alloc), here));
    };
    and_more_words(alloc, first, behind)
}

// What stands behind `options`.
fn options<'a>(
    alloc: Global,
    here: Cursor<'a>,
) -> Result<Option<(AsmPieceKind, Cursor<'a>)>, AllocError>
    ensures { Read (λ k. k) options here.entry result }
{
    let Some(inside) = open_round(here) else {
        return Ok(None);
    };
    let (words, end) = option_words(alloc, inside)?;
    let Some(after) = close_round(end) else {
        return Ok(None);
    };
    Ok(Some((AsmPieceKind::Options(words), after)))
}

// What stands behind `clobber_abi`: a string, or `?` for none.
fn clobber_abi<'a>(
    alloc: Global,
    here: Cursor<'a>,
) -> Result<Option<(AsmPieceKind, Cursor<'a>)>, AllocError>
    ensures { Read (λ k. k) clobber_abi here.entry result }
{
    let Some((token, behind)) = next_token(here) else {
        return Ok(None);
    };
    match token.kind {
        TokenKind::Text(string) => {
            let abi = StringLit::of_token(alloc, string)?;
            Ok(Some((AsmPieceKind::ClobberAbi(Some(abi)), behind)))
        }
        TokenKind::Mark('?', _) => Ok(Some((AsmPieceKind::ClobberAbi(None), behind))),
        _ => Ok(None),
    }
}

// The name of an operand, in front of `=`.
fn operand_name<'a>(here: Cursor<'a>) -> Option<(&'a str, Cursor<'a>)>
    ensures { Found (λ name. name.now) operand_name here.entry result }
{
    let (name, behind) = word(here)?;
    let after = mark(behind, '=')?;
    Some((name, after))
}

// An operand with this name, or without one.
fn operand_of<'a>(
    alloc: Global,
    name: Option<Symbol>,
    here: Cursor<'a>,
    ptr: AstPtr,
) -> Result<Option<(AsmPieceKind, Cursor<'a>)>, AllocError>
    ensures { Read (λ k. k) (operand_of ptr.node name) here.entry result }
{
    let Some((op, after)) = operand(alloc, here, ptr)? else {
        return Ok(None);
    };
    Ok(Some((AsmPieceKind::Operand { name, op }, after)))
}

// What a piece says behind its predicates.
fn body<'a>(
    alloc: Global,
    here: Cursor<'a>,
    ptr: AstPtr,
) -> Result<Option<(AsmPieceKind, Cursor<'a>)>, AllocError>
    ensures { Read (λ k. k) (body ptr.node) here.entry result }
{
    if let Some((name, behind)) = operand_name(here) {
        let name = Some(Symbol::new(alloc, name)?);
        return operand_of(alloc, name, behind, ptr);
    }
    if let Some(behind) = exact_word(here, "options") {
        return options(alloc, behind);
    }
    if let Some(behind) = exact_word(here, "clobber_abi") {
        return clobber_abi(alloc, behind);
    }
    operand_of(alloc, None, here, ptr)
}

/// A piece: as many predicates as stand there, and what they are about. Its leaves have this pointer.
#[tactic(auto, unfolding(crate::specs::AsmPieces::piece))]
pub(crate) fn piece<'a>(
    alloc: Global,
    here: Cursor<'a>,
    ptr: AstPtr,
) -> Result<Option<(AsmPiece, Cursor<'a>)>, AllocError>
    ensures { Read (λ p. p) (piece ptr.node) here.entry result }
{
    let (cfgs, behind) = piece_cfgs(alloc, here)?;
    let Some((kind, after)) = body(alloc, behind, ptr)? else {
        return Ok(None);
    };
    Ok(Some((AsmPiece { cfgs, kind }, after)))
}
