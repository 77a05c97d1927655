ghost use Rattle.std.specs.Prelude.{◌≡◌, ◌<◌, ◌≤◌, IfOk, IfSome, length};
ghost use Rattle.script_tokens.specs.Ahead.{ahead, end};
ghost use Rattle.script_tokens.specs.Readers.{behind};
ghost use Rattle.script_tokens.specs.Many.{many};
ghost use Rattle.script_tokens.specs.Found.{Found, Read};
ghost use Rattle.script_grammar.specs.AsmPieces.{piece};
ghost use Rattle.script_grammar.specs.Asm.{macro_word, asm_macro, asm_template, asm_templates, asm_behind, asm_call};

use crate::asm_piece::piece;
use crate::asm_word::{AsmMacro, direct_mark, macro_of};
use crate::template::template;
use script_tokens::{mark, word};
use sqlite_items::Items;
use std::alloc::{AllocError, Global};
use sym_core::AstPtr;
use syn_trees::{AsmCall, AsmPiece, Template};
use text_cut::Cursor;

// The macro of the word in front of the templates; with `!` directly behind it the word begins a template.
fn macro_word<'a>(here: Cursor<'a>) -> Option<(AsmMacro, Cursor<'a>)>
    ensures { Found (λ m. m) macro_word here.entry result }
{
    let (name, behind) = word(here)?;
    let called = macro_of(name)?;
    if direct_mark(behind, '!').is_some() {
        return None;
    }
    Some((called, behind))
}

// Which macro is called, and the place of its templates.
fn asm_macro<'a>(here: Cursor<'a>) -> (AsmMacro, Cursor<'a>)
    ensures value { asm_macro (ahead here.entry) ≡ (result.0, ahead result.1) }
    ensures end { end result.1 ≡ end here.entry }
    ensures fewer { length (ahead result.1) ≤ length (ahead here.entry) }
{
    match macro_word(here) {
        Some((called, behind)) => (called, behind),
        None => (AsmMacro::Asm, here),
    }
}

// A template; `?` is another expression.
fn asm_template<'a>(
    alloc: Global,
    here: Cursor<'a>,
) -> Result<Option<(Template, Cursor<'a>)>, AllocError>
    ensures { Read (λ t. t) asm_template here.entry result }
{
    let Some((template, after)) = template(alloc, here)? else {
        return Ok(None);
    };
    Ok(Some((template.unwrap_or(Template::Other), after)))
}

// A template behind a comma.
fn next_template<'a>(
    alloc: Global,
    here: Cursor<'a>,
) -> Result<Option<(Template, Cursor<'a>)>, AllocError>
    ensures value { Read (λ t. t) (behind 44 asm_template) here.entry result }
    ensures fewer { IfOk result (λ o. IfSome o (λ r. length (ahead r.1) < length (ahead here.entry))) }
{
    let Some(behind) = mark(here, ',') else {
        return Ok(None);
    };
    asm_template(alloc, behind)
}

// As many templates behind commas as stand there.
#[tactic(auto, using(script_tokens::proofs::Many::manys))]
fn more_templates<'a>(
    alloc: Global,
    here: Cursor<'a>,
) -> Result<(Items<Template>, Cursor<'a>), AllocError>
    ensures value { IfOk result (λ r. many (behind 44 asm_template) (ahead here.entry) ≡ (r.0, ahead r.1)) }
    ensures end { IfOk result (λ r. end r.1 ≡ end here.entry) }
    ensures fewer { IfOk result (λ r. length (ahead r.1) ≤ length (ahead here.entry)) }
{
    let mut more = Items::new(alloc);
    let mut after = here;
    while let Some((template, behind)) = next_template(alloc, after)? {
        more.push(template)?;
        after = behind;
    }
    Ok((more, after))
}

// A template, and as many behind commas as stand there.
fn asm_templates<'a>(
    alloc: Global,
    here: Cursor<'a>,
) -> Result<Option<(Items<Template>, Cursor<'a>)>, AllocError>
    ensures { Read (λ t. t) asm_templates here.entry result }
{
    let Some((first, behind)) = asm_template(alloc, here)? else {
        return Ok(None);
    };
    let (more, after) = more_templates(alloc, behind)?;
    let mut templates = Items::new(alloc);
    templates.push(first)?;
    templates.append(more)?;
    Ok(Some((templates, after)))
}

// A piece behind a semicolon.
fn next_piece<'a>(
    alloc: Global,
    here: Cursor<'a>,
    ptr: AstPtr,
) -> Result<Option<(AsmPiece, Cursor<'a>)>, AllocError>
    ensures value { Read (λ p. p) (behind 59 (piece ptr.node)) here.entry result }
    ensures fewer { IfOk result (λ o. IfSome o (λ r. length (ahead r.1) < length (ahead here.entry))) }
{
    let Some(behind) = mark(here, ';') else {
        return Ok(None);
    };
    piece(alloc, behind, ptr)
}

// As many pieces behind semicolons as stand there.
#[tactic(auto, using(script_tokens::proofs::Many::manys))]
fn pieces<'a>(
    alloc: Global,
    here: Cursor<'a>,
    ptr: AstPtr,
) -> Result<(Items<AsmPiece>, Cursor<'a>), AllocError>
    ensures value { IfOk result (λ r. many (behind 59 (piece ptr.node)) (ahead here.entry) ≡ (r.0, ahead r.1)) }
    ensures end { IfOk result (λ r. end r.1 ≡ end here.entry) }
    ensures fewer { IfOk result (λ r. length (ahead r.1) ≤ length (ahead here.entry)) }
{
    let mut pieces = Items::new(alloc);
    let mut after = here;
    while let Some((piece, behind)) = next_piece(alloc, after, ptr)? {
        pieces.push(piece)?;
        after = behind;
    }
    Ok((pieces, after))
}

// The templates and the pieces of a call of this macro.
fn asm_behind<'a>(
    alloc: Global,
    called: AsmMacro,
    here: Cursor<'a>,
    ptr: AstPtr,
) -> Result<Option<(AsmCall, Cursor<'a>)>, AllocError>
    ensures { Read (λ c. c) (λ toks. asm_behind ptr.node (called, toks)) here.entry result }
{
    let Some((templates, behind)) = asm_templates(alloc, here)? else {
        return Ok(None);
    };
    let (pieces, after) = pieces(alloc, behind, ptr)?;
    let call = AsmCall {
        global: matches!(called, AsmMacro::Global),
        naked: matches!(called, AsmMacro::Naked),
        templates,
        pieces,
        ptr,
    };
    Ok(Some((call, after)))
}

/// An assembly call with this pointer, behind `asm`: the word in front of the templates if it is there, templates, and pieces.
pub(crate) fn asm_call<'a>(
    alloc: Global,
    here: Cursor<'a>,
    ptr: AstPtr,
) -> Result<Option<(AsmCall, Cursor<'a>)>, AllocError>
    ensures { Read (λ c. c) (asm_call ptr.node) here.entry result }
{
    let (called, behind) = asm_macro(here);
    asm_behind(alloc, called, behind, ptr)
}
