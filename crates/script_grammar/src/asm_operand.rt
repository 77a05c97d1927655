ghost use Rattle.std.specs.Prelude.{◌≡◌, ◌≤◌, IfOk, length, option_map};
ghost use Rattle.script_tokens.specs.Ahead.{kind_of, ahead, end};
ghost use Rattle.script_tokens.specs.Found.{Found, Read};
ghost use Rattle.script_grammar.specs.AsmOperands.{reg, asm_expr, second_expr, and_second, asm_exprs, reg_operand, label_operand, const_operand, sym_operand, operand_behind, some_operand, operand};

use crate::asm_word::{OperandWord, exact_word, operand_word_of};
use crate::template::expr;
use script_tokens::{TokenKind, arrow, mark, next_token, word};
use std::alloc::{AllocError, Global};
use sym_core::{AstPtr, Symbol};
use syn_trees::{AsmDir, AsmExprSyntax, AsmExprs, AsmOperandSyntax, AsmRegSyntax, StringLit};
use text_cut::Cursor;

// A register, a class of registers, or `?` for none.
fn reg<'a>(
    alloc: Global,
    here: Cursor<'a>,
) -> Result<Option<(Option<AsmRegSyntax>, Cursor<'a>)>, AllocError>
    ensures { Read (λ r. r) reg here.entry result }
{
    let Some((token, behind)) = next_token(here) else {
        return Ok(None);
    };
    match token.kind {
        TokenKind::Word(class) => {
            let class = Symbol::new(alloc, class)?;
            Ok(Some((Some(AsmRegSyntax::Class(class)), behind)))
        }
        TokenKind::Text(string) => {
            let register = StringLit::of_token(alloc, string)?;
            Ok(Some((Some(AsmRegSyntax::Register(register)), behind)))
        }
        TokenKind::Mark('?', _) => Ok(Some((None, behind))),
        _ => Ok(None),
    }
}

// An expression of a register: a leaf, `_`, or `?` for none.
fn asm_expr<'a>(here: Cursor<'a>, ptr: AstPtr) -> Option<(Option<AsmExprSyntax>, Cursor<'a>)>
    ensures { Found (λ e. e) (asm_expr ptr.node) here.entry result }
{
    if let Some(after) = exact_word(here, "_") {
        return Some((Some(AsmExprSyntax::Underscore), after));
    }
    let (leaf, after) = expr(here, ptr)?;
    Some((leaf.map(|leaf| AsmExprSyntax::Leaf(leaf)), after))
}

// An expression behind `=>`.
fn second_expr<'a>(here: Cursor<'a>, ptr: AstPtr) -> Option<(Option<AsmExprSyntax>, Cursor<'a>)>
    ensures { Found (λ e. e) (second_expr ptr.node) here.entry result }
{
    asm_expr(arrow(here)?, ptr)
}

// A first expression with the one behind `=>`, if there is one.
fn and_second<'a>(
    first: Option<AsmExprSyntax>,
    here: Cursor<'a>,
    ptr: AstPtr,
) -> (AsmExprs, Cursor<'a>)
    ensures value { and_second ptr.node (first, ahead here.entry) ≡ (result.0, ahead result.1) }
    ensures end { end result.1 ≡ end here.entry }
    ensures fewer { length (ahead result.1) ≤ length (ahead here.entry) }
{
    let Some((second, after)) = second_expr(here, ptr) else {
        let exprs = AsmExprs {
            first,
            arrow: false,
            second: None,
        };
        return (exprs, here);
    };
    let exprs = AsmExprs {
        first,
        arrow: true,
        second,
    };
    (exprs, after)
}

// One expression or two, or none.
fn asm_exprs<'a>(here: Cursor<'a>, ptr: AstPtr) -> (Option<AsmExprs>, Cursor<'a>)
    ensures value { asm_exprs ptr.node (ahead here.entry) ≡ (result.0, ahead result.1) }
    ensures end { end result.1 ≡ end here.entry }
    ensures fewer { length (ahead result.1) ≤ length (ahead here.entry) }
{
    let Some((first, behind)) = asm_expr(here, ptr) else {
        return (None, here);
    };
    let (exprs, after) = and_second(first, behind, ptr);
    (Some(exprs), after)
}

// A register with its expressions, behind the direction.
fn reg_operand<'a>(
    alloc: Global,
    dir: AsmDir,
    here: Cursor<'a>,
    ptr: AstPtr,
) -> Result<Option<(AsmOperandSyntax, Cursor<'a>)>, AllocError>
    ensures { Read (λ o. o) (reg_operand ptr.node dir) here.entry result }
{
    let Some((reg, behind)) = reg(alloc, here)? else {
        return Ok(None);
    };
    let (exprs, after) = asm_exprs(behind, ptr);
    let dir = Some(dir);
    Ok(Some((AsmOperandSyntax::Reg { dir, reg, exprs }, after)))
}

// What stands behind `label`.
fn label_operand<'a>(here: Cursor<'a>, ptr: AstPtr) -> Option<(AsmOperandSyntax, Cursor<'a>)>
    ensures { Found (λ o. o) (label_operand ptr.node) here.entry result }
{
    let (block, after) = expr(here, ptr)?;
    Some((AsmOperandSyntax::Label(block), after))
}

// What stands behind `const`.
fn const_operand<'a>(here: Cursor<'a>, ptr: AstPtr) -> Option<(AsmOperandSyntax, Cursor<'a>)>
    ensures { Found (λ o. o) (const_operand ptr.node) here.entry result }
{
    let (value, after) = expr(here, ptr)?;
    Some((AsmOperandSyntax::Const(value), after))
}

// What stands behind `sym`: a word, or `?` for none.
fn sym_operand<'a>(
    alloc: Global,
    here: Cursor<'a>,
) -> Result<Option<(AsmOperandSyntax, Cursor<'a>)>, AllocError>
    ensures { Read (λ o. o) sym_operand here.entry result }
{
    let Some((token, behind)) = next_token(here) else {
        return Ok(None);
    };
    match token.kind {
        TokenKind::Word(path) => {
            let path = Symbol::new(alloc, path)?;
            Ok(Some((AsmOperandSyntax::Sym(Some(path)), behind)))
        }
        TokenKind::Mark('?', _) => Ok(Some((AsmOperandSyntax::Sym(None), behind))),
        _ => Ok(None),
    }
}

// What stands behind the word that an operand begins with.
fn operand_behind<'a>(
    alloc: Global,
    begin: OperandWord,
    here: Cursor<'a>,
    ptr: AstPtr,
) -> Result<Option<(AsmOperandSyntax, Cursor<'a>)>, AllocError>
    ensures { Read (λ o. o) (operand_behind ptr.node begin) here.entry result }
{
    match begin {
        OperandWord::Dir(dir) => reg_operand(alloc, dir, here, ptr),
        OperandWord::Label => Ok(label_operand(here, ptr)),
        OperandWord::Const => Ok(const_operand(here, ptr)),
        OperandWord::Sym => sym_operand(alloc, here),
    }
}

// An operand that begins with its word.
fn some_operand<'a>(
    alloc: Global,
    here: Cursor<'a>,
    ptr: AstPtr,
) -> Result<Option<(Option<AsmOperandSyntax>, Cursor<'a>)>, AllocError>
    ensures { Read (λ o. o) (some_operand ptr.node) here.entry result }
{
    let Some((name, behind)) = word(here) else {
        return Ok(None);
    };
    let Some(begin) = operand_word_of(name) else {
        return Ok(None);
    };
    let Some((operand, after)) = operand_behind(alloc, begin, behind, ptr)? else {
        return Ok(None);
    };
    Ok(Some((Some(operand), after)))
}

/// An operand, or `?` for none; its leaves have this pointer.
#[tactic(auto, unfolding(crate::specs::AsmOperands::operand))]
pub(crate) fn operand<'a>(
    alloc: Global,
    here: Cursor<'a>,
    ptr: AstPtr,
) -> Result<Option<(Option<AsmOperandSyntax>, Cursor<'a>)>, AllocError>
    ensures { Read (λ o. o) (operand ptr.node) here.entry result }
{
    if let Some(after) = mark(here, '?') {
        return Ok(Some((None, after)));
    }
    some_operand(alloc, here, ptr)
}
