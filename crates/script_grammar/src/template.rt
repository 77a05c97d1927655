ghost use Rattle.std.specs.Prelude.{◌≡◌, ◌<◌, ◌≤◌, IfOk, IfSome, length};
ghost use Rattle.script_tokens.specs.Ahead.{kind_of, ahead, end};
ghost use Rattle.script_tokens.specs.Many.{many};
ghost use Rattle.script_tokens.specs.Found.{Found, Read};
ghost use Rattle.script_grammar.specs.Templates.{macro_call, other_template, template_by, template, leaf_expr, expr_behind, expr, named_arg, arg, format_call};

use script_tokens::{TokenKind, direct_number, mark, next_token};
use sqlite_items::Items;
use std::alloc::{AllocError, Global};
use sym_core::{AstPtr, Symbol};
use syn_trees::{FormatArgSyntax, FormatCall, LeafSyntax, MacroCallSrc, StringLit, Template};
use text_cut::Cursor;

// A macro call of this name, behind the name.
fn macro_call<'a>(
    alloc: Global,
    name: &str,
    here: Cursor<'a>,
) -> Result<Option<(Option<Template>, Cursor<'a>)>, AllocError>
    ensures { Read (λ t. t) (macro_call name.now) here.entry result }
{
    let Some(after) = mark(here, '!') else {
        return Ok(None);
    };
    let path = Some(Symbol::new(alloc, name)?);
    Ok(Some((Some(Template::Macro(MacroCallSrc { path })), after)))
}

// A leaf as a template, behind its `@`.
fn other_template<'a>(here: Cursor<'a>) -> Option<(Option<Template>, Cursor<'a>)>
    ensures { Found (λ t. t) other_template here.entry result }
{
    let (_, after) = direct_number(here)?;
    Some((Some(Template::Other), after))
}

// The template that this mark begins, behind the mark.
fn template_by<'a>(c: char, here: Cursor<'a>) -> Option<(Option<Template>, Cursor<'a>)>
    ensures { Found (λ t. t) (template_by c) here.entry result }
{
    match c {
        '!' => Some((Some(Template::Macro(MacroCallSrc { path: None })), here)),
        '?' => Some((None, here)),
        '@' => other_template(here),
        _ => None,
    }
}

/// A template.
pub(crate) fn template<'a>(
    alloc: Global,
    here: Cursor<'a>,
) -> Result<Option<(Option<Template>, Cursor<'a>)>, AllocError>
    ensures { Read (λ t. t) template here.entry result }
{
    let Some((token, behind)) = next_token(here) else {
        return Ok(None);
    };
    match token.kind {
        TokenKind::Word(name) => macro_call(alloc, name, behind),
        TokenKind::Text(string) => {
            let literal = StringLit::of_token(alloc, string)?;
            Ok(Some((Some(Template::Str(literal)), behind)))
        }
        TokenKind::Mark(c, _) => Ok(template_by(c, behind)),
        _ => Ok(None),
    }
}

// A leaf with this pointer, behind its `@`.
fn leaf_expr<'a>(here: Cursor<'a>, ptr: AstPtr) -> Option<(Option<LeafSyntax>, Cursor<'a>)>
    ensures { Found (λ e. e) (leaf_expr ptr.node) here.entry result }
{
    let (leaf, after) = direct_number(here)?;
    Some((Some(LeafSyntax { leaf, ptr }), after))
}

// The expression that this token is or begins: a leaf, or `?` for none.
fn expr_behind<'a>(
    kind: TokenKind<'_>,
    here: Cursor<'a>,
    ptr: AstPtr,
) -> Option<(Option<LeafSyntax>, Cursor<'a>)>
    ensures { Found (λ e. e) (expr_behind ptr.node (kind_of kind.entry)) here.entry result }
{
    match kind {
        TokenKind::Mark('?', _) => Some((None, here)),
        TokenKind::Mark('@', _) => leaf_expr(here, ptr),
        _ => None,
    }
}

/// A leaf, or `?` for none.
pub(crate) fn expr<'a>(here: Cursor<'a>, ptr: AstPtr) -> Option<(Option<LeafSyntax>, Cursor<'a>)>
    ensures { Found (λ e. e) (expr ptr.node) here.entry result }
{
    let (token, behind) = next_token(here)?;
    expr_behind(token.kind, behind, ptr)
}

// An argument of this name, behind the name.
fn named_arg<'a>(
    alloc: Global,
    name: &str,
    here: Cursor<'a>,
    ptr: AstPtr,
) -> Result<Option<(FormatArgSyntax, Cursor<'a>)>, AllocError>
    ensures { Read (λ a. a) (named_arg ptr.node name.now) here.entry result }
{
    let Some(behind) = mark(here, '=') else {
        return Ok(None);
    };
    let Some((value, after)) = expr(behind, ptr) else {
        return Ok(None);
    };
    let name = Some(Symbol::new(alloc, name)?);
    Ok(Some((FormatArgSyntax { name, expr: value }, after)))
}

// An argument.
fn arg<'a>(
    alloc: Global,
    here: Cursor<'a>,
    ptr: AstPtr,
) -> Result<Option<(FormatArgSyntax, Cursor<'a>)>, AllocError>
    ensures value { Read (λ a. a) (arg ptr.node) here.entry result }
    ensures fewer { IfOk result (λ o. IfSome o (λ r. length (ahead r.1) < length (ahead here.entry))) }
{
    let Some((token, behind)) = next_token(here) else {
        return Ok(None);
    };
    if let TokenKind::Word(name) = token.kind {
        return named_arg(alloc, name, behind, ptr);
    }
    let Some((value, after)) = expr_behind(token.kind, behind, ptr) else {
        return Ok(None);
    };
    let arg = FormatArgSyntax {
        name: None,
        expr: value,
    };
    Ok(Some((arg, after)))
}

// As many arguments as stand there.
#[tactic(auto, using(script_tokens::proofs::Many::manys))]
fn args<'a>(
    alloc: Global,
    here: Cursor<'a>,
    ptr: AstPtr,
) -> Result<(Items<FormatArgSyntax>, Cursor<'a>), AllocError>
    ensures value { IfOk result (λ r. many (arg ptr.node) (ahead here.entry) ≡ (r.0, ahead r.1)) }
    ensures end { IfOk result (λ r. end r.1 ≡ end here.entry) }
    ensures fewer { IfOk result (λ r. length (ahead r.1) ≤ length (ahead here.entry)) }
{
    let mut args = Vec::new(alloc);
    let mut after = here;
    while let Some((arg, behind)) = arg(alloc, after, ptr)? {
        args.push(arg)?;
        after = behind;
    }
    args.shrink_to_fit();
    Ok((Items::from_vec(args), after))
}

/// A call with this pointer: a template, and as many arguments as stand behind it.
pub(crate) fn format_call<'a>(
    alloc: Global,
    here: Cursor<'a>,
    ptr: AstPtr,
) -> Result<Option<(FormatCall, Cursor<'a>)>, AllocError>
    ensures { Read (λ c. c) (format_call ptr.node) here.entry result }
{
    let Some((template, behind)) = template(alloc, here)? else {
        return Ok(None);
    };
    let (args, after) = args(alloc, behind, ptr)?;
    let call = FormatCall {
        template,
        template_ptr: ptr,
        args,
        ptr,
    };
    Ok(Some((call, after)))
}
