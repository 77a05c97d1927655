ghost use Rattle.std.specs.Prelude.{◌≡◌, IfOk, option_map};
ghost use Rattle.text_cut.specs.Seen.{seen};
ghost use Rattle.syn_trees.specs.ReadString.{value_of};
ghost use Rattle.script_tokens.specs.Found.{Stands, Found, Read};
ghost use Rattle.script_tokens.specs.Items.{taken_at};
ghost use Rattle.script_grammar.specs.Items.{opt_pair, opt_item, version_item, limit_item, nolang_item, macro_item, cfg_item, attr_item, format_item, asm_item, item_behind, item, item_of};

use crate::asm::asm_call;
use crate::item::Item;
use crate::keyword::{Keyword, answer_of, keyword_of, lang_of};
use crate::limit::RecursionLimit;
use crate::pred::read_pred;
use crate::template::{format_call, template};
use crate::trees::read_trees;
use script_tokens::{arrow, end_item, mark, number, text, word};
use std::alloc::{AllocError, Global};
use sym_core::{AstPtr, Symbol};
use syn_trees::{EscapeError, StrToken, StringLit};
use text_cut::Cursor;

// The value of a string token, where it has one.
fn value_of(alloc: Global, token: StrToken<'_>) -> Result<Option<Symbol>, AllocError>
    ensures { IfOk result (λ value. value ≡ value_of token.entry.text.now) }
{
    match StringLit::of_token(alloc, token)?.value(alloc) {
        Ok(value) => Ok(Some(value)),
        Err(EscapeError::Escape) => Ok(None),
        Err(EscapeError::Memory(error)) => Err(error),
    }
}

// A pair of this key, behind its `=`.
fn opt_pair<'a>(
    alloc: Global,
    key: &str,
    here: Cursor<'a>,
) -> Result<Option<(Item, Cursor<'a>)>, AllocError>
    ensures { Read (λ i. i) (opt_pair key.now) here.entry result }
{
    let Some((string, after)) = text(here) else {
        return Ok(None);
    };
    let Some(value) = value_of(alloc, string)? else {
        return Ok(None);
    };
    let key = Symbol::new(alloc, key)?;
    Ok(Some((Item::Pair { key, value }, after)))
}

// What stands behind `opt`.
fn opt_item<'a>(alloc: Global, here: Cursor<'a>) -> Result<Option<(Item, Cursor<'a>)>, AllocError>
    ensures { Read (λ i. i) opt_item here.entry result }
{
    let Some((name, after)) = word(here) else {
        return Ok(None);
    };
    if let Some(behind) = mark(after, '=') {
        return opt_pair(alloc, name, behind);
    }
    let name = Symbol::new(alloc, name)?;
    Ok(Some((Item::Flag(name), after)))
}

// What stands behind `version`.
fn version_item<'a>(
    alloc: Global,
    here: Cursor<'a>,
) -> Result<Option<(Item, Cursor<'a>)>, AllocError>
    ensures { Read (λ i. i) version_item here.entry result }
{
    let Some((string, behind)) = text(here) else {
        return Ok(None);
    };
    let Some(text) = value_of(alloc, string)? else {
        return Ok(None);
    };
    let Some((said, after)) = word(behind) else {
        return Ok(None);
    };
    let Some(answer) = answer_of(said) else {
        return Ok(None);
    };
    Ok(Some((Item::Version { text, answer }, after)))
}

// What stands behind `limit`.
fn limit_item<'a>(here: Cursor<'a>) -> Option<(Item, Cursor<'a>)>
    ensures { Found (λ i. i) limit_item here.entry result }
{
    let (value, after) = number(here)?;
    let limit = RecursionLimit::new(value)?;
    Some((Item::Limit(limit), after))
}

// What stands behind `nolang`.
fn nolang_item<'a>(here: Cursor<'a>) -> Option<(Item, Cursor<'a>)>
    ensures { Found (λ i. i) nolang_item here.entry result }
{
    let (name, after) = word(here)?;
    let lang = lang_of(name)?;
    Some((Item::NoLang(lang), after))
}

// What stands behind `macro`.
fn macro_item<'a>(alloc: Global, here: Cursor<'a>) -> Result<Option<(Item, Cursor<'a>)>, AllocError>
    ensures { Read (λ i. i) macro_item here.entry result }
{
    let Some((name, behind)) = word(here) else {
        return Ok(None);
    };
    let Some(points) = arrow(behind) else {
        return Ok(None);
    };
    let Some((body, after)) = template(alloc, points)? else {
        return Ok(None);
    };
    let name = Symbol::new(alloc, name)?;
    Ok(Some((Item::Macro { name, body }, after)))
}

// What stands behind `cfg`.
fn cfg_item<'a>(alloc: Global, here: Cursor<'a>) -> Result<(Item, Cursor<'a>), AllocError>
    ensures { IfOk result (λ r. Stands cfg_item here.entry r.0 r.1) }
{
    let (trees, after) = read_trees(alloc, here)?;
    Ok((Item::Cfg(trees), after))
}

// What stands behind `attr`.
fn attr_item<'a>(alloc: Global, here: Cursor<'a>) -> Result<Option<(Item, Cursor<'a>)>, AllocError>
    ensures { Read (λ i. i) attr_item here.entry result }
{
    let Some((syntax, after)) = read_pred(alloc, here)? else {
        return Ok(None);
    };
    Ok(Some((Item::Attr(syntax), after)))
}

// What stands behind `format`, as a call with this pointer.
fn format_item<'a>(
    alloc: Global,
    here: Cursor<'a>,
    ptr: AstPtr,
) -> Result<Option<(Item, Cursor<'a>)>, AllocError>
    ensures { Read (λ i. i) (format_item ptr.node) here.entry result }
{
    let Some((call, after)) = format_call(alloc, here, ptr)? else {
        return Ok(None);
    };
    Ok(Some((Item::Format(call), after)))
}

// What stands behind `asm`, as a call with this pointer.
fn asm_item<'a>(
    alloc: Global,
    here: Cursor<'a>,
    ptr: AstPtr,
) -> Result<Option<(Item, Cursor<'a>)>, AllocError>
    ensures { Read (λ i. i) (asm_item ptr.node) here.entry result }
{
    let Some((call, after)) = asm_call(alloc, here, ptr)? else {
        return Ok(None);
    };
    Ok(Some((Item::Asm(call), after)))
}

// What stands behind a keyword; a call has this pointer.
fn item_behind<'a>(
    alloc: Global,
    keyword: Keyword,
    here: Cursor<'a>,
    ptr: AstPtr,
) -> Result<Option<(Item, Cursor<'a>)>, AllocError>
    ensures { Read (λ i. i) (item_behind ptr.node keyword) here.entry result }
{
    match keyword {
        Keyword::Opt => opt_item(alloc, here),
        Keyword::Version => version_item(alloc, here),
        Keyword::Limit => Ok(limit_item(here)),
        Keyword::NoLang => Ok(nolang_item(here)),
        Keyword::Macro => macro_item(alloc, here),
        Keyword::Cfg => Ok(Some(cfg_item(alloc, here)?)),
        Keyword::Attr => attr_item(alloc, here),
        Keyword::Format => format_item(alloc, here, ptr),
        Keyword::Asm => asm_item(alloc, here, ptr),
    }
}

// An item; a call has this pointer.
fn item<'a>(
    alloc: Global,
    here: Cursor<'a>,
    ptr: AstPtr,
) -> Result<Option<(Item, Cursor<'a>)>, AllocError>
    ensures { Read (λ i. i) (item ptr.node) here.entry result }
{
    let Some((name, behind)) = word(here) else {
        return Ok(None);
    };
    let Some(keyword) = keyword_of(name) else {
        return Ok(None);
    };
    item_behind(alloc, keyword, behind, ptr)
}

/// Reads the item that stands at the begin of a line, all tokens of the line, and returns it with the place behind the line; `None`
/// where none stands there. The pointer is that of the nodes of a call.
///
/// ```
/// let here = begin("opt unix\n");
/// let (item, end) = read_item(alloc, here, AstPtr { node: 0 })?.unwrap();
/// assert!(matches!(item, Item::Flag(_)));
/// assert_eq!(end.at, 9);
/// ```
pub fn read_item<'a>(
    alloc: Global,
    here: Cursor<'a>,
    ptr: AstPtr,
) -> Result<Option<(Item, Cursor<'a>)>, AllocError>
    ensures { IfOk result (λ o. option_map (λ r. (r.0, seen r.1)) o ≡ taken_at (item_of ptr.node) (seen here.entry)) }
{
    Ok(end_item(item(alloc, here, ptr)?))
}
