ghost use Rattle.std.specs.Prelude.{◌<◌, length};
ghost use Rattle.hir_store.specs.Store.{NoDanglingIds};
ghost use Rattle.hir_store.specs.Unfolding.{place_of};

use hir_expander::{MAX_RECURSION_LIMIT, MacroTable};
use hir_lower::{ExprCollector, Outcome};
use hir_store::{ExprId, ExpressionStore, LangItems};
use printer::print_outcomes;
use ra_cfg::CfgOptions;
use sqlite_items::Items;
use std::alloc::{AllocError, Global};
use std::test::Fail;
use sym_core::{AstPtr, FileId, Symbol};
use syn_trees::{FormatArgSyntax, FormatCall, LeafSyntax, MacroCallSrc, StringLit, Template};

/// Where parts of a call stand does not matter here.
pub(crate) const SOMEWHERE: AstPtr = AstPtr { node: 0 };

/// Both language items.
pub(crate) const ITEMS: LangItems = LangItems {
    format_arguments: true,
    format_argument: true,
};

/// A string token, a word with `!` for the call of a macro, or any other expression.
pub(crate) fn template(alloc: Global, text: &str) -> Result<Template, AllocError> {
    if let Some(name) = text.strip_suffix('!') {
        let path = Some(Symbol::new(alloc, name)?);
        return Ok(Template::Macro(MacroCallSrc { path }));
    }
    Ok(match StringLit::new(Symbol::new(alloc, text)?) {
        Some(literal) => Template::Str(literal),
        None => Template::Other,
    })
}

// Enters a macro with what it expands to.
fn define(alloc: Global, table: &mut MacroTable, name: &str, body: &str) -> Result<(), AllocError> {
    let name = Symbol::new(alloc, name)?;
    let body = template(alloc, body)?;
    if table.len() < 4_294_967_295 {
        table.define(name, Some(body))?;
    }
    Ok(())
}

/// Macros that lead to texts, and one that leads to itself.
pub(crate) fn some_macros(alloc: Global) -> Result<MacroTable, AllocError> {
    let bodies = [
        ("m1", "m2!"),
        ("m2", "m3!"),
        ("m3", "\"hi\""),
        ("again", "again!"),
        ("name", "\"{x}\""),
    ];
    let mut table = MacroTable::new(alloc);
    for (name, body) in bodies {
        define(alloc, &mut table, name, body)?;
    }
    Ok(table)
}

// The leaf of the number that a word spells; no expression where it spells none.
fn leaf(word: &str) -> Option<LeafSyntax> {
    match word.parse::<u32>() {
        Ok(leaf) => Some(LeafSyntax {
            leaf,
            ptr: SOMEWHERE,
        }),
        Err(_) => None,
    }
}

// The argument that a word spells: `1`, `x=1`, and without an expression `?`, `x=?`.
fn argument(alloc: Global, word: &str) -> Result<FormatArgSyntax, AllocError> {
    match word.split_once('=') {
        Some((name, number)) => Ok(FormatArgSyntax {
            name: Some(Symbol::new(alloc, name)?),
            expr: leaf(number),
        }),
        None => Ok(FormatArgSyntax {
            name: None,
            expr: leaf(word),
        }),
    }
}

// The arguments that words spell.
fn arguments(alloc: Global, words: &str) -> Result<Items<FormatArgSyntax>, AllocError> {
    let mut args = Items::new(alloc);
    for word in words.split_whitespace() {
        args.push(argument(alloc, word)?)?;
    }
    Ok(args)
}

/// A call with this template, which is absent where the text is empty, and these arguments.
pub(crate) fn format_call(
    alloc: Global,
    text: &str,
    words: &str,
) -> Result<FormatCall, AllocError> {
    let template = if text.is_empty() {
        None
    } else {
        Some(template(alloc, text)?)
    };
    Ok(FormatCall {
        template,
        template_ptr: SOMEWHERE,
        args: arguments(alloc, words)?,
        ptr: SOMEWHERE,
    })
}

/// A collector of the first file.
pub(crate) fn collector(
    alloc: Global,
    macros: &MacroTable,
    limit: u32,
    items: LangItems,
) -> ExprCollector {
    let limit = limit.min(MAX_RECURSION_LIMIT);
    ExprCollector::new(alloc, macros, FileId { raw: 0 }, limit, items)
}

/// How many expressions a call places that is lowered by itself, and what is printed of it.
pub(crate) fn lowered(alloc: Global, call: &FormatCall) -> Result<(usize, Vec<u8>), Fail> {
    let macros = MacroTable::new(alloc);
    let mut collector = collector(alloc, &macros, 128, ITEMS);
    let code = collector.collect_format_args(alloc, call, &macros)?;
    let printed = printed(alloc, collector.store(), code)?;
    Ok((collector.store().exprs.len(), printed))
}

/// What is printed of code in a store.
pub(crate) fn printed(
    alloc: Global,
    store: &ExpressionStore,
    code: ExprId,
) -> Result<Vec<u8>, AllocError>
    requires no_dangling { NoDanglingIds store.now }
    requires within { place_of code < length store.now.exprs }
{
    let options = CfgOptions::new(alloc)?;
    print_outcomes(alloc, store, &options, &[Outcome::Code(code)])
}
