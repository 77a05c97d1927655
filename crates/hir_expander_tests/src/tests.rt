ghost use Rattle.std.specs.Prelude.{◌≡◌, ◌<◌, false};
ghost use Rattle.hir_expander.specs.Machine.{is_macro};

use hir_expander::{ExpandError, ExpandResult, Expander, MAX_RECURSION_LIMIT, MacroTable, Macros};
use ra_cfg::{CfgAtom, CfgExpr, CfgOptions};
use std::alloc::{AllocError, Global};
use std::test::Fail;
use sym_core::{FileId, HirFileId, MacroCallId, Symbol};
use syn_trees::{MacroCallSrc, StringLit, Template};

// The call of the macro of this name; a call without a path where the name is empty.
fn call(alloc: Global, name: &str) -> Result<MacroCallSrc, AllocError> {
    let path = if name.is_empty() {
        None
    } else {
        Some(Symbol::new(alloc, name)?)
    };
    Ok(MacroCallSrc { path })
}

// A string token, a word with `!` for the call of a macro, or any other expression.
fn template(alloc: Global, text: &str) -> Result<Template, AllocError> {
    if let Some(name) = text.strip_suffix('!') {
        return Ok(Template::Macro(call(alloc, name)?));
    }
    Ok(match StringLit::new(Symbol::new(alloc, text)?) {
        Some(literal) => Template::Str(literal),
        None => Template::Other,
    })
}

// Enters a macro, unless the table is full.
fn define(
    alloc: Global,
    table: &mut MacroTable,
    name: &str,
    body: Option<Template>,
) -> Result<(), AllocError> {
    let name = Symbol::new(alloc, name)?;
    if table.len() < 4_294_967_295 {
        table.define(name, body)?;
    }
    Ok(())
}

// Macros with what each of them expands to.
fn table(alloc: Global, macros: &[(&str, &str)]) -> Result<MacroTable, AllocError> {
    let mut table = MacroTable::new(alloc);
    for (name, body) in macros {
        let body = template(alloc, body)?;
        define(alloc, &mut table, name, Some(body))?;
    }
    Ok(table)
}

fn first_file() -> HirFileId
    ensures { is_macro result ≡ false }
{
    HirFileId::File(FileId { raw: 0 })
}

// What comes of entering a call; an expansion that was entered is left at once.
fn told_of(expander: &mut Expander, macros: &MacroTable, call: &MacroCallSrc) -> &'static str
    ensures deep { 0 < expander.old.depth → 0 < expander.new.depth }
{
    let Ok(entry) = expander.enter_expand(macros, call) else {
        return "unresolved";
    };
    let ExpandResult { value, err } = entry;
    if let Some((mark, _)) = value {
        expander.exit(mark);
        return "entered";
    }
    match err {
        None => "skipped",
        Some(ExpandError::Malformed) => "malformed",
        Some(ExpandError::RecursionOverflow) => "overflow",
    }
}

#[test]
fn an_overflow_ends_outside_of_all_macros(rt: HostRuntime) -> Result<(), Fail> {
    let macros = table(rt.alloc(), &[("m1", "m2!"), ("m2", "\"hi\"")])?;
    let first = call(rt.alloc(), "m1")?;
    let second = call(rt.alloc(), "m2")?;
    let mut expander = Expander::new(&macros, first_file(), 0, 0);
    let Ok(entry) = expander.enter_expand(&macros, &first) else {
        return Err(Fail::new("m1 is found"));
    };
    let ExpandResult { value, err } = entry;
    assert!(rt; err.is_none());
    let Some((mark, _)) = value else {
        return Err(Fail::new("m1 is entered"));
    };
    let depth = expander.macro_depth();
    let deep = told_of(&mut expander, &macros, &second);
    let overflow = expander.macro_depth();
    let silent = told_of(&mut expander, &macros, &second);
    expander.exit(mark);
    assert_eq!(rt; (depth, deep), (1, "overflow"));
    assert_eq!(rt; (overflow, silent), (4_294_967_295, "skipped"));
    assert_eq!(rt; expander.macro_depth(), 0);
    Ok(())
}

#[test]
fn calls_are_entered_where_they_can_be(rt: HostRuntime) -> Result<(), Fail> {
    let macros = table(rt.alloc(), &[("m", "\"hi\"")])?;
    let mut expander = Expander::new(&macros, first_file(), 1, 1);
    let cases = [
        ("m", "entered"),
        ("n", "unresolved"),
        ("", "malformed"),
        ("m", "entered"),
    ];
    for (name, want) in cases {
        let call = call(rt.alloc(), name)?;
        assert_eq!(rt; told_of(&mut expander, &macros, &call), want, "{name}");
    }
    Ok(())
}

// The token that a template reaches in a file with this recursion limit, and whether it is that template itself.
fn reached(
    alloc: Global,
    macros: &MacroTable,
    limit: u32,
    text: &str,
) -> Result<String, AllocError> {
    let from = template(alloc, text)?;
    let mut expander = Expander::new(macros, first_file(), 0, limit.min(MAX_RECURSION_LIMIT));
    match expander.expand_macros_to_string(macros, &from) {
        Some((literal, direct)) => {
            let token = literal.text();
            format!(in alloc; "{token} {direct}")
        }
        None => String::from_str(alloc, "nothing"),
    }
}

#[test]
fn literals_are_reached_through_macros(rt: HostRuntime) -> Result<(), Fail> {
    let macros = table(
        rt.alloc(),
        &[
            ("m1", "m2!"),
            ("m2", "\"hi\""),
            ("again", "again!"),
            ("other", "1 + 1"),
            ("lost", "none!"),
            ("m3", "m1!"),
        ],
    )?;
    let cases = [
        (0, "\"a\"", "\"a\" true"),
        (0, "m2!", "\"hi\" false"),
        (0, "m1!", "nothing"),
        (1, "m1!", "\"hi\" false"),
        (1, "m3!", "nothing"),
        (2, "m3!", "\"hi\" false"),
        (128, "again!", "nothing"),
        (128, "other!", "nothing"),
        (128, "lost!", "nothing"),
        (128, "!", "nothing"),
        (128, "1 + 1", "nothing"),
    ];
    for (limit, text, want) in cases {
        assert_eq!(rt;
            reached(rt.alloc(), &macros, limit, text)?.as_str(),
            want,
            "{text} under {limit}"
        );
    }
    Ok(())
}

#[test]
fn a_later_definition_takes_the_place_of_an_earlier_one(rt: HostRuntime) -> Result<(), Fail> {
    let macros = table(
        rt.alloc(),
        &[("m", "\"a\""), ("n", "\"b\""), ("m", "\"c\"")],
    )?;
    assert_eq!(rt; (macros.len(), macros.is_empty()), (2, false));
    assert!(rt; MacroTable::new(rt.alloc()).is_empty());
    let id = macros.resolve(first_file(), &call(rt.alloc(), "m")?);
    assert_eq!(rt; id, Some(MacroCallId { raw: 0 }));
    assert_eq!(rt;
        reached(rt.alloc(), &macros, 0, "m!")?.as_str(),
        "\"c\" false"
    );
    assert!(rt; macros.expansion(MacroCallId { raw: 2 }).is_none());
    let maps = macros.maps(first_file());
    assert_eq!(rt; (maps.span_map, maps.ast_id_map), (0, 0));
    Ok(())
}

// The macros `m0`, `m1` and so on, without anything that they expand to.
fn numbered(alloc: Global, count: u32) -> Result<MacroTable, AllocError> {
    let mut macros = MacroTable::new(alloc);
    for number in 0..count {
        let name = format!(in alloc; "m{number}")?;
        define(alloc, &mut macros, name.as_str(), None)?;
    }
    Ok(macros)
}

// Whether each of the names `m0`, `m1` and so on resolves to its number.
fn are_resolved(alloc: Global, macros: &MacroTable, count: u32) -> Result<bool, AllocError> {
    for raw in 0..count {
        let name = format!(in alloc; "m{raw}")?;
        let call = call(alloc, name.as_str())?;
        if macros.resolve(first_file(), &call) != Some(MacroCallId { raw }) {
            return Ok(false);
        }
    }
    Ok(true)
}

#[test]
fn a_million_names_are_found_by_their_hash(rt: HostRuntime) -> Result<(), Fail> {
    let macros = numbered(rt.alloc(), 1_000_000)?;
    assert_eq!(rt; macros.len(), 1_000_000);
    assert!(rt; are_resolved(rt.alloc(), &macros, 1_000_000)?);
    Ok(())
}

#[test]
fn the_first_predicate_that_is_false_switches_off(rt: HostRuntime) -> Result<(), Fail> {
    let macros = MacroTable::new(rt.alloc());
    let expander = Expander::new(&macros, first_file(), 0, 128);
    let options = CfgOptions::new(rt.alloc())?;
    let on = CfgExpr::from(CfgAtom::Flag(Symbol::new(rt.alloc(), "true")?));
    let off = CfgExpr::from(CfgAtom::Flag(Symbol::new(rt.alloc(), "windows")?));
    let cfgs = [CfgExpr::Invalid, on, off];
    assert!(rt; expander.is_cfg_enabled(&cfgs[..2], &options).is_ok());
    assert!(rt;
        expander
            .is_cfg_enabled(&cfgs, &options)
            .is_err_and(|cfg| *cfg == cfgs[2])
    );
    Ok(())
}
