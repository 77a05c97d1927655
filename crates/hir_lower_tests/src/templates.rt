ghost use Rattle.std.specs.Prelude.{IfOk, IsTrue};
ghost use Rattle.hir_store.specs.PartsBelow.{AllBelow};
ghost use Rattle.hir_fmt.specs.Arguments.{AreExplicit};
ghost use Rattle.hir_lower.specs.FormatArgs.{exprs_of};

use crate::calls::{ITEMS, SOMEWHERE, collector, format_call, lowered, printed};
use hir_expander::MacroTable;
use hir_fmt::{FormatArgs, FormatArgument, FormatArgumentKind, FormatArgumentsCollector, parse};
use hir_lower::ExprCollector;
use hir_store::ExprId;
use la_arena::RawIdx;
use silent_captures::Silent;
use std::alloc::{AllocError, Global};
use std::test::Fail;
use sym_core::Symbol;
use syn_trees::{FormatCall, StringLit};

// So many written arguments, which are the first expressions of a store.
fn written(alloc: Global, count: u32) -> Result<FormatArgumentsCollector, AllocError>
    ensures { IfOk result AreExplicit }
{
    let mut args = FormatArgumentsCollector::new(alloc);
    for node in 0..count {
        args.add(FormatArgument {
            kind: FormatArgumentKind::Normal,
            expr: ExprId {
                raw: RawIdx::from_u32(node),
            },
            syntax: Some(SOMEWHERE),
        })?;
    }
    Ok(args)
}

// The parsed template of a string token over so many written arguments.
fn parsed(alloc: Global, token: &str, count: u32) -> Result<FormatArgs, Fail> {
    let Some(literal) = StringLit::new(Symbol::new(alloc, token)?) else {
        return Err(Fail::new("no string token"));
    };
    let args = written(alloc, count)?;
    let mut captures = Silent::new();
    Ok(parse(alloc, &literal, SOMEWHERE, args, true, &mut captures)?)
}

// Whether the expressions of all these arguments are among the first so many.
fn have_place(limit: usize, args: &[FormatArgument]) -> bool
    ensures { IsTrue result → AllBelow limit (exprs_of args.now) }
{
    match args {
        [] => true,
        [first, rest @ ..] => {
            (first.expr.raw.into_u32() as usize) < limit && have_place(limit, rest)
        }
    }
}

// Whether all these expressions are among the first so many.
fn are_within(limit: usize, ids: &[ExprId]) -> bool
    ensures { IsTrue result → AllBelow limit ids.now }
{
    match ids {
        [] => true,
        [first, rest @ ..] => (first.raw.into_u32() as usize) < limit && are_within(limit, rest),
    }
}

// Whether all that a template refers to is among the first so many expressions.
fn fits(limit: usize, fmt: &FormatArgs) -> bool
    ensures arguments { IsTrue result → AllBelow limit (exprs_of fmt.now.arguments.arguments) }
    ensures orphans { IsTrue result → AllBelow limit fmt.now.orphans }
{
    have_place(limit, fmt.arguments.arguments.as_slice())
        && are_within(limit, fmt.orphans.as_slice())
}

// What is printed of a template that is lowered by itself, where all that it refers to is in the store.
fn printed_in(
    alloc: Global,
    collector: &mut ExprCollector,
    fmt: FormatArgs,
) -> Result<Vec<u8>, Fail> {
    let limit = collector.store().exprs.len();
    if !fits(limit, &fmt) {
        return Err(Fail::new("an argument is not in the store"));
    }
    let code = collector.collect_format_args_impl(alloc, SOMEWHERE, fmt)?;
    Ok(printed(alloc, collector.store(), code)?)
}

// What is printed of a template that is lowered by itself, behind an earlier call.
fn printed_behind(alloc: Global, earlier: &FormatCall, fmt: FormatArgs) -> Result<Vec<u8>, Fail> {
    let macros = MacroTable::new(alloc);
    let mut collector = collector(alloc, &macros, 128, ITEMS);
    collector.collect_format_args(alloc, earlier, &macros)?;
    printed_in(alloc, &mut collector, fmt)
}

// What is printed of a template over the leaves 1 and 2 of an earlier call, or the first of them.
fn printed_template(alloc: Global, token: &str, count: u32) -> Result<Vec<u8>, Fail> {
    let earlier = format_call(alloc, "\"\"", "1 2")?;
    let fmt = parsed(alloc, token, count)?;
    printed_behind(alloc, &earlier, fmt)
}

// What is printed of a whole call.
fn printed_call(alloc: Global, token: &str, words: &str) -> Result<Vec<u8>, Fail> {
    let call = format_call(alloc, token, words)?;
    let (_, printed) = lowered(alloc, &call)?;
    Ok(printed)
}

// A template that is lowered by itself gives the code of a call of it.
#[test]
fn lowers_templates(rt: HostRuntime) -> Result<(), Fail> {
    let cases = [
        (r#""hi""#, 0, "", "0 code Arguments::from_str(s\"6869\")\n"),
        (
            r#""{0}""#,
            0,
            "",
            "0 code unsafe { Arguments::new(b\"C000\", &[]) }\n",
        ),
        (
            r#""{:.*}""#,
            2,
            "1 2",
            "0 code { let #0 = (&@1, &@2); let #0 = [Argument::new_display(#0.1), Argument::from_usize(#0.0)]; unsafe { Arguments::new(b\"E520000070010000\", &#0) } }\n",
        ),
        (
            r#""{}""#,
            2,
            "1 2",
            "0 code { let #0 = (&@1, &@2); let #0 = [Argument::new_display(#0.0)]; @2; unsafe { Arguments::new(b\"C000\", &#0) } }\n",
        ),
    ];
    for (token, count, words, want) in cases {
        let call = printed_call(rt.alloc(), token, words)?;
        assert_eq!(rt; call.as_slice(), want.as_bytes(), "the call of {token}");
        let template = printed_template(rt.alloc(), token, count)?;
        assert_eq!(rt;
            template.as_slice(),
            want.as_bytes(),
            "the template {token}"
        );
    }
    Ok(())
}
