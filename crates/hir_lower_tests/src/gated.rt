use crate::calls;
use crate::calls::{ITEMS, collector, format_call, some_macros};
use hir_lower::{Call, GatedCall};
use printer::print_outcomes;
use ra_cfg::{CfgAtom, CfgExpr, CfgOptions};
use sqlite_items::Items;
use std::alloc::{AllocError, Global};
use std::test::Fail;
use sym_core::Symbol;

// Sets a flag.
fn set(alloc: Global, options: &mut CfgOptions, flag: &str) -> Result<(), AllocError> {
    let flag = Symbol::new(alloc, flag)?;
    options.insert_atom(flag)?;
    Ok(())
}

// Options with these flags.
fn options_with(alloc: Global, flags: &str) -> Result<CfgOptions, AllocError> {
    let mut options = CfgOptions::new(alloc)?;
    for flag in flags.split_whitespace() {
        set(alloc, &mut options, flag)?;
    }
    Ok(options)
}

// A predicate for each of these flags.
fn predicates(alloc: Global, flags: &str) -> Result<Items<CfgExpr>, AllocError> {
    let mut cfgs = Items::new(alloc);
    for flag in flags.split_whitespace() {
        cfgs.push(CfgExpr::Atom(CfgAtom::Flag(Symbol::new(alloc, flag)?)))?;
    }
    Ok(cfgs)
}

// A call under predicates that are these flags.
fn gated(alloc: Global, flags: &str, text: &str, words: &str) -> Result<GatedCall, AllocError> {
    let format = format_call(alloc, text, words)?;
    let cfgs = predicates(alloc, flags)?;
    Ok(GatedCall {
        cfgs,
        call: Call::Format(format),
    })
}

// A call for each row: its flags, its text, and the words of its arguments.
fn gated_calls(alloc: Global, rows: &[(&str, &str, &str)]) -> Result<Vec<GatedCall>, AllocError> {
    let mut calls = Vec::new(alloc);
    for (flags, text, words) in rows {
        let call = gated(alloc, flags, text, words)?;
        calls.push(call)?;
    }
    Ok(calls)
}

// How many expressions the calls of rows place, and what is printed of them, where `unix` and `test` are on, and the
// recursion limit is 1.
fn lowered(alloc: Global, rows: &[(&str, &str, &str)]) -> Result<(usize, Vec<u8>), Fail> {
    let options = options_with(alloc, "unix test")?;
    let macros = some_macros(alloc)?;
    let calls = gated_calls(alloc, rows)?;
    let mut collector = collector(alloc, &macros, 1, ITEMS);
    let outcomes = collector.collect_gated(alloc, calls.as_slice(), &options, &macros)?;
    let store = collector.store();
    let printed = print_outcomes(alloc, store, &options, outcomes.as_slice())?;
    Ok((store.exprs.len(), printed))
}

// A call by itself, without predicates.
#[test]
fn lowers_a_call(rt: HostRuntime) -> Result<(), Fail> {
    let call = format_call(rt.alloc(), r#""{} {x}""#, "1 x=2")?;
    let (_, printed) = calls::lowered(rt.alloc(), &call)?;
    let want =
        "0 code { let #0 = (&@1, &@2); let #0 = [Argument::new_display(#0.0), Argument::new_display(#0.1)]; unsafe { Arguments::new(b\"C00120C000\", &#0) } }\n0 use x 5..6\n";
    assert_eq!(rt; printed.as_slice(), want.as_bytes());
    Ok(())
}

#[test]
fn lowers_no_calls(rt: HostRuntime) -> Result<(), Fail> {
    let (placed, printed) = lowered(rt.alloc(), &[])?;
    assert_eq!(rt; placed, 0);
    assert!(rt; printed.is_empty());
    Ok(())
}

#[test]
fn places_nothing_for_calls_that_are_off(rt: HostRuntime) -> Result<(), Fail> {
    let rows = [
        ("windows", r#""{0:02x}""#, "2"),
        ("unix windows", r#""{}""#, "1"),
    ];
    let (placed, printed) = lowered(rt.alloc(), &rows)?;
    assert_eq!(rt; placed, 0);
    assert_eq!(rt;
        printed.as_slice(),
        b"0 off\n0 reason windows is disabled\n0 hint enable windows\n1 off\n1 reason windows is disabled\n1 hint enable windows\n".as_slice()
    );
    Ok(())
}

// Each call that binds its arguments has a name of its own for them; other calls take none. A call whose macros lie too deep
// leaves the next one untouched.
#[test]
fn lowers_calls_in_order(rt: HostRuntime) -> Result<(), Fail> {
    let rows = [
        ("", r#""{:5}""#, "7"),
        ("windows", r#""{}""#, "2"),
        ("unix test", r#""{0}""#, ""),
        ("true", r#""{x}""#, ""),
        ("", "m1!", "1"),
        ("", "m2!", ""),
    ];
    let (placed, printed) = lowered(rt.alloc(), &rows)?;
    assert!(rt; placed > 0);
    let want =
        "0 code { let #0 = (&@7,); let #0 = [Argument::new_display(#0.0)]; unsafe { Arguments::new(b\"C320000068050000\", &#0) } }\n1 off\n1 reason windows is disabled\n1 hint enable windows\n2 code unsafe { Arguments::new(b\"C000\", &[]) }\n3 code { let #1 = (&x,); let #1 = [Argument::new_display(#1.0)]; unsafe { Arguments::new(b\"C000\", &#1) } }\n3 use x 2..3\n4 code { @1; Arguments::from_str(s\"\") }\n5 code Arguments::from_str(s\"6869\")\n";
    assert_eq!(rt; printed.as_slice(), want.as_bytes());
    Ok(())
}
