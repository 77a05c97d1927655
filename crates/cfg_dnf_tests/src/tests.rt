use cfg_dnf::{DnfExpr, InactiveReason, NumberedHint};
use ra_cfg::{CfgAtom, CfgExpr, CfgOptions};
use script_grammar::read_trees;
use sqlite_items::Items;
use std::alloc::{AllocError, Global};
use std::test::Fail;
use sym_core::Symbol;
use syn_trees::TopSubtree;
use text_cut::begin;

// The flag of this name.
fn flag(alloc: Global, name: &str) -> Result<CfgAtom, AllocError> {
    Ok(CfgAtom::Flag(Symbol::new(alloc, name)?))
}

// Options with the flags of these names, which have blanks between.
fn options_with(alloc: Global, names: &str) -> Result<CfgOptions, AllocError> {
    let mut flags = Vec::new(alloc);
    for name in names.split_whitespace() {
        flags.push(flag(alloc, name)?)?;
    }
    CfgOptions::from_iter(alloc, flags)
}

// The first predicate of a text.
fn predicate(alloc: Global, text: &str) -> Result<CfgExpr, AllocError> {
    if text.len() > 4_294_967_295 {
        return Ok(CfgExpr::Invalid);
    }
    let (trees, _end) = read_trees(alloc, begin(text))?;
    CfgExpr::parse(alloc, &TopSubtree { trees })
}

// The reason in words, behind how many atoms it has of each kind.
fn told(alloc: Global, reason: &InactiveReason) -> Result<String, AllocError> {
    let (on, off) = (reason.enabled().len(), reason.disabled().len());
    format!(in alloc; "{on} {off}: {reason}")
}

// Why the predicate is off where these flags are set.
fn reason(alloc: Global, text: &str, names: &str) -> Result<String, AllocError> {
    let options = options_with(alloc, names)?;
    let dnf = DnfExpr::new(alloc, &predicate(alloc, text)?)?;
    match dnf.why_inactive(alloc, &options)? {
        Some(reason) => told(alloc, &reason),
        None => format!(in alloc; "none"),
    }
}

// The hints of the predicate where these flags are set, each in brackets.
fn hints(alloc: Global, text: &str, names: &str) -> Result<String, AllocError> {
    let options = options_with(alloc, names)?;
    let dnf = DnfExpr::new(alloc, &predicate(alloc, text)?)?;
    let mut told = String::new(alloc);
    for hint in dnf.compute_enable_hints(alloc, &options) {
        let hint = hint?;
        let words = format!(in alloc; "[{hint}]")?;
        told.push_str(words.as_str())?;
    }
    Ok(told)
}

#[test]
fn reasons_have_the_false_literals(rt: HostRuntime) -> Result<(), Fail> {
    let cases = [
        ("any ( )", "", "0 0: "),
        ("all ( )", "", "none"),
        ("a", "a", "none"),
        ("false", "", "0 1: false is disabled"),
        ("not ( a , b )", "a", "1 0: a is enabled"),
        (
            "all ( a , not ( b ) )",
            "b",
            "1 1: b is enabled and a is disabled",
        ),
        (
            "all ( any ( a , b ) , c )",
            "",
            "0 3: a, b and c are disabled",
        ),
        ("not ( any ( a , b ) )", "a b", "2 0: a and b are enabled"),
        ("all ( a , not ( a ) )", "", "0 1: a is disabled"),
        ("all ( a , any ( ) )", "", "0 0: "),
        ("all ( a , 5 )", "", "none"),
    ];
    for (text, names, want) in cases {
        let got = reason(rt.alloc(), text, names)?;
        assert!(rt; got.as_str() == want, "{text} with {names}: {got}");
    }
    Ok(())
}

#[test]
fn hints_switch_conjunctions_on(rt: HostRuntime) -> Result<(), Fail> {
    let cases = [
        ("any ( )", "", ""),
        ("all ( )", "", ""),
        ("false", "", ""),
        ("all ( not ( true ) , a )", "", ""),
        ("any ( a , true )", "", "[enable a]"),
        ("not ( a , b )", "a", "[disable a]"),
        ("all ( a , not ( b ) )", "b", "[enable a; disable b]"),
        (
            "all ( any ( a , b ) , c )",
            "",
            "[enable a and c][enable b and c]",
        ),
        (
            "all ( any ( a , b ) , any ( b , c ) )",
            "",
            "[enable a and b][enable a and c][enable b][enable b and c]",
        ),
        ("not ( all ( a , b ) )", "a b", "[disable a][disable b]"),
        ("all ( a , not ( a ) )", "", ""),
        ("any ( all ( a , 5 ) , b )", "", "[enable b]"),
    ];
    for (text, names, want) in cases {
        let got = hints(rt.alloc(), text, names)?;
        assert!(rt; got.as_str() == want, "{text} with {names}: {got}");
    }
    Ok(())
}

// The predicate as its conjunctions.
fn text(alloc: Global, words: &str) -> Result<Symbol, AllocError> {
    DnfExpr::new(alloc, &predicate(alloc, words)?)?.text(alloc)
}

#[test]
fn conjunctions_are_written(rt: HostRuntime) -> Result<(), Fail> {
    let cases = [
        ("any ( )", "any()"),
        ("all ( )", "all()"),
        ("a", "a"),
        ("not ( a )", "not(a)"),
        ("any ( a )", "a"),
        ("all ( any ( a , b ) , c )", "any(all(a, c), all(b, c))"),
        ("not ( any ( a , b ) )", "all(not(a), not(b))"),
        ("any ( all ( ) , 5 )", "any(all(), <invalid>)"),
        ("not ( version ( 5 ) )", "not(version(\"5\"))"),
    ];
    for (words, want) in cases {
        let got = text(rt.alloc(), words)?;
        assert!(rt; got.as_str() == want, "{words}: {got}");
    }
    Ok(())
}

// The first hint of the predicate, where no flag is set.
fn first_hint(alloc: Global, text: &str) -> Result<String, AllocError> {
    let options = CfgOptions::new(alloc)?;
    let dnf = DnfExpr::new(alloc, &predicate(alloc, text)?)?;
    match dnf.compute_enable_hints(alloc, &options).next() {
        Some(hint) => {
            let hint = hint?;
            format!(in alloc; "{hint}")
        }
        None => format!(in alloc; "none"),
    }
}

#[test]
fn many_conjunctions_are_not_gone_through(rt: HostRuntime) -> Result<(), Fail> {
    let parts = "any ( a , b ) , ".repeat(rt.alloc(), 40)?;
    let text = format!(in rt.alloc(); "all ( {parts} )")?;
    assert!(rt; first_hint(rt.alloc(), text.as_str())?.as_str() == "enable a");
    assert!(rt; reason(rt.alloc(), text.as_str(), "")?.as_str() == "0 2: a and b are disabled");
    Ok(())
}

// The first hint from this number on, behind its number, where these flags are set.
fn numbered_hint(
    alloc: Global,
    text: &str,
    names: &str,
    number: u64,
) -> Result<String, AllocError> {
    let options = options_with(alloc, names)?;
    let dnf = DnfExpr::new(alloc, &predicate(alloc, text)?)?;
    match dnf.hint_from(alloc, &options, number)? {
        Some(NumberedHint { number, hint }) => format!(in alloc; "{number} {hint}"),
        None => format!(in alloc; "none"),
    }
}

#[test]
fn hints_are_found_by_number(rt: HostRuntime) -> Result<(), Fail> {
    let cases = [
        ("all ( any ( a , b ) , c )", "", 0, "0 enable a and c"),
        ("all ( any ( a , b ) , c )", "", 1, "1 enable b and c"),
        ("all ( any ( a , b ) , c )", "", 2, "none"),
        ("any ( all ( a , not ( a ) ) , b )", "", 0, "1 enable b"),
        ("any ( true , false , a )", "", 0, "2 enable a"),
        ("any ( all ( any ( ) , a ) , b )", "", 0, "0 enable b"),
        ("not ( all ( a , b ) )", "a b", 1, "1 disable b"),
        ("a", "a", 0, "none"),
        ("any ( )", "", 0, "none"),
    ];
    for (text, names, number, want) in cases {
        let got = numbered_hint(rt.alloc(), text, names, number)?;
        assert!(rt; got.as_str() == want, "{text} from {number}: {got}");
    }
    Ok(())
}

// `all` of `any(c, d)` and so many `any(a, b)`.
fn choices(alloc: Global, parts: usize) -> Result<String, AllocError> {
    let parts = "any ( a , b ) , ".repeat(alloc, parts)?;
    format!(in alloc; "all ( any ( c , d ) , {parts} )")
}

#[test]
fn large_numbers_are_not_counted_up_to(rt: HostRuntime) -> Result<(), Fail> {
    let cases = [
        (39, 549_755_813_887, "549755813887 enable b and c"),
        (39, 549_755_813_888, "549755813888 enable a and d"),
        (39, 1_099_511_627_776, "none"),
        (39, u64::MAX, "none"),
        (
            63,
            9_223_372_036_854_775_808,
            "9223372036854775808 enable a and d",
        ),
        (
            70,
            9_223_372_036_854_775_808,
            "9223372036854775808 enable a, b and c",
        ),
        (70, u64::MAX, "none"),
    ];
    for (parts, number, want) in cases {
        let text = choices(rt.alloc(), parts)?;
        let got = numbered_hint(rt.alloc(), text.as_str(), "", number)?;
        assert!(rt; got.as_str() == want, "{parts} parts from {number}: {got}");
    }
    Ok(())
}

// How many hints `any` of so many flags has, where none is set.
fn hint_count(alloc: Global, flags: usize) -> Result<usize, AllocError> {
    let mut parts = Items::new(alloc);
    for _ in 0..flags {
        parts.push(CfgExpr::Atom(flag(alloc, "a")?))?;
    }
    let options = CfgOptions::new(alloc)?;
    let dnf = DnfExpr::new(alloc, &CfgExpr::Any(parts))?;
    let mut seen = 0_usize;
    for hint in dnf.compute_enable_hints(alloc, &options) {
        let _hint = hint?;
        seen = seen.saturating_add(1);
    }
    Ok(seen)
}

#[test]
fn a_million_flags_have_a_million_hints(rt: HostRuntime) -> Result<(), Fail> {
    assert!(rt; hint_count(rt.alloc(), 1_000_000)? == 1_000_000);
    Ok(())
}
