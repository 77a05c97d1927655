use script_grammar::read_pred;
use std::alloc::{AllocError, Global};
use std::test::Fail;
use syn_trees::{CfgAtomKey, CfgPredicate, StringLit};
use text_cut::begin;

// Adds a key, `true` and `false` in capitals.
fn show_key(key: &Option<CfgAtomKey>, out: &mut String) -> Result<(), AllocError> {
    match key {
        Some(CfgAtomKey::True) => out.push_str("TRUE"),
        Some(CfgAtomKey::False) => out.push_str("FALSE"),
        Some(CfgAtomKey::Ident(word)) => out.push_str(word.as_str()),
        None => Ok(()),
    }
}

// Adds a string token, where there is one.
fn show_string(string: &Option<StringLit>, out: &mut String) -> Result<(), AllocError> {
    match string {
        Some(literal) => out.push_str(literal.text()),
        None => Ok(()),
    }
}

// Adds a predicate: a key with its string, a keyword with its parts in `<` and `>`, or `VERSION` with its string.
#[cycle(showing)]
fn show(pred: &CfgPredicate, out: &mut String) -> Result<(), AllocError> {
    match pred {
        CfgPredicate::Atom { key, string } => {
            show_key(key, out)?;
            show_string(string, out)
        }
        CfgPredicate::Composite { keyword, parts } => {
            if let Some(word) = keyword {
                out.push_str(word.as_str())?;
            }
            show_all(parts.as_slice(), out)
        }
        CfgPredicate::Version(string) => {
            out.push_str("VERSION")?;
            show_string(string, out)
        }
    }
}

// Adds predicates in `<` and `>`, each with a space in front.
#[cycle(showing)]
fn show_all(preds: &[CfgPredicate], out: &mut String) -> Result<(), AllocError> {
    out.push('<')?;
    for pred in preds {
        out.push(' ')?;
        show(pred, out)?;
    }
    out.push('>')
}

// The predicate at the front of a short text, and what is left behind it; or `none`.
fn told(alloc: Global, text: &str) -> Result<String, AllocError> {
    let mut out = String::new(alloc);
    if text.len() > 1000 {
        return Ok(out);
    }
    let Some((pred, end)) = read_pred(alloc, begin(text))? else {
        return String::from_str(alloc, "none");
    };
    show(&pred, &mut out)?;
    out.push('|')?;
    out.push_str(end.rest)?;
    Ok(out)
}

// The example of `read_pred`.
#[test]
fn reads_a_predicate(rt: HostRuntime) -> Result<(), Fail> {
    let found = read_pred(rt.alloc(), begin("unix, a"))?;
    let (pred, end) = found.expect(&rt, "a flag");
    assert!(rt; matches!(pred, CfgPredicate::Atom { string: None, .. }));
    assert_eq!(rt; end.rest, ", a");
    Ok(())
}

#[test]
fn reads_predicates(rt: HostRuntime) -> Result<(), Fail> {
    let cases = [
        ("true", "TRUE|"),
        ("false, b", "FALSE|, b"),
        ("a b", "a| b"),
        ("a = \"x\"\n", "a\"x\"|\n"),
        ("a = x", "none"),
        ("all(a, not(b),)", "all< a not< b>>|"),
        ("any(true = \"x\", c = r\"\")", "any< TRUE\"x\" cr\"\">|"),
        ("version(\"1.2\")", "VERSION\"1.2\"|"),
        ("version(a)", "version< a>|"),
        ("version", "version|"),
        ("a()", "a<>|"),
        ("a(", "none"),
        ("a(,)", "none"),
        ("a(b,, c)", "none"),
        ("a(b c)", "none"),
        ("version(\"1\",)", "none"),
        ("(a)", "none"),
        ("", "none"),
    ];
    for (text, want) in cases {
        assert_eq!(rt; told(rt.alloc(), text)?.as_str(), want, "of {text}");
    }
    Ok(())
}
