ghost use Rattle.std.specs.Prelude.{◌≤◌};

use std::alloc::{AllocError, Global};
use std::test::Fail;
use sym_core::{Symbol, TextRange};
use syn_trees::{EscapeError, StringLit};

// The literal of a token, if it is one.
fn literal(alloc: Global, token: &str) -> Result<Option<StringLit>, AllocError> {
    Ok(StringLit::new(Symbol::new(alloc, token)?))
}

#[test]
fn reads_a_literal(rt: HostRuntime) -> Result<(), Fail> {
    let alloc = rt.alloc();
    let token = "\"a\\x41\"";
    let literal = literal(alloc, token)?.expect(&rt, "a string token");
    assert_eq!(rt; literal.text(), token, "the whole token");
    assert_eq!(rt; literal.value(alloc)?.as_str(), "aA", "what it stands for");
    assert_eq!(rt; literal.quote_offsets(), TextRange { start: 1, end: 6 });
    assert!(rt; !literal.is_plain(), "it has an escape");
    Ok(())
}

// The range between the quotes, whether the literal is plain, and its value or `Escape`.
fn told(alloc: Global, token: &str) -> Result<String, AllocError> {
    let Some(literal) = literal(alloc, token)? else {
        return String::from_str(alloc, "no token");
    };
    let range = literal.quote_offsets();
    let kind = if literal.is_plain() {
        "plain"
    } else {
        "escaped"
    };
    match literal.value(alloc) {
        Ok(value) => format!(in alloc; "{}..{} {kind} {value}", range.start, range.end),
        Err(EscapeError::Escape) => format!(in alloc;
            "{}..{} {kind} Escape",
            range.start, range.end
        ),
        Err(EscapeError::Memory(refused)) => Err(refused),
    }
}

#[test]
fn reads_literals(rt: HostRuntime) -> Result<(), Fail> {
    let cases = [
        ("\"\"", "1..1 plain "),
        ("\"net\"", "1..4 plain net"),
        ("\"é\"", "1..3 plain é"),
        ("\"a\\x41\"", "1..6 escaped aA"),
        ("\"\\q\"", "1..3 escaped Escape"),
        ("\"\\\"\"", "1..3 escaped \""),
        ("\"a\nb\"", "1..4 plain a\nb"),
        ("r\"\"", "2..2 plain "),
        ("r\"\\q\"", "2..4 plain \\q"),
        ("r#\"a\"b\"#", "3..6 plain a\"b"),
        ("r##\"a\"#b\"##", "4..8 plain a\"#b"),
    ];
    for (token, want) in cases {
        assert_eq!(rt; told(rt.alloc(), token)?.as_str(), want, "of {token}");
    }
    Ok(())
}

#[test]
fn refuses_other_texts(rt: HostRuntime) -> Result<(), Fail> {
    let cases = [
        "",
        "\"",
        "net",
        "\"a",
        "\"a\"b",
        "\"a\"\"",
        "\"\\\"",
        "'a'",
        "b\"a\"",
        " \"a\"",
        "r",
        "r\"a",
        "r#\"a\"",
        "r\"a\"#",
        "r#\"a\"#\"#",
        "r#a#",
    ];
    for token in cases {
        assert!(rt;
            literal(rt.alloc(), token)?.is_none(),
            "{token} is no token"
        );
    }
    Ok(())
}

// What is told of a raw token with so many `#`.
fn told_of_marks(alloc: Global, count: usize) -> Result<String, AllocError>
    requires { count ≤ 256 }
{
    let marks = "#".repeat(alloc, count)?;
    let token = format!(in alloc; "r{marks}\"a\"{marks}")?;
    told(alloc, token.as_str())
}

#[test]
fn counts_marks(rt: HostRuntime) -> Result<(), Fail> {
    let most = told_of_marks(rt.alloc(), 255)?;
    assert_eq!(rt; most.as_str(), "257..258 plain a");
    let more = told_of_marks(rt.alloc(), 256)?;
    assert_eq!(rt; more.as_str(), "no token");
    Ok(())
}

#[test]
fn copies_the_token(rt: HostRuntime) -> Result<(), Fail> {
    let token = "r#\"a\"b\"#";
    let Some(original) = literal(rt.alloc(), token)? else {
        panic!(rt; "{token} is a token");
    };
    let copy = original.clone()?;
    assert_eq!(rt; original.text(), token);
    assert_eq!(rt; copy.text(), token);
    assert_eq!(rt;
        format!(in rt.alloc(); "{copy:?}")?.as_str(),
        "\"r#\\\"a\\\"b\\\"#\""
    );
    Ok(())
}
