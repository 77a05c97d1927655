use super::*;
use ra_cfg::CfgExpr;
use std::alloc::{AllocError, Global};
use std::test::Fail;

// What a predicate reads, as a word.
fn word_of(reads: Option<bool>) -> &'static str {
    match reads {
        Some(true) => "true",
        Some(false) => "false",
        None => "open",
    }
}

// What is told of a predicate: what it reads, then the reason and the first hint from a number on, where there are such.
fn told(alloc: Global, query: &CfgQuery, number: u64) -> Result<String, AllocError> {
    let mut out = String::from_str(alloc, word_of(query.check()))?;
    if let Some(reason) = query.reason(alloc)? {
        out.push_str(format!(in alloc; ", {reason}")?.as_str())?;
    }
    if let Some(found) = query.hint_from(alloc, number)? {
        let number = found.number;
        let hint = found.hint;
        out.push_str(format!(in alloc; ", {number} {hint}")?.as_str())?;
    }
    Ok(out)
}

#[test]
fn answers_questions(rt: HostRuntime) -> Result<(), Fail> {
    let cases = [
        (
            "opt unix",
            "all(unix, std)",
            0,
            "false, std is disabled, 0 enable std",
        ),
        ("opt unix", "all(unix, std)", 1, "false, std is disabled"),
        ("opt unix", "unix", 0, "true"),
        (
            "",
            "any(all(a, b), c)",
            1,
            "false, a, b and c are disabled, 1 enable c",
        ),
        (
            "opt a\ncfg b\nformat \"x\"\n",
            "not(a)",
            0,
            "false, a is enabled, 0 disable a",
        ),
        ("", "version(\"1.2\")", 0, "open"),
        ("version \"1.2\" yes", "version(\"1.2\")", 0, "true"),
    ];
    for (options, predicate, number, want) in cases {
        let query = CfgQuery::read(rt.alloc(), options.as_bytes(), predicate.as_bytes())?;
        assert_eq!(rt;
            told(rt.alloc(), &query, number)?.as_str(),
            want,
            "of {predicate}"
        );
    }
    Ok(())
}

// The kind of a refusal, and the line of a fault.
fn kind_of(error: &QueryError) -> (&'static str, u64) {
    match error {
        QueryError::Options { line } => ("options", *line),
        QueryError::Predicate => ("predicate", 0),
        QueryError::TooLong => ("too long", 0),
        QueryError::Memory(_) => ("memory", 0),
    }
}

#[test]
fn refuses_texts(rt: HostRuntime) -> Result<(), Fail> {
    let cases = [
        ("opt a\nopt", "a", "options", 2),
        ("", "all(a", "predicate", 0),
        ("", "a\nb", "predicate", 0),
        ("", "a)", "predicate", 0),
    ];
    for (options, predicate, want, line) in cases {
        match CfgQuery::read(rt.alloc(), options.as_bytes(), predicate.as_bytes()) {
            Ok(_) => assert!(rt; false, "of {predicate}"),
            Err(error) => assert_eq!(rt; kind_of(&error), (want, line), "of {predicate}"),
        }
    }
    Ok(())
}

// The example of `read_predicate`, bytes that are no text, and one byte too many.
#[test]
fn reads_predicates(rt: HostRuntime) -> Result<(), Fail> {
    let expr = read_predicate(rt.alloc(), b"all(unix, not(a))")?;
    assert!(rt; matches!(expr, CfgExpr::All(_)));
    let refused = read_predicate(rt.alloc(), b"\xFF");
    assert!(rt; matches!(refused, Err(QueryError::Predicate)));
    let long = " ".repeat(rt.alloc(), 16_777_217)?;
    let refused = read_predicate(rt.alloc(), long.as_bytes());
    assert!(rt; matches!(refused, Err(QueryError::TooLong)));
    Ok(())
}
