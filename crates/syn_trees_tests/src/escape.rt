use std::alloc::{AllocError, Global};
use std::test::Fail;
use sym_core::Symbol;
use syn_trees::{EscapeError, StringLit};

// Whether a text between quotes stands for this, or is refused where nothing is wanted.
fn stands_for(alloc: Global, inside: &str, want: Option<&str>) -> Result<bool, AllocError> {
    let token = format!(in alloc; "\"{inside}\"")?;
    let Some(literal) = StringLit::new(Symbol::new(alloc, token.as_str())?) else {
        return Ok(false);
    };
    match literal.value(alloc) {
        Ok(text) => Ok(want == Some(text.as_str())),
        Err(EscapeError::Escape) => Ok(want.is_none()),
        Err(EscapeError::Memory(error)) => Err(error),
    }
}

#[test]
fn reads_escapes(rt: HostRuntime) -> Result<(), Fail> {
    let cases: [(&str, Option<&str>); 20] = [
        (r"a\x41\n", Some("aA\n")),
        (r#"\r\t\\\0\'\""#, Some("\r\t\\\0'\"")),
        (r"\x7F", Some("\x7F")),
        (r"\u{1_F600}", Some("\u{1F600}")),
        (r"\u{10FFFF}", Some("\u{10FFFF}")),
        ("é", Some("é")),
        ("a\r\nb", Some("a\r\nb")),
        ("a\\\n \t\nb", Some("ab")),
        (r"\q", None),
        ("\\\r", None),
        (r"\x80", None),
        (r"\X41", None),
        (r"\u41", None),
        (r"\u{41", None),
        (r"\u{}", None),
        (r"\u{_1}", None),
        (r"\u{D800}", None),
        (r"\u{110000}", None),
        (r"\u{1234567}", None),
        (r"a\x4", None),
    ];
    for (inside, want) in cases {
        assert!(rt; stands_for(rt.alloc(), inside, want)?, "at {inside:?}");
    }
    Ok(())
}
