use script_tokens::{TokenKind, next_token};
use std::alloc::{AllocError, Global};
use std::test::Fail;
use syn_trees::Spacing;
use text_cut::begin;

// Adds what a token is: a word or a numeral as it is, a string by what stands between its quotes, a mark with `^` where
// it is joint.
fn show(kind: TokenKind<'_>, out: &mut String) -> Result<(), AllocError> {
    match kind {
        TokenKind::Word(text) => out.push_str(text),
        TokenKind::Numeral(text) => {
            out.push('\'')?;
            out.push_str(text)
        }
        TokenKind::Text(token) => {
            out.push('"')?;
            out.push_str(token.inside)
        }
        TokenKind::Mark(c, spacing) => {
            out.push(c)?;
            match spacing {
                Spacing::Joint => out.push('^'),
                Spacing::Alone => Ok(()),
            }
        }
        TokenKind::Open(_) => out.push('<'),
        TokenKind::Close(_) => out.push('>'),
    }
}

// The tokens of a short line, a `_` in front of each that is spaced and a `.` in front of the others, and what is left.
fn told(alloc: Global, text: &str) -> Result<String, AllocError> {
    let mut out = String::new(alloc);
    if text.len() > 1000 {
        return Ok(out);
    }
    let mut here = begin(text);
    for _ in 0..text.len() {
        if let Some((token, behind)) = next_token(here) {
            out.push(if token.spaced { '_' } else { '.' })?;
            show(token.kind, &mut out)?;
            here = behind;
        }
    }
    out.push('|')?;
    out.push_str(here.rest)?;
    Ok(out)
}

#[test]
fn lexes_a_line(rt: HostRuntime) -> Result<(), Fail> {
    let cases = [
        ("", "|"),
        (" opt a\nopt b", "_opt_a|\nopt b"),
        ("m=>@1", ".m.=^.>^.@.'1|"),
        ("= > @ 1_x \t", ".=_>_@_'1_x| \t"),
        ("global!", ".global.!|"),
        ("é_ \"a\\q\nb\"c", ".é__\"a\\q\nb.c|"),
        ("r#\"a\"b\"#", ".\"a\"b|"),
        ("bar\"x\" r#a", ".bar.\"x_r.#.a|"),
        ("a r\"x", ".a| r\"x"),
        ("a \"x", ".a| \"x"),
        ("([{}])", ".<.<.<.>.>.>|"),
        ("a \u{2014}", ".a| \u{2014}"),
    ];
    for (text, want) in cases {
        assert_eq!(rt; told(rt.alloc(), text)?.as_str(), want, "of {text}");
    }
    Ok(())
}
