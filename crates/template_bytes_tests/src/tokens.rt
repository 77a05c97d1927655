ghost use Rattle.std.specs.Prelude.{IfOk};
ghost use Rattle.hir_fmt.specs.Arguments.{AreExplicit};

use hir_fmt::{
    FormatArgsPiece, FormatArgument, FormatArgumentKind, FormatArgumentsCollector, FormatTrait,
    parse,
};
use hir_store::ExprId;
use la_arena::RawIdx;
use silent_captures::Silent;
use sqlite_items::Items;
use std::alloc::{AllocError, Global};
use std::test::Fail;
use sym_core::{AstPtr, Symbol};
use syn_trees::StringLit;
use template_bytes::{EncodedTemplate, Pair, Usage, encode};

// So many written arguments without a name.
fn written(alloc: Global, count: u32) -> Result<FormatArgumentsCollector, AllocError>
    ensures { IfOk result AreExplicit }
{
    let mut args = FormatArgumentsCollector::new(alloc);
    for node in 0..count {
        args.add(FormatArgument {
            kind: FormatArgumentKind::Normal,
            expr: ExprId {
                raw: RawIdx::from_u32(node),
            },
            syntax: None,
        })?;
    }
    Ok(args)
}

// The template of a string token in a call with so many written arguments.
fn template_of(alloc: Global, token: &str, count: u32) -> Result<Items<FormatArgsPiece>, Fail> {
    let Some(literal) = StringLit::new(Symbol::new(alloc, token)?) else {
        return Err(Fail::new("no string token"));
    };
    let args = written(alloc, count)?;
    let mut captures = Silent::new();
    let ptr = AstPtr { node: 0 };
    let call = parse(alloc, &literal, ptr, args, true, &mut captures)?;
    Ok(call.template)
}

/// A string token in a call with so many written arguments, encoded.
pub(crate) fn encoded(alloc: Global, token: &str, count: u32) -> Result<EncodedTemplate, Fail> {
    let template = template_of(alloc, token, count)?;
    Ok(encode(alloc, template.as_slice())?)
}

// The example of `encode`.
#[test]
fn encodes_a_template(rt: HostRuntime) -> Result<(), Fail> {
    let alloc = rt.alloc();
    let template = template_of(alloc, "\"x{}y{{\"", 1)?;
    let made = encode(alloc, template.as_slice())?;
    assert!(rt; made.bytes.as_slice() == b"\x01x\xC0\x02y{\x00".as_slice());
    let display = Usage::Trait(FormatTrait::Display);
    for pair in made.pairs.iter() {
        assert_eq!(rt; (pair.argument, pair.usage), (Some(0), display));
    }
    Ok(())
}

/// Two upper case hexadecimal digits a byte.
pub(crate) fn hex_text(alloc: Global, bytes: &[u8]) -> Result<String, AllocError> {
    let mut text = String::new(alloc);
    for byte in bytes {
        text.push_str(format!(in alloc; "{byte:02X}")?.as_str())?;
    }
    Ok(text)
}

// The argument, or `?` where it is unresolved, and how it is used.
fn pair_text(alloc: Global, pair: &Pair) -> Result<String, AllocError> {
    let argument = match pair.argument {
        Some(place) => format!(in alloc; "{place}")?,
        None => String::from_str(alloc, "?")?,
    };
    match pair.usage {
        Usage::Trait(format_trait) => format!(in alloc; "{argument}:{format_trait:?} "),
        Usage::Count => format!(in alloc; "{argument}:Count "),
    }
}

fn pairs_text(alloc: Global, made: &EncodedTemplate) -> Result<String, AllocError> {
    let mut text = String::new(alloc);
    for pair in made.pairs.iter() {
        text.push_str(pair_text(alloc, pair)?.as_str())?;
    }
    Ok(text)
}

#[test]
fn encodes_tokens(rt: HostRuntime) -> Result<(), Fail> {
    let cases = [
        (
            "\"{0} {0:x} {0} {1}\"",
            2,
            "C00120C00120C800000120C8020000",
            "0:Display 0:LowerHex 1:Display ",
        ),
        ("\"{:5}\"", 1, "C320000068050000", "0:Display "),
        ("\"{:00}\"", 1, "C12000006900", "0:Display "),
        ("\"{:0$}\"", 1, "D320000068010000", "0:Display 0:Count "),
        ("\"{:.*}\"", 2, "E520000070010000", "1:Display 0:Count "),
        (
            "\"{x:>w$.p$}\"",
            0,
            "F7200000380100020000",
            "0:Display 2:Count 1:Count ",
        ),
        ("\"{}{}{}\"", 1, "C0C0C8010000", "0:Display ?:Display "),
        ("\"x{}y{{\"", 1, "0178C002797B00", "0:Display "),
    ];
    for (token, count, bytes, pairs) in cases {
        let made = encoded(rt.alloc(), token, count)?;
        let hex = hex_text(rt.alloc(), made.bytes.as_slice())?;
        assert_eq!(rt; hex.as_str(), bytes, "the bytes of {token}");
        let text = pairs_text(rt.alloc(), &made)?;
        assert_eq!(rt; text.as_str(), pairs, "the pairs of {token}");
    }
    Ok(())
}
