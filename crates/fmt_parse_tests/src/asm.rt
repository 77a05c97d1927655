use fmt_parse::{Alignment, Argument, AsmRead, Count, FormatSpec, Piece, Position, parse_asm};
use std::alloc::{AllocError, Global};
use std::test::Fail;
use sym_core::TextRange;

#[test]
fn reads_a_template(rt: HostRuntime) -> Result<(), Fail> {
    let read = parse_asm(rt.alloc(), "{} {x:r}", 3)?;
    let [
        Piece::NextArgument(next),
        Piece::Lit(space),
        Piece::NextArgument(named),
    ] = read.pieces.as_slice()
    else {
        panic!(rt; "two placeholders and a literal");
    };
    assert_eq!(rt;
        next.position,
        Position::ImplicitlyIs(3),
        "the counter's number"
    );
    assert_eq!(rt; *space, at(2, 3), "the literal");
    assert_eq!(rt; named.position, Position::Named(at(4, 5)), "the name");
    assert_eq!(rt; named.format.ty, at(6, 7), "the modifier");
    assert_eq!(rt; (read.curarg, read.complete), (4, true), "the end");
    Ok(())
}

// What is read of a text that is no longer than a script.
fn read(alloc: Global, text: &str, curarg: usize) -> Result<AsmRead, AllocError> {
    if text.len() > 16_777_216 {
        return Ok(AsmRead {
            pieces: Vec::new(alloc),
            curarg: 0,
            complete: false,
        });
    }
    parse_asm(alloc, text, curarg)
}

// The placeholder that a text is, and the counter behind it; none where it is something else.
fn only(alloc: Global, text: &str, curarg: usize) -> Result<Option<(Argument, usize)>, AllocError> {
    let read = read(alloc, text, curarg)?;
    match read.pieces.as_slice() {
        [Piece::NextArgument(argument)] => Ok(Some((*argument, read.curarg))),
        _ => Ok(None),
    }
}

fn at(start: u32, end: u32) -> TextRange {
    TextRange { start, end }
}

// Only a modifier.
fn modified(ty: TextRange) -> FormatSpec {
    FormatSpec {
        fill: None,
        align: Alignment::Unknown,
        sign: None,
        alternate: false,
        zero_pad: false,
        debug_hex: None,
        precision: Count::Implied,
        precision_span: None,
        width: Count::Implied,
        width_span: None,
        ty,
    }
}

#[test]
fn reads_placeholders(rt: HostRuntime) -> Result<(), Fail> {
    let last = 18_446_744_073_709_551_615;
    let cases = [
        ("{:x}", 0, Position::ImplicitlyIs(0), at(1, 1), at(2, 3), 1),
        ("{0 }", 7, Position::Is(0), at(1, 2), at(2, 2), 7),
        ("{x: }", 7, Position::Named(at(1, 2)), at(1, 2), at(3, 3), 7),
        ("{é:r}", 7, Position::Named(at(1, 3)), at(1, 3), at(4, 5), 7),
        (
            "{}",
            last,
            Position::ImplicitlyIs(last),
            at(1, 1),
            at(1, 1),
            last,
        ),
    ];
    for (text, curarg, position, position_span, ty, behind) in cases {
        let Some((argument, counter)) = only(rt.alloc(), text, curarg)? else {
            panic!(rt; "{text} is no placeholder");
        };
        assert_eq!(rt; argument.position, position, "the position of {text}");
        assert_eq!(rt;
            argument.position_span,
            position_span,
            "where {text} says it"
        );
        assert_eq!(rt; argument.format, modified(ty), "the modifier of {text}");
        assert_eq!(rt; counter, behind, "the counter behind {text}");
    }
    Ok(())
}

// How many pieces are read of a text from 0 on, the counter behind them, and whether they are all of it.
fn reach(alloc: Global, text: &str) -> Result<(usize, usize, bool), AllocError> {
    let read = read(alloc, text, 0)?;
    Ok((read.pieces.len(), read.curarg, read.complete))
}

#[test]
fn reads_as_far_as_pieces_go(rt: HostRuntime) -> Result<(), Fail> {
    let cases = [
        ("", (0, 0, true)),
        ("{{", (1, 0, true)),
        ("a}}{0}{}", (4, 1, true)),
        ("{}{", (1, 1, false)),
        ("{ 0}", (0, 0, false)),
        ("{65536}", (0, 0, false)),
        ("{:x?}", (0, 0, false)),
        ("}", (0, 0, false)),
        ("{}} {}", (1, 1, false)),
    ];
    for (text, want) in cases {
        assert_eq!(rt; reach(rt.alloc(), text)?, want, "what is read of {text}");
    }
    Ok(())
}

#[test]
fn reads_a_million_placeholders(rt: HostRuntime) -> Result<(), Fail> {
    let mut text = String::new(rt.alloc());
    for _ in 0..1_000_000 {
        text.push_str("{}")?;
    }
    let want = (1_000_000, 1_000_000, true);
    assert_eq!(rt; reach(rt.alloc(), text.as_str())?, want, "each takes one");
    Ok(())
}
