ghost use Rattle.std.specs.Prelude.{◌≤◌};

use fmt_parse::{
    Alignment, Argument, Count, DebugHex, FormatError, FormatSpec, Piece, Position, Sign,
    parse_format,
};
use std::alloc::{AllocError, Global};
use std::test::Fail;
use sym_core::TextRange;

// The pieces of a text that is no longer than a script.
fn read(alloc: Global, text: &str) -> Result<Vec<Piece>, FormatError> {
    if text.len() > 16_777_216 {
        return Err(FormatError::Syntax { at: 0 });
    }
    parse_format(alloc, text)
}

#[test]
fn reads_a_text(rt: HostRuntime) -> Result<(), Fail> {
    let pieces = parse_format(rt.alloc(), "é{x:>5}")?;
    let [Piece::Lit(letter), Piece::NextArgument(argument)] = pieces.as_slice() else {
        panic!(rt; "a literal and a placeholder");
    };
    assert_eq!(rt; *letter, at(0, 2), "the literal");
    assert_eq!(rt; argument.position, Position::Named(at(3, 4)), "the name");
    assert_eq!(rt; argument.format.width, Count::Is(5), "the width");
    assert_eq!(rt; fault(rt.alloc(), "a}")?, Some(1), "a brace alone");
    Ok(())
}

// The placeholder that a text is; none where it is something else.
fn only(alloc: Global, text: &str) -> Result<Option<Argument>, FormatError> {
    let pieces = read(alloc, text)?;
    match pieces.as_slice() {
        [Piece::NextArgument(argument)] => Ok(Some(*argument)),
        _ => Ok(None),
    }
}

// From where on a text cannot be read; none where it can.
fn fault(alloc: Global, text: &str) -> Result<Option<usize>, FormatError> {
    match read(alloc, text) {
        Ok(_) => Ok(None),
        Err(FormatError::Syntax { at }) => Ok(Some(at)),
        Err(FormatError::Memory(error)) => Err(FormatError::Memory(error)),
    }
}

fn at(start: u32, end: u32) -> TextRange {
    TextRange { start, end }
}

fn lit(start: u32, end: u32) -> Piece {
    Piece::Lit(at(start, end))
}

// Only a type.
fn typed(start: u32, end: u32) -> FormatSpec {
    FormatSpec {
        fill: None,
        align: Alignment::Unknown,
        sign: None,
        alternate: false,
        zero_pad: false,
        debug_hex: None,
        precision: Count::Implied,
        precision_span: None,
        width: Count::Implied,
        width_span: None,
        ty: at(start, end),
    }
}

// A width, and behind it the empty type.
fn wide(zero_pad: bool, width: Count, span: TextRange, end: u32) -> FormatSpec {
    FormatSpec {
        zero_pad,
        width,
        width_span: Some(span),
        ..typed(end, end)
    }
}

// A precision, and behind it the empty type.
fn precise(precision: Count, span: TextRange, end: u32) -> FormatSpec {
    FormatSpec {
        precision,
        precision_span: Some(span),
        ..typed(end, end)
    }
}

// An alignment, and behind it the empty type.
fn aligned(fill: Option<char>, align: Alignment, end: u32) -> FormatSpec {
    FormatSpec {
        fill,
        align,
        ..typed(end, end)
    }
}

// A `?` with a flag in front of it.
fn hex(digits: DebugHex) -> FormatSpec {
    FormatSpec {
        debug_hex: Some(digits),
        ..typed(3, 4)
    }
}

#[test]
fn reads_all_parts(rt: HostRuntime) -> Result<(), Fail> {
    let format = FormatSpec {
        fill: Some('*'),
        align: Alignment::Center,
        sign: Some(Sign::Minus),
        alternate: true,
        zero_pad: true,
        debug_hex: Some(DebugHex::Lower),
        precision: Count::IsParam(2),
        precision_span: Some(at(11, 12)),
        width: Count::Is(10),
        width_span: Some(at(8, 10)),
        ty: at(14, 15),
    };
    let whole = Argument {
        position: Position::Is(0),
        position_span: at(1, 2),
        span: at(0, 16),
        format,
    };
    assert_eq!(rt;
        only(rt.alloc(), "{0:*^-#010.2$x?}")?,
        Some(whole),
        "all parts"
    );
    Ok(())
}

#[test]
fn reads_formats(rt: HostRuntime) -> Result<(), Fail> {
    let cases = [
        ("{}", typed(1, 1)),
        ("{:w}", typed(2, 3)),
        ("{:x}", typed(2, 3)),
        ("{:?}", typed(2, 3)),
        ("{: }", typed(2, 2)),
        ("{:x?}", hex(DebugHex::Lower)),
        ("{:X?}", hex(DebugHex::Upper)),
        ("{:<}", aligned(None, Alignment::Left, 3)),
        ("{:}>}", aligned(Some('}'), Alignment::Right, 4)),
        ("{:é<}", aligned(Some('é'), Alignment::Left, 5)),
        ("{:0$}", wide(false, Count::IsParam(0), at(2, 3), 4)),
        ("{:00}", wide(true, Count::Is(0), at(3, 4), 4)),
        ("{:00$}", wide(true, Count::IsParam(0), at(3, 4), 5)),
        ("{:0010}", wide(true, Count::Is(10), at(3, 6), 6)),
        ("{:65535}", wide(false, Count::Is(65_535), at(2, 7), 7)),
        ("{:w$}", wide(false, Count::IsName(at(2, 3)), at(2, 3), 4)),
        ("{:.7}", precise(Count::Is(7), at(3, 4), 4)),
        ("{:.*}", precise(Count::IsStar(0), at(3, 4), 4)),
    ];
    for (text, want) in cases {
        let Some(argument) = only(rt.alloc(), text)? else {
            panic!(rt; "{text} is no placeholder");
        };
        assert_eq!(rt; argument.format, want, "the format of {text}");
    }
    Ok(())
}

#[test]
fn reads_signs_and_flags(rt: HostRuntime) -> Result<(), Fail> {
    let cases = [
        ("{:+}", Some(Sign::Plus), false, false),
        ("{:-}", Some(Sign::Minus), false, false),
        ("{:#}", None, true, false),
        ("{:0}", None, false, true),
    ];
    for (text, sign, alternate, zero_pad) in cases {
        let want = FormatSpec {
            sign,
            alternate,
            zero_pad,
            ..typed(3, 3)
        };
        let Some(argument) = only(rt.alloc(), text)? else {
            panic!(rt; "{text} is no placeholder");
        };
        assert_eq!(rt; argument.format, want, "the format of {text}");
    }
    Ok(())
}

#[test]
fn reads_positions(rt: HostRuntime) -> Result<(), Fail> {
    let cases = [
        ("{}", Position::ImplicitlyIs(0), at(1, 1), 2),
        ("{:.*}", Position::ImplicitlyIs(1), at(1, 1), 5),
        ("{0}", Position::Is(0), at(1, 2), 3),
        ("{007:?}", Position::Is(7), at(1, 4), 7),
        ("{é}", Position::Named(at(1, 3)), at(1, 3), 4),
        ("{_aé \n}", Position::Named(at(1, 5)), at(1, 5), 8),
    ];
    for (text, position, span, end) in cases {
        let Some(argument) = only(rt.alloc(), text)? else {
            panic!(rt; "{text} is no placeholder");
        };
        assert_eq!(rt; argument.position, position, "the position of {text}");
        assert_eq!(rt; argument.position_span, span, "where {text} says it");
        assert_eq!(rt; argument.span, at(0, end), "the range of {text}");
    }
    Ok(())
}

// The placeholder that takes the next argument and says nothing more.
fn next_of(start: u32, number: usize) -> Piece
    requires { start ≤ 100 }
{
    Piece::NextArgument(Argument {
        position: Position::ImplicitlyIs(number),
        position_span: at(start + 1, start + 1),
        span: at(start, start + 2),
        format: typed(start + 1, start + 1),
    })
}

// Whether a text is these pieces.
fn is_read_as(alloc: Global, text: &str, want: &[Piece]) -> Result<bool, FormatError> {
    let pieces = read(alloc, text)?;
    Ok(pieces.as_slice() == want)
}

// The piece of a text at this index.
fn piece_at(alloc: Global, text: &str, index: usize) -> Result<Option<Piece>, FormatError> {
    let pieces = read(alloc, text)?;
    Ok(pieces.as_slice().get(index).copied())
}

#[test]
fn reads_pieces_in_their_order(rt: HostRuntime) -> Result<(), Fail> {
    let alloc = rt.alloc();
    let doubled = [lit(0, 1), lit(2, 3)];
    let inside = [lit(0, 2), lit(2, 3), lit(4, 5)];
    let behind = [lit(0, 1), next_of(1, 0)];
    assert!(rt; is_read_as(alloc, "", &[])?, "no pieces");
    assert!(rt; is_read_as(alloc, "{{}}", &doubled)?, "doubled braces");
    assert!(rt; is_read_as(alloc, "é{{b", &inside)?, "in a text");
    assert!(rt; is_read_as(alloc, "a{}", &behind)?, "behind a text");
    Ok(())
}

#[test]
fn counts_arguments(rt: HostRuntime) -> Result<(), Fail> {
    let text = "{:.*}{}{0}{}";
    let behind_star = piece_at(rt.alloc(), text, 1)?;
    assert_eq!(rt; behind_star, Some(next_of(5, 2)), "behind a star");
    let behind_number = piece_at(rt.alloc(), text, 3)?;
    assert_eq!(rt; behind_number, Some(next_of(10, 3)), "behind a number");
    Ok(())
}

#[test]
fn refuses_other_texts(rt: HostRuntime) -> Result<(), Fail> {
    let cases = [
        ("{:65536}", 0),
        ("{65536}", 0),
        ("{_}", 0),
        ("{ 0}", 0),
        ("{:.}", 0),
        ("{:}<", 0),
        ("{:5x", 0),
        ("}", 0),
        ("{}}", 2),
        ("{:}}", 3),
        ("é{", 2),
        ("a{}{{}", 5),
    ];
    for (text, want) in cases {
        assert_eq!(rt; fault(rt.alloc(), text)?, Some(want), "where {text} ends");
    }
    Ok(())
}

// A text, so many times.
fn repeated(alloc: Global, text: &str, times: usize) -> Result<String, AllocError> {
    let mut whole = String::new(alloc);
    for _ in 0..times {
        whole.push_str(text)?;
    }
    Ok(whole)
}

// How many pieces so many placeholders are, and which argument the last one takes.
fn last_of(alloc: Global, times: usize) -> Result<Option<(usize, Position)>, FormatError> {
    let text = repeated(alloc, "{}", times)?;
    let pieces = read(alloc, text.as_str())?;
    match pieces.as_slice().last() {
        Some(Piece::NextArgument(last)) => Ok(Some((pieces.len(), last.position))),
        _ => Ok(None),
    }
}

#[test]
fn reads_large_texts(rt: HostRuntime) -> Result<(), Fail> {
    let last = last_of(rt.alloc(), 1_000_000)?;
    assert_eq!(rt;
        last,
        Some((1_000_000, Position::ImplicitlyIs(999_999))),
        "a million placeholders"
    );
    let long = repeated(rt.alloc(), "a", 16_777_216)?;
    let whole = [lit(0, 16_777_216)];
    assert!(rt;
        is_read_as(rt.alloc(), long.as_str(), &whole)?,
        "a text without placeholders"
    );
    Ok(())
}
