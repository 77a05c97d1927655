use hir_fmt::{
    FormatArgPosition, FormatArgPositionKind, FormatArgsPiece, FormatCount, FormatOptions,
    FormatPlaceholder, FormatTrait,
};
use std::alloc::Global;
use std::test::Fail;
use sym_core::Symbol;
use template_bytes::{Pair, Usage, encode};

// A reference to the argument at a place.
fn argument(place: usize) -> FormatArgPosition {
    FormatArgPosition {
        index: Ok(place),
        kind: FormatArgPositionKind::Number,
        span: None,
    }
}

// `{}` or, with a width, `{:width$}`, of the argument at a place.
fn display(place: usize, width: Option<usize>) -> FormatArgsPiece {
    let mut format_options = FormatOptions::default();
    if let Some(width) = width {
        format_options.width = Some(FormatCount::Argument(argument(width)));
    }
    FormatArgsPiece::Placeholder(FormatPlaceholder {
        argument: argument(place),
        span: None,
        format_trait: FormatTrait::Display,
        format_options,
    })
}

// `{0}{1}{2}` and so on.
fn displays(alloc: Global, count: usize) -> Result<Vec<FormatArgsPiece>, Fail> {
    let mut pieces = Vec::new(alloc);
    for place in 0..count {
        pieces.push(display(place, None))?;
    }
    Ok(pieces)
}

#[test]
fn joins_literals(rt: HostRuntime) -> Result<(), Fail> {
    let alloc = rt.alloc();
    let pieces = [
        FormatArgsPiece::Literal(Symbol::new(alloc, "a")?),
        FormatArgsPiece::Literal(Symbol::new(alloc, "")?),
        FormatArgsPiece::Literal(Symbol::new(alloc, "b")?),
        display(0, None),
    ];
    let made = encode(alloc, &pieces)?;
    assert!(rt; made.bytes.as_slice() == b"\x02ab\xC0\x00".as_slice());
    Ok(())
}

// `{}` for 65,536 arguments, and then, `x` being one argument more, `{x}{x}{0:x$}`.
#[test]
fn writes_wide_slots(rt: HostRuntime) -> Result<(), Fail> {
    let alloc = rt.alloc();
    let mut pieces = displays(alloc, 65_537)?;
    pieces.push(display(65_536, None))?;
    pieces.push(display(0, Some(65_536)))?;
    let made = encode(alloc, pieces.as_slice())?;
    let narrow = b"\xC0".repeat(alloc, 65_537)?;
    let again = b"\x81\xC8\x00\x00\x01\x00";
    let with_width = b"\x81\xDB\x20\x00\x00\x68\x01\x00\x01\x00\x00\x00\x00\x00";
    let end = b"\x00";
    let parts = [
        narrow.as_slice(),
        again.as_slice(),
        with_width.as_slice(),
        end.as_slice(),
    ];
    assert!(rt; made.bytes.as_slice() == parts.concat(alloc)?.as_slice());
    Ok(())
}

#[test]
fn encodes_a_million_pairs(rt: HostRuntime) -> Result<(), Fail> {
    let alloc = rt.alloc();
    let pieces = displays(alloc, 1_000_000)?;
    let made = encode(alloc, pieces.as_slice())?;
    assert_eq!(rt;
        (made.bytes.len(), made.pairs.len()),
        (1_000_001, 1_000_000)
    );
    let last = Pair {
        argument: Some(999_999),
        usage: Usage::Trait(FormatTrait::Display),
    };
    assert!(rt; made.pairs.get_index(999_999) == Some(&last));
    Ok(())
}
