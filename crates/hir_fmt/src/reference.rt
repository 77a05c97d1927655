ghost use Rattle.std.specs.Prelude.{◌≡◌, IfOk};
ghost use Rattle.fmt_parse.specs.Ranges.{OfPosition, OfCount};
ghost use Rattle.either.specs.declared.Either.TheVariants.{Left as ByNumber, Right as ByName};
ghost use Rattle.hir_fmt.specs.declared.format_args.FormatArgPositionKind.TheVariants.{Named};
ghost use Rattle.hir_fmt.specs.References.{of_position, of_count};
ghost use Rattle.hir_fmt.specs.Literal.{source_of, IsRangeOf};

use crate::format_args::FormatArgPositionKind;
use crate::literal::Literal;
use either::{Either, Left, Right};
use fmt_parse::{Count, Position};
use std::alloc::{AllocError, Global};
use sym_core::{Name, TextRange};

/// A reference to an argument, before it is looked up.
#[derive(Drop)]
pub(crate) struct Reference {
    /// The number or the name that is wanted.
    pub(crate) wanted: Either<usize, Name>,
    /// How the reference is spelled.
    pub(crate) kind: FormatArgPositionKind,
    /// The bytes of the literal that are the number or the name.
    pub(crate) span: Option<TextRange>,
}

// A reference by number.
fn numbered(number: usize, kind: FormatArgPositionKind, span: Option<TextRange>) -> Reference
    ensures { result ≡ record { wanted = ByNumber number; kind = kind; span = span } }
{
    Reference {
        wanted: Left(number),
        kind,
        span,
    }
}

// A reference by name.
fn named(name: Name, span: Option<TextRange>) -> Reference
    ensures { result ≡ record { wanted = ByName name; kind = Named; span = span } }
{
    Reference {
        wanted: Right(name),
        kind: FormatArgPositionKind::Named,
        span,
    }
}

/// The reference that is the value of a placeholder.
pub(crate) fn position_reference(
    alloc: Global,
    literal: Literal<'_>,
    position: Position,
    span: Option<TextRange>,
) -> Result<Reference, AllocError>
    requires { OfPosition (IsRangeOf literal) position }
    ensures { IfOk result (λ reference. reference ≡ of_position (source_of literal.entry) position span) }
{
    match position {
        Position::ImplicitlyIs(number) => {
            Ok(numbered(number, FormatArgPositionKind::Implicit, span))
        }
        Position::Is(number) => Ok(numbered(number, FormatArgPositionKind::Number, span)),
        Position::Named(range) => Ok(named(literal.name(alloc, range)?, span)),
    }
}

/// The number or the reference that a width or a precision is, if there is one.
pub(crate) fn count_reference(
    alloc: Global,
    literal: Literal<'_>,
    count: Count,
    span: Option<TextRange>,
) -> Result<Option<Either<u16, Reference>>, AllocError>
    requires { OfCount (IsRangeOf literal) count }
    ensures { IfOk result (λ counted. counted ≡ of_count (source_of literal.entry) count span) }
{
    match count {
        Count::Is(number) => Ok(Some(Left(number))),
        Count::IsName(range) => Ok(Some(Right(named(literal.name(alloc, range)?, span)))),
        Count::IsParam(number) => {
            let reference = numbered(number, FormatArgPositionKind::Number, span);
            Ok(Some(Right(reference)))
        }
        Count::IsStar(number) => {
            let reference = numbered(number, FormatArgPositionKind::Implicit, span);
            Ok(Some(Right(reference)))
        }
        Count::Implied => Ok(None),
    }
}
