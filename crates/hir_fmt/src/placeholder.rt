ghost use Rattle.std.specs.Prelude.{◌≡◌, ◌∷◌, [], Some, IfOk, IfErr, OnOk, OnErr, option_map};
ghost use Rattle.fmt_parse.specs.Ranges.{OfArgument};
ghost use Rattle.hir_fmt.specs.References.{asked, references_in};
ghost use Rattle.hir_fmt.specs.Template.{trait_of, alignment_of, sign_of, debug_hex_of, found_or, position_of, count_of, placeholder_of};
ghost use Rattle.hir_fmt.specs.Literal.{source_of, IsRangeOf, HasSpans};
ghost use Rattle.hir_fmt.specs.Refusal.{HasRefusal};
ghost use Rattle.hir_fmt.specs.Walk.{Finds, Halts};

use crate::captures::{Captures, ParseError};
use crate::collector::FormatArgumentsCollector;
use crate::format_args::{
    FormatAlignment, FormatArgPosition, FormatCount, FormatDebugHex, FormatOptions,
    FormatPlaceholder, FormatSign, FormatTrait,
};
use crate::literal::Literal;
use crate::look_up::find_place;
use crate::reference::{Reference, count_reference, position_reference};
use either::{Either, Left, Right};
use fmt_parse::{Alignment, Argument, DebugHex, FormatSpec, Sign};
use std::alloc::Global;
use sym_core::Name;

// The trait of a type.
fn format_trait(ty: &str) -> FormatTrait
    ensures { result ≡ trait_of ty.now }
{
    match ty {
        "?" => FormatTrait::Debug,
        "e" => FormatTrait::LowerExp,
        "E" => FormatTrait::UpperExp,
        "o" => FormatTrait::Octal,
        "p" => FormatTrait::Pointer,
        "b" => FormatTrait::Binary,
        "x" => FormatTrait::LowerHex,
        "X" => FormatTrait::UpperHex,
        _ => FormatTrait::Display,
    }
}

// Where an argument stands in its width.
fn alignment(align: Alignment) -> Option<FormatAlignment>
    ensures { result ≡ alignment_of align }
{
    match align {
        Alignment::Left => Some(FormatAlignment::Left),
        Alignment::Right => Some(FormatAlignment::Right),
        Alignment::Center => Some(FormatAlignment::Center),
        Alignment::Unknown => None,
    }
}

// The sign flag.
fn sign(sign: Option<Sign>) -> Option<FormatSign>
    ensures { result ≡ option_map sign_of sign }
{
    match sign {
        Some(Sign::Plus) => Some(FormatSign::Plus),
        Some(Sign::Minus) => Some(FormatSign::Minus),
        None => None,
    }
}

// The flag in front of a `?`.
fn debug_hex(hex: Option<DebugHex>) -> Option<FormatDebugHex>
    ensures { result ≡ option_map debug_hex_of hex }
{
    match hex {
        Some(DebugHex::Lower) => Some(FormatDebugHex::Lower),
        Some(DebugHex::Upper) => Some(FormatDebugHex::Upper),
        None => None,
    }
}

// The place that was found, or what was wanted.
fn index(wanted: Either<usize, Name>, place: Option<usize>) -> Result<usize, Either<usize, Name>>
    ensures { result ≡ found_or wanted place }
{
    match place {
        Some(place) => Ok(place),
        None => Err(wanted),
    }
}

// Looks a reference up.
fn find_position<C: Captures>(
    literal: Literal<'_>,
    reference: Reference,
    args: &mut FormatArgumentsCollector,
    captures: &mut C,
) -> Result<FormatArgPosition, ParseError<C::Refused>>
    ensures found { IfOk result (Finds literal.entry.is_direct literal.entry.ptr (reference ∷ []) (position_of reference) args.old (C.log captures.old) args.new (C.log captures.new)) }
    ensures halted { OnErr result (Halts literal.entry.is_direct (reference ∷ []) args.old (C.log captures.old) (C.log captures.new)) }
    ensures cause { IfErr result (HasRefusal (C.refusals captures.old) (C.refusals captures.new) (C.allows captures.new)) }
    ensures steady { OnOk result (C.refusals captures.new ≡ C.refusals captures.old) }
    ensures grown { C.grows captures.old captures.new }
{
    let place = find_place(literal, &reference, args, captures)?;
    let Reference { wanted, kind, span } = reference;
    Ok(FormatArgPosition {
        index: index(wanted, place),
        kind,
        span,
    })
}

// Looks up what a width or a precision refers to.
fn find_count<C: Captures>(
    literal: Literal<'_>,
    counted: Option<Either<u16, Reference>>,
    args: &mut FormatArgumentsCollector,
    captures: &mut C,
) -> Result<Option<FormatCount>, ParseError<C::Refused>>
    ensures found { IfOk result (Finds literal.entry.is_direct literal.entry.ptr (asked counted) (count_of counted) args.old (C.log captures.old) args.new (C.log captures.new)) }
    ensures halted { OnErr result (Halts literal.entry.is_direct (asked counted) args.old (C.log captures.old) (C.log captures.new)) }
    ensures cause { IfErr result (HasRefusal (C.refusals captures.old) (C.refusals captures.new) (C.allows captures.new)) }
    ensures steady { OnOk result (C.refusals captures.new ≡ C.refusals captures.old) }
    ensures grown { C.grows captures.old captures.new }
{
    match counted {
        None => Ok(None),
        Some(Left(number)) => Ok(Some(FormatCount::Literal(number))),
        Some(Right(reference)) => {
            let position = find_position(literal, reference, args, captures)?;
            Ok(Some(FormatCount::Argument(position)))
        }
    }
}

// How an argument is written, with this width and this precision.
fn options(
    format: FormatSpec,
    width: Option<FormatCount>,
    precision: Option<FormatCount>,
) -> FormatOptions
    ensures { result ≡ record {
      width = width;
      precision = precision;
      alignment = alignment_of format.align;
      fill = format.fill;
      sign = option_map sign_of format.sign;
      alternate = format.alternate;
      zero_pad = format.zero_pad;
      debug_hex = option_map debug_hex_of format.debug_hex;
    } }
{
    FormatOptions {
        width,
        precision,
        alignment: alignment(format.align),
        fill: format.fill,
        sign: sign(format.sign),
        alternate: format.alternate,
        zero_pad: format.zero_pad,
        debug_hex: debug_hex(format.debug_hex),
    }
}

/// Looks up what a placeholder refers to: its value, then its precision, then its width.
pub(crate) fn find_placeholder<C: Captures>(
    alloc: Global,
    literal: Literal<'_>,
    argument: Argument,
    args: &mut FormatArgumentsCollector,
    captures: &mut C,
) -> Result<FormatPlaceholder, ParseError<C::Refused>>
    requires within { OfArgument (IsRangeOf literal) argument }
    requires short { HasSpans literal }
    ensures found { IfOk result (Finds literal.entry.is_direct literal.entry.ptr (references_in (source_of literal.entry) argument) (placeholder_of (source_of literal.entry) argument) args.old (C.log captures.old) args.new (C.log captures.new)) }
    ensures halted { OnErr result (Halts literal.entry.is_direct (references_in (source_of literal.entry) argument) args.old (C.log captures.old) (C.log captures.new)) }
    ensures cause { IfErr result (HasRefusal (C.refusals captures.old) (C.refusals captures.new) (C.allows captures.new)) }
    ensures steady { OnOk result (C.refusals captures.new ≡ C.refusals captures.old) }
    ensures grown { C.grows captures.old captures.new }
{
    let format = argument.format;
    let value_span = literal.span(argument.position_span);
    let value = position_reference(alloc, literal, argument.position, value_span)?;
    let position = find_position(literal, value, args, captures)?;
    let precision_span = literal.span_if(format.precision_span);
    let precise = count_reference(alloc, literal, format.precision, precision_span)?;
    let precision = find_count(literal, precise, args, captures)?;
    let width_span = literal.span_if(format.width_span);
    let wide = count_reference(alloc, literal, format.width, width_span)?;
    let width = find_count(literal, wide, args, captures)?;
    Ok(FormatPlaceholder {
        argument: position,
        span: literal.span(argument.span),
        format_trait: format_trait(literal.slice(format.ty)),
        format_options: options(format, width, precision),
    })
}
