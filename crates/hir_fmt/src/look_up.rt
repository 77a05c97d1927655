ghost use Rattle.std.specs.Prelude.{◌≡◌, ◌∷◌, [], Some, None, if◌then◌else◌, nat_lt, IfOk, IfErr, OnOk, OnErr};
ghost use Rattle.hir_fmt.specs.Firsts.{first_place};
ghost use Rattle.hir_fmt.specs.Log.{Usage, Made, LogsOne};
ghost use Rattle.hir_fmt.specs.Refusal.{HasRefusal};
ghost use Rattle.hir_fmt.specs.Walk.{Finds, Halts, Looks, Stops, IsCaptured, StopsCapture, place_for};

use crate::captures::{Captures, ParseError};
use crate::collector::FormatArgumentsCollector;
use crate::format_args::{FormatArgument, FormatArgumentKind};
use crate::literal::Literal;
use crate::reference::Reference;
use either::{Left, Right};
use hir_store::ExprId;
use sym_core::{Name, TextRange};

// Tells of a name that is used.
fn tell<C: Captures>(
    captures: &mut C,
    name: &Name,
    span: Option<TextRange>,
) -> Result<(), ParseError<C::Refused>>
    ensures logged { LogsOne (C.log captures.old) (C.log captures.new) result (λ done. Usage name.now span) }
    ensures cause { IfErr result (HasRefusal (C.refusals captures.old) (C.refusals captures.new) (C.allows captures.new)) }
    ensures steady { OnOk result (C.refusals captures.new ≡ C.refusals captures.old) }
    ensures grown { C.grows captures.old captures.new }
{
    match captures.record_usage(name, span) {
        Ok(()) => Ok(()),
        Err(refused) => Err(ParseError::Captures(refused)),
    }
}

// Makes the expression of a name.
fn make<C: Captures>(
    captures: &mut C,
    name: &Name,
    span: Option<TextRange>,
) -> Result<ExprId, ParseError<C::Refused>>
    ensures logged { LogsOne (C.log captures.old) (C.log captures.new) result (λ id. Made name.now span id) }
    ensures cause { IfErr result (HasRefusal (C.refusals captures.old) (C.refusals captures.new) (C.allows captures.new)) }
    ensures steady { OnOk result (C.refusals captures.new ≡ C.refusals captures.old) }
    ensures grown { C.grows captures.old captures.new }
{
    match captures.synth(name, span) {
        Ok(id) => Ok(id),
        Err(refused) => Err(ParseError::Captures(refused)),
    }
}

// The place of the first argument that bears a name, if one does.
fn place_of(args: &FormatArgumentsCollector, name: &Name) -> Option<usize>
    ensures { result ≡ first_place args.now.names name.now }
{
    match args.by_name(name) {
        Some((place, _)) => Some(place),
        None => None,
    }
}

// The number, where a written argument has it.
fn place_at(args: &FormatArgumentsCollector, number: usize) -> Option<usize>
    ensures { result ≡ (if nat_lt number args.now.num_explicit_args then Some number else None) }
{
    match args.by_index(number) {
        Some(_) => Some(number),
        None => None,
    }
}

// Makes an argument of a name that none bears, and returns its place.
fn capture<C: Captures>(
    literal: Literal<'_>,
    name: &Name,
    span: Option<TextRange>,
    args: &mut FormatArgumentsCollector,
    captures: &mut C,
) -> Result<usize, ParseError<C::Refused>>
    ensures captured { IfOk result (λ place. IsCaptured literal.entry.ptr name.now span args.old (C.log captures.old) args.new (C.log captures.new) place) }
    ensures stopped { OnErr result (StopsCapture name.now span (C.log captures.old) (C.log captures.new)) }
    ensures cause { IfErr result (HasRefusal (C.refusals captures.old) (C.refusals captures.new) (C.allows captures.new)) }
    ensures steady { OnOk result (C.refusals captures.new ≡ C.refusals captures.old) }
    ensures grown { C.grows captures.old captures.new }
{
    tell(captures, name, span)?;
    let expr = make(captures, name, span)?;
    let argument = FormatArgument {
        kind: FormatArgumentKind::Captured(name.clone()?),
        expr,
        syntax: Some(literal.ptr),
    };
    let place = args.add(argument)?;
    Ok(place)
}

// Looks a name up, and returns the place of the argument that it refers to, if there is one.
fn find_name<C: Captures>(
    literal: Literal<'_>,
    name: &Name,
    span: Option<TextRange>,
    args: &mut FormatArgumentsCollector,
    captures: &mut C,
) -> Result<Option<usize>, ParseError<C::Refused>>
    ensures looked { IfOk result (Looks literal.entry.is_direct literal.entry.ptr name.now span args.old (C.log captures.old) args.new (C.log captures.new)) }
    ensures stopped { OnErr result (Stops literal.entry.is_direct name.now span args.old (C.log captures.old) (C.log captures.new)) }
    ensures cause { IfErr result (HasRefusal (C.refusals captures.old) (C.refusals captures.new) (C.allows captures.new)) }
    ensures steady { OnOk result (C.refusals captures.new ≡ C.refusals captures.old) }
    ensures grown { C.grows captures.old captures.new }
{
    if let Some(place) = place_of(args, name) {
        tell(captures, name, span)?;
        return Ok(Some(place));
    }
    if !literal.is_direct {
        return Ok(None);
    }
    let place = capture(literal, name, span, args, captures)?;
    Ok(Some(place))
}

/// Looks a reference up, and returns the place of the argument that it refers to, if there is one.
pub(crate) fn find_place<C: Captures>(
    literal: Literal<'_>,
    reference: &Reference,
    args: &mut FormatArgumentsCollector,
    captures: &mut C,
) -> Result<Option<usize>, ParseError<C::Refused>>
    ensures found { IfOk result (Finds literal.entry.is_direct literal.entry.ptr (reference.now ∷ []) (place_for reference.now) args.old (C.log captures.old) args.new (C.log captures.new)) }
    ensures halted { OnErr result (Halts literal.entry.is_direct (reference.now ∷ []) args.old (C.log captures.old) (C.log captures.new)) }
    ensures cause { IfErr result (HasRefusal (C.refusals captures.old) (C.refusals captures.new) (C.allows captures.new)) }
    ensures steady { OnOk result (C.refusals captures.new ≡ C.refusals captures.old) }
    ensures grown { C.grows captures.old captures.new }
{
    match &reference.wanted {
        Left(number) => Ok(place_at(args, *number)),
        Right(name) => find_name(literal, name, reference.span, args, captures),
    }
}
