ghost use Rattle.std.specs.Prelude.{◌≡◌, IfOk, IfErr, OnErr, OnOk};
ghost use Rattle.std.specs.List.{All};
ghost use Rattle.fmt_parse.specs.Ranges.{OfEachRange};
ghost use Rattle.hir_fmt.specs.Literal.{source_of, IsRangeOf, HasSpans};
ghost use Rattle.hir_fmt.specs.References.{references_of};
ghost use Rattle.hir_fmt.specs.Walk.{Halts};
ghost use Rattle.hir_fmt.specs.Refusal.{HasRefusal};
ghost use Rattle.hir_fmt.specs.Parsed.{IsMade, Makes, GivesUp};

use crate::captures::{Captures, ParseError};
use crate::collector::FormatArgumentsCollector;
use crate::format_args::FormatArgs;
use crate::literal::Literal;
use crate::orphans::find_orphans;
use crate::read::{literal, read_format};
use crate::template::find_template;
use fmt_parse::Piece;
use sqlite_items::Items;
use std::alloc::Global;
use sym_core::AstPtr;
use syn_trees::StringLit;

// The template, the arguments and the orphans of the pieces of a text.
fn parse_pieces<C: Captures>(
    alloc: Global,
    literal: Literal<'_>,
    pieces: &[Piece],
    args: FormatArgumentsCollector,
    captures: &mut C,
) -> Result<FormatArgs, ParseError<C::Refused>>
    requires within { All (OfEachRange (IsRangeOf literal)) pieces.now }
    requires short { HasSpans literal }
    ensures made { IfOk result (IsMade literal.entry.is_direct literal.entry.ptr (source_of literal.entry) pieces.now args (C.log captures.old) (C.log captures.new)) }
    ensures halted { OnErr result (Halts literal.entry.is_direct (references_of (source_of literal.entry) pieces.now) args (C.log captures.old) (C.log captures.new)) }
    ensures cause { IfErr result (HasRefusal (C.refusals captures.old) (C.refusals captures.new) (C.allows captures.new)) }
    ensures grown { C.grows captures.old captures.new }
{
    let mut args = args;
    let _ = args.num_explicit_args();
    let template = find_template(alloc, literal, pieces, &mut args, captures)?;
    let orphans = find_orphans(alloc, template.as_slice(), args.explicit_args())?;
    Ok(FormatArgs {
        template,
        arguments: args.finish(),
        orphans,
    })
}

/// Reads the text of a format call, and looks up the arguments that it refers to.
///
/// The template is the text's literals, neighbours merged and empty ones left out, and its placeholders. References are looked
/// up one after the other: of each placeholder the value, then the precision, then the width. A number refers to the written
/// argument at that place, and a name to the first argument of that name. A name that no argument bears is captured where the
/// literal is direct. A use of a name that refers to an argument is told to `captures`. The orphans are the expressions of
/// the written arguments that no reference refers to.
///
/// Spans are those of the literal's token, and are given exactly where the literal is direct, and raw or without a `\`. A
/// literal without a value, or whose value is no format text, gives an empty template, the arguments as they are, and no
/// orphans.
///
/// ```
/// let s = StringLit::new(Symbol::new(alloc, "\"a{x:>w$}\"")?).unwrap();
/// let args = FormatArgumentsCollector::new(alloc);
/// let made = parse(alloc, &s, AstPtr { node: 0 }, args, true, &mut captures)?;
/// assert_eq!(made.template.len(), 2);                 // a literal and a placeholder
/// assert_eq!(made.arguments.names.len(), 2);          // `x` and `w`, which are captured
/// assert_eq!(made.arguments.num_explicit_args, 0);
/// assert!(made.orphans.is_empty());
/// ```
///
/// # Errors
///
/// [`ParseError::Memory`] where no memory is left; [`ParseError::Captures`] with the first refusal of `captures`, which ends
/// the call. A front of what there was to tell was told.
pub fn parse<C: Captures>(
    alloc: Global,
    s: &StringLit,
    string_ptr: AstPtr,
    args: FormatArgumentsCollector,
    is_direct_literal: bool,
    captures: &mut C,
) -> Result<FormatArgs, ParseError<C::Refused>>
    ensures makes { IfOk result (Makes s.now is_direct_literal string_ptr args (C.log captures.old) (C.log captures.new)) }
    ensures gives_up { OnErr result (GivesUp s.now is_direct_literal args (C.log captures.old) (C.log captures.new)) }
    ensures cause { IfErr result (HasRefusal (C.refusals captures.old) (C.refusals captures.new) (C.allows captures.new)) }
    ensures grown { C.grows captures.old captures.new }
{
    match read_format(alloc, s)? {
        Some(format) => {
            let literal = literal(s, format.text.as_str(), string_ptr, is_direct_literal);
            parse_pieces(alloc, literal, format.pieces.as_slice(), args, captures)
        }
        None => Ok(FormatArgs {
            template: Items::new(alloc),
            arguments: args.finish(),
            orphans: Items::new(alloc),
        }),
    }
}
