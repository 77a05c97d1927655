ghost use Rattle.std.specs.Prelude.{◌≡◌, ◌∷◌, [], ◌++◌, IfOk, IfErr, OnOk, OnErr};
ghost use Rattle.std.specs.List.{All};
ghost use Rattle.fmt_parse.specs.Ranges.{OfEachRange};
ghost use Rattle.hir_fmt.specs.References.{references_of};
ghost use Rattle.hir_fmt.specs.Template.{literal_of, piece_added, template_of};
ghost use Rattle.hir_fmt.specs.Literal.{source_of, IsRangeOf, HasSpans};
ghost use Rattle.hir_fmt.specs.Refusal.{HasRefusal};
ghost use Rattle.hir_fmt.specs.Walk.{Finds, Halts};
ghost use Rattle.hir_fmt.specs.Making.{made_of};
ghost use Rattle.hir_fmt.specs.declared.format_args.FormatArgsPiece.TheVariants.{Placeholder};
ghost use Rattle.fmt_parse.specs.declared.piece.Piece.TheVariants.{NextArgument};

use crate::captures::{Captures, ParseError};
use crate::collector::FormatArgumentsCollector;
use crate::format_args::{FormatArgsPiece, FormatPlaceholder};
use crate::literal::Literal;
use crate::placeholder::find_placeholder;
use fmt_parse::{Argument, Piece};
use sqlite_items::Items;
use std::alloc::{AllocError, Global};
use sym_core::Symbol;

// A template that is being made: its pieces, and the literal behind them that may go on.
#[derive(Drop)]
struct Making {
    alloc: Global,
    pieces: Vec<FormatArgsPiece>,
    begun: String,
}

impl Making {
    fn new(alloc: Global) -> Making
        ensures { made_of result ≡ ([], []) }
    {
        Making {
            alloc,
            pieces: Vec::new(alloc),
            begun: String::new(alloc),
        }
    }

    // Puts the literal that was begun behind the pieces, if it is not empty.
    fn end_literal(&mut self) -> Result<(), AllocError>
        ensures { OnOk result (made_of self.new ≡ ((made_of self.old).0 ++ literal_of (made_of self.old).1, [])) }
    {
        if self.begun.is_empty() {
            return Ok(());
        }
        let literal = Symbol::new(self.alloc, self.begun.as_str())?;
        self.pieces.push(FormatArgsPiece::Literal(literal))?;
        self.begun.clear();
        Ok(())
    }

    // Puts a placeholder behind the pieces.
    fn push(&mut self, placeholder: FormatPlaceholder) -> Result<(), AllocError>
        ensures { OnOk result (made_of self.new ≡ ((made_of self.old).0 ++ Placeholder placeholder ∷ [], (made_of self.old).1)) }
    {
        self.pieces.push(FormatArgsPiece::Placeholder(placeholder))?;
        Ok(())
    }

    // Puts a placeholder behind the others, and looks up what it refers to.
    fn add_placeholder<C: Captures>(
        &mut self,
        literal: Literal<'_>,
        argument: Argument,
        args: &mut FormatArgumentsCollector,
        captures: &mut C,
    ) -> Result<(), ParseError<C::Refused>>
        requires within { OfEachRange (IsRangeOf literal) (NextArgument argument) }
        requires short { HasSpans literal }
        ensures found { OnOk result (Finds literal.entry.is_direct literal.entry.ptr (references_of (source_of literal.entry) (NextArgument argument ∷ [])) (piece_added (source_of literal.entry) (NextArgument argument) (made_of self.old)) args.old (C.log captures.old) args.new (C.log captures.new) (made_of self.new)) }
        ensures halted { OnErr result (Halts literal.entry.is_direct (references_of (source_of literal.entry) (NextArgument argument ∷ [])) args.old (C.log captures.old) (C.log captures.new)) }
        ensures cause { IfErr result (HasRefusal (C.refusals captures.old) (C.refusals captures.new) (C.allows captures.new)) }
        ensures steady { OnOk result (C.refusals captures.new ≡ C.refusals captures.old) }
        ensures grown { C.grows captures.old captures.new }
    {
        self.end_literal()?;
        let placeholder = find_placeholder(self.alloc, literal, argument, args, captures)?;
        self.push(placeholder)?;
        Ok(())
    }

    // Puts a piece of a format text behind the others, and looks up what it refers to.
    fn add<C: Captures>(
        &mut self,
        literal: Literal<'_>,
        piece: Piece,
        args: &mut FormatArgumentsCollector,
        captures: &mut C,
    ) -> Result<(), ParseError<C::Refused>>
        requires within { OfEachRange (IsRangeOf literal) piece }
        requires short { HasSpans literal }
        ensures found { OnOk result (Finds literal.entry.is_direct literal.entry.ptr (references_of (source_of literal.entry) (piece ∷ [])) (piece_added (source_of literal.entry) piece (made_of self.old)) args.old (C.log captures.old) args.new (C.log captures.new) (made_of self.new)) }
        ensures halted { OnErr result (Halts literal.entry.is_direct (references_of (source_of literal.entry) (piece ∷ [])) args.old (C.log captures.old) (C.log captures.new)) }
        ensures cause { IfErr result (HasRefusal (C.refusals captures.old) (C.refusals captures.new) (C.allows captures.new)) }
        ensures steady { OnOk result (C.refusals captures.new ≡ C.refusals captures.old) }
        ensures grown { C.grows captures.old captures.new }
    {
        match piece {
            Piece::Lit(range) => {
                self.begun.push_str(literal.slice(range))?;
                Ok(())
            }
            Piece::NextArgument(argument) => self.add_placeholder(
                literal, argument, args, captures,
            ),
        }
    }
}

/// Makes the template of the pieces of a format text, and looks up what they refer to.
pub(crate) fn find_template<C: Captures>(
    alloc: Global,
    literal: Literal<'_>,
    pieces: &[Piece],
    args: &mut FormatArgumentsCollector,
    captures: &mut C,
) -> Result<Items<FormatArgsPiece>, ParseError<C::Refused>>
    requires within { All (OfEachRange (IsRangeOf literal)) pieces.now }
    requires short { HasSpans literal }
    ensures found { IfOk result (Finds literal.entry.is_direct literal.entry.ptr (references_of (source_of literal.entry) pieces.now) (template_of (source_of literal.entry) pieces.now) args.old (C.log captures.old) args.new (C.log captures.new)) }
    ensures halted { OnErr result (Halts literal.entry.is_direct (references_of (source_of literal.entry) pieces.now) args.old (C.log captures.old) (C.log captures.new)) }
    ensures cause { IfErr result (HasRefusal (C.refusals captures.old) (C.refusals captures.new) (C.allows captures.new)) }
    ensures steady { OnOk result (C.refusals captures.new ≡ C.refusals captures.old) }
    ensures grown { C.grows captures.old captures.new }
{
    let mut making = Making::new(alloc);
    for piece in pieces {
        making.add(literal, *piece, args, captures)?;
    }
    making.end_literal()?;
    Ok(Items::from_vec(making.pieces))
}
