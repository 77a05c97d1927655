ghost use Rattle.std.specs.Prelude.{◌≤◌, length, IfOk, IfErr};
ghost use Rattle.std.specs.List.{All};
ghost use Rattle.fmt_parse.specs.Pieces.{ArePieces};
ghost use Rattle.fmt_parse.specs.Format.{HasPlainWidth, IsFault};
ghost use Rattle.fmt_parse.specs.Ranges.{RangesWithin};

use crate::options::Mode;
use crate::piece::Piece;
use crate::reader::{add, next_piece, takes};
use std::alloc::{AllocError, Global};
use text_cut::{begin, is_at_end};
use thiserror::Error;

/// Why a format text was not read.
#[derive(Debug, PartialEq, Eq, Drop, Error)]
pub enum FormatError {
    /// The text is no format text: pieces stand in front of this byte, and none at it.
    #[error("the format text cannot be read from byte {at} on")]
    Syntax {
        /// How many bytes the furthest pieces take.
        at: usize,
    },
    /// No memory is left.
    #[error("{0}")]
    Memory(AllocError),
}

impl From<AllocError> for FormatError {
    ghost use Rattle.std.specs.Prelude.{◌≡◌};
    ghost use Rattle.fmt_parse.specs.declared.format.FormatError.TheVariants.{Memory};

    ghost from_gives = { λ error refused. refused ≡ Memory error };

    fn from(error: AllocError) -> FormatError {
        FormatError::Memory(error)
    }
}

/// Reads a format text of at most 4,294,967,295 bytes: it is exactly the pieces that are returned.
///
/// Every range of a piece is a part of the text, in bytes: from where a spelling begins up to where it ends.
///
/// ```
/// let pieces = parse_format(alloc, "é{x:>5}")?;
/// let [Piece::Lit(letter), Piece::NextArgument(argument)] = pieces.as_slice() else { panic!() };
/// assert_eq!(*letter, TextRange { start: 0, end: 2 });
/// assert_eq!(argument.position, Position::Named(TextRange { start: 3, end: 4 }));
/// assert_eq!(argument.format.width, Count::Is(5));
/// assert_eq!(parse_format(alloc, "a}"), Err(FormatError::Syntax { at: 1 }));
/// ```
///
/// # Errors
///
/// [`FormatError::Syntax`] exactly where the text is no format text, with the offset at which the furthest pieces from its
/// front end; [`FormatError::Memory`] where no memory is left, which says nothing of the text.
pub fn parse_format(alloc: Global, text: &str) -> Result<Vec<Piece>, FormatError>
    requires { length text.now ≤ 4_294_967_295 }
    ensures read { IfOk result (λ pieces. ArePieces text.now pieces.items) }
    ensures fault { IfErr result (IsFault text.now) }
    ensures widths { IfOk result (λ pieces. All HasPlainWidth pieces.items) }
    ensures ranges { IfOk result (λ pieces. All (RangesWithin text.now) pieces.items) }
{
    let mut pieces = Vec::new(alloc);
    let mut number = 0;
    let mut here = begin(text);
    while let Some((piece, behind)) = next_piece(here, number, Mode::Format) {
        number += takes(piece);
        add(&mut pieces, piece)?;
        here = behind;
    }
    if !is_at_end(here) {
        return Err(FormatError::Syntax {
            at: here.at as usize,
        });
    }
    Ok(pieces)
}
