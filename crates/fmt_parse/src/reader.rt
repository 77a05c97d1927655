ghost use Rattle.std.specs.Prelude.{◌≡◌, ◌==◌, ◌++◌, ◌∷◌, [], IfOk, IfSome, option_map};
ghost use Rattle.text_cut.specs.Runs.{starts, tail};
ghost use Rattle.text_cut.specs.Place.{past};
ghost use Rattle.text_cut.specs.Seen.{seen};
ghost use Rattle.fmt_parse.specs.Pieces.{takes, implicit, is_plain};
ghost use Rattle.fmt_parse.specs.ReadPieces.{plain_text_at, doubled_at, piece_at};
ghost use Rattle.fmt_parse.specs.Mode.{options_at, HasRoom};
ghost use Rattle.fmt_parse.specs.Format.{HasPlainWidth};

use crate::options::Mode;
use crate::piece::{Piece, Position};
use crate::placeholder::{placeholder, stars};
use crate::token::range;
use std::alloc::AllocError;
use text_cut::{Cursor, begins_with, eat_while, next, starts_with};

// Whether a character that stands for itself stands here.
fn starts_plain(here: Cursor<'_>) -> bool
    ensures { result ≡ starts is_plain (seen here.entry).left }
{
    begins_with(here, |c| c != '{' && c != '}')
}

// The place behind the characters here that stand for themselves.
fn plain_end(here: Cursor<'_>) -> Cursor<'_>
    ensures { seen result ≡ past is_plain (seen here.entry) }
{
    eat_while(here, |c| c != '{' && c != '}')
}

// The literal of the characters here that stand for themselves, and the place behind it.
fn literal(here: Cursor<'_>) -> (Piece, Cursor<'_>)
    ensures value { (result.0, seen result.1) ≡ plain_text_at (seen here.entry) }
    ensures width { HasPlainWidth result.0 }
{
    let end = plain_end(here);
    (Piece::Lit(range(here, end)), end)
}

// The literal of a doubled brace, and the place behind it.
#[tactic(auto, unfolding(crate::specs::ReadPieces::doubled_at))]
fn doubled(here: Cursor<'_>) -> Option<(Piece, Cursor<'_>)>
    ensures value { option_map (λ r. (r.0, seen r.1)) result ≡ doubled_at (seen here.entry) }
    ensures width { IfSome result (λ r. HasPlainWidth r.0) }
{
    let (_, behind) = next(here)?;
    let (_, end) = next(behind)?;
    Some((Piece::Lit(range(here, behind)), end))
}

// Whether this is the second character here.
fn second_is(here: Cursor<'_>, c: char) -> bool
    ensures { result ≡ starts (λ d. d == c) (tail (seen here.entry).left) }
{
    match next(here) {
        Some((_, behind)) => starts_with(behind, c),
        None => false,
    }
}

/// The piece that stands here, and the place behind it; none where none does. The next argument has this number.
#[tactic(auto, unfolding(crate::specs::ReadPieces::piece_at))]
pub(crate) fn next_piece(here: Cursor<'_>, number: usize, mode: Mode) -> Option<(Piece, Cursor<'_>)>
    requires { HasRoom mode number }
    ensures value { option_map (λ r. (r.0, seen r.1)) result ≡ piece_at (options_at mode number) number (seen here.entry) }
    ensures width { IfSome result (λ r. HasPlainWidth r.0) }
{
    if starts_plain(here) {
        return Some(literal(here));
    }
    if starts_with(here, '{') {
        if second_is(here, '{') {
            return doubled(here);
        }
        return placeholder(here, number, mode);
    }
    if second_is(here, '}') {
        return doubled(here);
    }
    None
}

// Whether a position takes an argument by its turn: 1 if it does.
fn implicit(position: Position) -> usize
    ensures { result ≡ implicit position }
{
    match position {
        Position::ImplicitlyIs(_) => 1,
        _ => 0,
    }
}

/// How many arguments a piece takes from those that have no number.
pub(crate) fn takes(piece: Piece) -> usize
    ensures { result ≡ takes piece }
{
    match piece {
        Piece::Lit(_) => 0,
        Piece::NextArgument(argument) => {
            stars(argument.format.precision) + implicit(argument.position)
        }
    }
}

/// Puts a piece behind the others.
pub(crate) fn add(pieces: &mut Vec<Piece>, piece: Piece) -> Result<(), AllocError>
    ensures { IfOk result (λ u. pieces.new.items ≡ pieces.old.items ++ piece ∷ []) }
{
    pieces.push(piece)?;
    Ok(())
}
