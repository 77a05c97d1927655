ghost use Rattle.std.specs.Prelude.{◌≡◌, IfSome, option_map};
ghost use Rattle.text_cut.specs.Place.{past};
ghost use Rattle.text_cut.specs.Seen.{seen};
ghost use Rattle.std.specs.Char.{is_whitespace};
ghost use Rattle.fmt_parse.specs.Pieces.{stars, filled};
ghost use Rattle.fmt_parse.specs.Mode.{options_at, HasRoom};
ghost use Rattle.fmt_parse.specs.Format.{HasPlainWidth};
ghost use Rattle.fmt_parse.specs.ReadPieces.{number_arg_at, name_arg_at, arg_at, end_at, placeholder_at};

use crate::options::{Mode, options};
use crate::piece::{Argument, Count, Piece, Position};
use crate::token::{int, name, range, starts_digit, starts_name};
use sym_core::TextRange;
use text_cut::{Cursor, eat_while, next, starts_with};

// The argument of the number that stands here.
#[tactic(auto, unfolding(crate::specs::ReadPieces::number_arg_at))]
fn number_argument(here: Cursor<'_>) -> Option<(Option<Position>, TextRange, Cursor<'_>)>
    ensures { option_map (λ r. ((r.0, r.1), seen r.2)) result ≡ number_arg_at (seen here.entry) }
{
    let (value, end) = int(here)?;
    Some((Some(Position::Is(value as usize)), range(here, end), end))
}

// The argument of the name that stands here.
#[tactic(auto, unfolding(crate::specs::ReadPieces::name_arg_at))]
fn name_argument(here: Cursor<'_>) -> Option<(Option<Position>, TextRange, Cursor<'_>)>
    ensures { option_map (λ r. ((r.0, r.1), seen r.2)) result ≡ name_arg_at (seen here.entry) }
{
    let end = name(here)?;
    let text = range(here, end);
    Some((Some(Position::Named(text)), text, end))
}

// Which argument is named here, if one is, with the range of that; and the place behind it.
#[tactic(auto, unfolding(crate::specs::ReadPieces::arg_at))]
fn argument(here: Cursor<'_>) -> Option<(Option<Position>, TextRange, Cursor<'_>)>
    ensures { option_map (λ r. ((r.0, r.1), seen r.2)) result ≡ arg_at (seen here.entry) }
{
    if starts_digit(here) {
        return number_argument(here);
    }
    if starts_name(here) {
        return name_argument(here);
    }
    Some((None, range(here, here), here))
}

// The place behind the white space that stands here.
fn white_end(here: Cursor<'_>) -> Cursor<'_>
    ensures { seen result ≡ past is_whitespace (seen here.entry) }
{
    eat_while(here, |c| c.is_whitespace())
}

// The place behind white space and the closing brace; none where none stands there.
#[tactic(auto, unfolding(crate::specs::ReadPieces::end_at))]
fn end(here: Cursor<'_>) -> Option<Cursor<'_>>
    ensures { option_map (λ e. (tt, seen e)) result ≡ end_at (seen here.entry) }
{
    let behind = white_end(here);
    if !starts_with(behind, '}') {
        return None;
    }
    let (_, end) = next(behind)?;
    Some(end)
}

/// How many arguments a count takes from those that have no number.
pub(crate) fn stars(count: Count) -> usize
    ensures { result ≡ stars count }
{
    match count {
        Count::IsStar(_) => 1,
        _ => 0,
    }
}

// Which argument is put: the one that is written, or the one of this number.
fn filled(written: Option<Position>, number: usize) -> Position
    ensures { result ≡ filled written number }
{
    match written {
        Some(position) => position,
        None => Position::ImplicitlyIs(number),
    }
}

/// The placeholder whose opening brace stands here, and the place behind it; none where what follows is none.
///
/// The next argument has this number.
#[tactic(auto, unfolding(crate::specs::ReadPieces::placeholder_at))]
pub(crate) fn placeholder(
    here: Cursor<'_>,
    number: usize,
    mode: Mode,
) -> Option<(Piece, Cursor<'_>)>
    requires { HasRoom mode number }
    ensures value { option_map (λ r. (r.0, seen r.1)) result ≡ placeholder_at (options_at mode number) number (seen here.entry) }
    ensures width { IfSome result (λ r. HasPlainWidth r.0) }
{
    let (_, begin) = next(here)?;
    let (written, position_span, behind) = argument(begin)?;
    let (format, behind) = options(behind, number, mode)?;
    let end = end(behind)?;
    let argument = Argument {
        position: filled(written, number + stars(format.precision)),
        position_span,
        span: range(here, end),
        format,
    };
    Some((Piece::NextArgument(argument), end))
}
