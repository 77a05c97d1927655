ghost use Rattle.std.specs.Prelude.{◌≡◌, IfSome, option_map};
ghost use Rattle.text_cut.specs.Seen.{seen};
ghost use Rattle.fmt_parse.specs.Spec.{starts_dollar_name};
ghost use Rattle.fmt_parse.specs.Pieces.{stars};
ghost use Rattle.fmt_parse.specs.ReadSpec.{number_count_at, name_count_at, count_at, precise_at, precision_at};

use crate::piece::Count;
use crate::token::{int, name, name_end, range, starts_digit, starts_name};
use sym_core::TextRange;
use text_cut::{Cursor, next, starts_with};

// The count that a number is here, with a `$` behind it or without one; none where no number stands.
#[tactic(auto, unfolding(crate::specs::ReadSpec::number_count_at))]
fn number_count(here: Cursor<'_>) -> Option<(Count, Option<TextRange>, Cursor<'_>)>
    ensures value { option_map (λ r. ((r.0, r.1), seen r.2)) result ≡ number_count_at (seen here.entry) }
    ensures width { IfSome result (λ r. stars r.0 ≡ 0) }
{
    let (value, behind) = int(here)?;
    let text = range(here, behind);
    if starts_with(behind, '$') {
        let (_, end) = next(behind)?;
        return Some((Count::IsParam(value as usize), Some(text), end));
    }
    Some((Count::Is(value), Some(text), behind))
}

// Whether a name stands here, and a `$` behind it.
fn starts_dollar_name(here: Cursor<'_>) -> bool
    ensures { result ≡ starts_dollar_name (seen here.entry).left }
{
    if !starts_name(here) {
        return false;
    }
    match next(here) {
        Some((_, behind)) => starts_with(name_end(behind), '$'),
        None => false,
    }
}

// The count that a name is here, and the place behind the character that follows it; none where no name stands.
#[tactic(auto, unfolding(crate::specs::ReadSpec::name_count_at))]
fn name_count(here: Cursor<'_>) -> Option<(Count, Option<TextRange>, Cursor<'_>)>
    ensures value { option_map (λ r. ((r.0, r.1), seen r.2)) result ≡ name_count_at (seen here.entry) }
    ensures width { IfSome result (λ r. stars r.0 ≡ 0) }
{
    let behind = name(here)?;
    let text = range(here, behind);
    let (_, end) = next(behind)?;
    Some((Count::IsName(text), Some(text), end))
}

/// The count that stands here, its text's range, and the place behind it; none where a number is too great.
#[tactic(auto, unfolding(crate::specs::ReadSpec::count_at))]
pub(crate) fn count(here: Cursor<'_>) -> Option<(Count, Option<TextRange>, Cursor<'_>)>
    ensures value { option_map (λ r. ((r.0, r.1), seen r.2)) result ≡ count_at (seen here.entry) }
    ensures width { IfSome result (λ r. stars r.0 ≡ 0) }
{
    if starts_digit(here) {
        return number_count(here);
    }
    if starts_dollar_name(here) {
        return name_count(here);
    }
    Some((Count::Implied, None, here))
}

// What stands behind the dot of a precision: a `*`, which takes the argument of this number, or a count that is one.
#[tactic(auto, unfolding(crate::specs::ReadSpec::precise_at))]
fn precise(here: Cursor<'_>, number: usize) -> Option<(Count, Option<TextRange>, Cursor<'_>)>
    ensures { option_map (λ r. ((r.0, r.1), seen r.2)) result ≡ precise_at number (seen here.entry) }
{
    if starts_with(here, '*') {
        let (_, end) = next(here)?;
        return Some((Count::IsStar(number), Some(range(here, end)), end));
    }
    let (count, text, end) = count(here)?;
    if count == Count::Implied {
        return None;
    }
    Some((count, text, end))
}

/// The precision that stands here, its text's range, and the place behind it; none where a dot has none behind it.
///
/// The next argument has this number.
#[tactic(auto, unfolding(crate::specs::ReadSpec::precision_at))]
pub(crate) fn precision(
    here: Cursor<'_>,
    number: usize,
) -> Option<(Count, Option<TextRange>, Cursor<'_>)>
    ensures { option_map (λ r. ((r.0, r.1), seen r.2)) result ≡ precision_at number (seen here.entry) }
{
    if !starts_with(here, '.') {
        return Some((Count::Implied, None, here));
    }
    let (_, behind) = next(here)?;
    precise(behind, number)
}
