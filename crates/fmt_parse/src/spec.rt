ghost use Rattle.std.specs.Prelude.{◌≡◌, false, Some, None, IfSome, option_map, option_and_then};
ghost use Rattle.text_cut.specs.Runs.{starts, tail};
ghost use Rattle.text_cut.specs.Place.{first};
ghost use Rattle.text_cut.specs.Rules.{one_at};
ghost use Rattle.text_cut.specs.Seen.{seen};
ghost use Rattle.fmt_parse.specs.Tokens.{is_align, is_x};
ghost use Rattle.fmt_parse.specs.Spec.{align_of, hex_of, sign_test, sign_of, hash_test, zero_test, flag, spec_of, typed_parts, plain_parts};
ghost use Rattle.fmt_parse.specs.Pieces.{stars};
ghost use Rattle.fmt_parse.specs.ReadSpec.{filled_at, align_at, question_at, hex_at, name_type_at, type_at, parts_at, format_at};
ghost use Rattle.fmt_parse.specs.Format.{parts_of};

use crate::count::{count, precision};
use crate::piece::{Alignment, Count, DebugHex, FormatSpec, Sign};
use crate::token::{name, range, starts_name};
use sym_core::TextRange;
use text_cut::{Cursor, begins_with, next, starts_with};

// The alignment that a character is.
fn align_of(c: char) -> Alignment
    ensures { result ≡ align_of c }
{
    match c {
        '<' => Alignment::Left,
        '^' => Alignment::Center,
        _ => Alignment::Right,
    }
}

// Whether an alignment stands here.
fn starts_align(here: Cursor<'_>) -> bool
    ensures { result ≡ starts is_align (seen here.entry).left }
{
    begins_with(here, |c| c == '<' || c == '^' || c == '>')
}

// Whether the second character here is an alignment.
fn has_fill(here: Cursor<'_>) -> bool
    ensures { result ≡ starts is_align (tail (seen here.entry).left) }
{
    match next(here) {
        Some((_, behind)) => starts_align(behind),
        None => false,
    }
}

// The fill and the alignment that two characters are here.
fn filled(here: Cursor<'_>) -> Option<(Option<char>, Alignment, Cursor<'_>)>
    ensures { option_map (λ r. ((r.0, r.1), seen r.2)) result ≡ option_and_then filled_at (first (seen here.entry)) }
{
    let (fill, behind) = next(here)?;
    let (mark, end) = next(behind)?;
    Some((Some(fill), align_of(mark), end))
}

// The fill and the alignment that stand here, and the place behind them.
#[tactic(auto, unfolding(crate::specs::ReadSpec::align_at))]
fn alignment(here: Cursor<'_>) -> Option<(Option<char>, Alignment, Cursor<'_>)>
    ensures { option_map (λ r. ((r.0, r.1), seen r.2)) result ≡ align_at (seen here.entry) }
{
    if has_fill(here) {
        return filled(here);
    }
    if starts_align(here) {
        let (mark, end) = next(here)?;
        return Some((None, align_of(mark), end));
    }
    Some((None, Alignment::Unknown, here))
}

// The sign that stands here, if one does, and the place behind it.
fn sign(here: Cursor<'_>) -> (Option<Sign>, Cursor<'_>)
    ensures { Some (result.0, seen result.1) ≡ one_at sign_test sign_of None (seen here.entry) }
{
    match next(here) {
        Some(('+', behind)) => (Some(Sign::Plus), behind),
        Some(('-', behind)) => (Some(Sign::Minus), behind),
        _ => (None, here),
    }
}

// Whether the flag `#` stands here, and the place behind it.
fn alternate(here: Cursor<'_>) -> (bool, Cursor<'_>)
    ensures { Some (result.0, seen result.1) ≡ one_at hash_test flag false (seen here.entry) }
{
    match next(here) {
        Some(('#', behind)) => (true, behind),
        _ => (false, here),
    }
}

// Whether the flag `0` stands here, a `0` that no `$` follows, and the place behind it.
fn zero_flag(here: Cursor<'_>) -> (bool, Cursor<'_>)
    ensures { Some (result.0, seen result.1) ≡ one_at zero_test flag false (seen here.entry) }
{
    match next(here) {
        Some((c, behind)) => {
            if c == '0' && !starts_with(behind, '$') {
                return (true, behind);
            }
            (false, here)
        }
        None => (false, here),
    }
}

// Whether an `x` or `X` stands here.
fn starts_x(here: Cursor<'_>) -> bool
    ensures { result ≡ starts is_x (seen here.entry).left }
{
    begins_with(here, |c| c == 'x' || c == 'X')
}

// Which digits a letter asks for.
fn hex_of(c: char) -> DebugHex
    ensures { result ≡ hex_of c }
{
    match c {
        'x' => DebugHex::Lower,
        _ => DebugHex::Upper,
    }
}

// The type `?`, and the place behind it.
fn question(here: Cursor<'_>) -> Option<(Option<DebugHex>, TextRange, Cursor<'_>)>
    ensures { option_map (λ r. ((r.0, r.1), seen r.2)) result ≡ question_at (seen here.entry) }
{
    let (_, end) = next(here)?;
    Some((None, range(here, end), end))
}

// The type that `x` or `X` begins, and the place behind it.
#[tactic(auto, unfolding(crate::specs::ReadSpec::hex_at))]
fn hex(here: Cursor<'_>) -> Option<(Option<DebugHex>, TextRange, Cursor<'_>)>
    ensures { option_map (λ r. ((r.0, r.1), seen r.2)) result ≡ hex_at (seen here.entry) }
{
    let (letter, behind) = next(here)?;
    if starts_with(behind, '?') {
        let (_, end) = next(behind)?;
        return Some((Some(hex_of(letter)), range(behind, end), end));
    }
    Some((None, range(here, behind), behind))
}

// The type that a name is here, and the place behind it.
#[tactic(auto, unfolding(crate::specs::ReadSpec::name_type_at))]
fn name_type(here: Cursor<'_>) -> Option<(Option<DebugHex>, TextRange, Cursor<'_>)>
    ensures { option_map (λ r. ((r.0, r.1), seen r.2)) result ≡ name_type_at (seen here.entry) }
{
    let end = name(here)?;
    Some((None, range(here, end), end))
}

// The type that stands here, or the empty one, and the place behind it.
#[tactic(auto, unfolding(crate::specs::ReadSpec::type_at))]
fn format_type(here: Cursor<'_>) -> Option<(Option<DebugHex>, TextRange, Cursor<'_>)>
    ensures { option_map (λ r. ((r.0, r.1), seen r.2)) result ≡ type_at (seen here.entry) }
{
    if starts_with(here, '?') {
        return question(here);
    }
    if starts_x(here) {
        return hex(here);
    }
    if starts_name(here) {
        return name_type(here);
    }
    Some((None, range(here, here), here))
}

// What stands behind a colon, and the place behind it; none where a part of it cannot be read.
fn parts(here: Cursor<'_>, number: usize) -> Option<(FormatSpec, Cursor<'_>)>
    ensures value { option_map (λ r. (parts_of r.0, seen r.1)) result ≡ parts_at number (seen here.entry) }
    ensures width { IfSome result (λ r. stars r.0.width ≡ 0) }
{
    let (fill, align, behind) = alignment(here)?;
    let (sign, behind) = sign(behind);
    let (alternate, behind) = alternate(behind);
    let (zero_pad, behind) = zero_flag(behind);
    let (width, width_span, behind) = count(behind)?;
    let (precision, precision_span, behind) = precision(behind, number)?;
    let (debug_hex, ty, end) = format_type(behind)?;
    let spec = FormatSpec {
        fill,
        align,
        sign,
        alternate,
        zero_pad,
        debug_hex,
        precision,
        precision_span,
        width,
        width_span,
        ty,
    };
    Some((spec, end))
}

/// What a type alone says.
pub(crate) fn typed(ty: TextRange) -> FormatSpec
    ensures { result ≡ spec_of (typed_parts ty) }
{
    FormatSpec {
        fill: None,
        align: Alignment::Unknown,
        sign: None,
        alternate: false,
        zero_pad: false,
        debug_hex: None,
        precision: Count::Implied,
        precision_span: None,
        width: Count::Implied,
        width_span: None,
        ty,
    }
}

/// What a placeholder without a colon says, which ends here.
pub(crate) fn plain(here: Cursor<'_>) -> FormatSpec
    ensures { result ≡ spec_of (plain_parts (seen here.entry).at) }
{
    typed(range(here, here))
}

/// What a colon and the parts behind it say here, and the place behind them; none where a part cannot be read.
///
/// The next argument has this number.
#[tactic(auto, unfolding(crate::specs::ReadSpec::format_at))]
pub(crate) fn format_spec(here: Cursor<'_>, number: usize) -> Option<(FormatSpec, Cursor<'_>)>
    ensures value { option_map (λ r. (parts_of r.0, seen r.1)) result ≡ format_at number (seen here.entry) }
    ensures width { IfSome result (λ r. stars r.0.width ≡ 0) }
{
    if !starts_with(here, ':') {
        return Some((plain(here), here));
    }
    let (_, behind) = next(here)?;
    parts(behind, number)
}
