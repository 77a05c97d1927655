ghost use Rattle.std.specs.Prelude.{◌≡◌, ◌+◌, ◌-◌, ◌*◌, true, Some, None, option_map, nat_le, if◌then◌else◌};
ghost use Rattle.std.specs.Char.{is_ascii_digit};
ghost use Rattle.text_cut.specs.Runs.{starts};
ghost use Rattle.text_cut.specs.Seen.{seen};
ghost use Rattle.unicode_ident.specs.Ident.{is_xid_continue};
ghost use Rattle.fmt_parse.specs.Tokens.{starts_name};
ghost use Rattle.fmt_parse.specs.ReadTokens.{between, past_name, int_at, name_at};

use sym_core::TextRange;
use text_cut::{Cursor, begins_with, eat_while, next};
use unicode_ident::{is_xid_continue, is_xid_start};

/// The range from one place to another.
pub(crate) fn range(here: Cursor<'_>, end: Cursor<'_>) -> TextRange
    ensures { result ≡ between (seen here.entry) (seen end.entry) }
{
    TextRange {
        start: here.at,
        end: end.at,
    }
}

/// Whether a digit stands here.
pub(crate) fn starts_digit(here: Cursor<'_>) -> bool
    ensures { result ≡ starts is_ascii_digit (seen here.entry).left }
{
    begins_with(here, |c| c.is_ascii_digit())
}

// The number with a digit behind it, if it has 16 bits.
fn with_digit(value: u16, digit: char) -> Option<u16>
    requires { is_ascii_digit digit ≡ true }
    ensures { result ≡ if nat_le (value * 10 + (digit - 48)) 65535 then Some (value * 10 + (digit - 48)) else None }
{
    let more = value as u32 * 10 + (digit as u32 - 48);
    if more > 65_535 {
        return None;
    }
    Some(more as u16)
}

/// The number of 16 bits that digits write here, and the place behind them; none where no digit stands, or the number is greater.
#[tactic(auto, unfolding(crate::specs::ReadTokens::int_at))]
pub(crate) fn int(here: Cursor<'_>) -> Option<(u16, Cursor<'_>)>
    ensures { option_map (λ r. (r.0, seen r.1)) result ≡ int_at (seen here.entry) }
{
    if !starts_digit(here) {
        return None;
    }
    let mut value = 0;
    let mut end = here;
    while let Some((c, behind)) = next(end) {
        if !c.is_ascii_digit() {
            return Some((value, end));
        }
        value = with_digit(value, c)?;
        end = behind;
    }
    Some((value, end))
}

// Whether a character that goes on a name stands here.
fn continues_name(here: Cursor<'_>) -> bool
    ensures { result ≡ starts is_xid_continue (seen here.entry).left }
{
    begins_with(here, |c| is_xid_continue(c))
}

/// Whether what begins a name stands here.
pub(crate) fn starts_name(here: Cursor<'_>) -> bool
    ensures { result ≡ starts_name (seen here.entry).left }
{
    match next(here) {
        Some((c, behind)) => is_xid_start(c) || c == '_' && continues_name(behind),
        None => false,
    }
}

/// The place behind all characters here that go on a name.
pub(crate) fn name_end(here: Cursor<'_>) -> Cursor<'_>
    ensures { seen result ≡ past_name (seen here.entry) }
{
    eat_while(here, |c| is_xid_continue(c))
}

/// The place behind the name that stands here; none where none does.
#[tactic(auto, unfolding(crate::specs::ReadTokens::name_at))]
pub(crate) fn name(here: Cursor<'_>) -> Option<Cursor<'_>>
    ensures { option_map seen result ≡ name_at (seen here.entry) }
{
    if !starts_name(here) {
        return None;
    }
    let (_, behind) = next(here)?;
    Some(name_end(behind))
}
