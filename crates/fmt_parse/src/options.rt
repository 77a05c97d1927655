ghost use Rattle.std.specs.Prelude.{◌≡◌, ◌+◌, ◌≤◌, IfSome, option_map};
ghost use Rattle.text_cut.specs.Seen.{seen};
ghost use Rattle.fmt_parse.specs.Pieces.{stars};
ghost use Rattle.fmt_parse.specs.ReadAsm.{modifier_at, modified_at};
ghost use Rattle.fmt_parse.specs.Mode.{options_at, HasRoom};
ghost use Rattle.fmt_parse.specs.Format.{parts_of};

use crate::piece::FormatSpec;
use crate::spec::{format_spec, plain, typed};
use crate::token::{name, range, starts_name};
use text_cut::{Cursor, next, starts_with};

/// Which kind of text is read: it decides what may stand behind an argument.
#[derive(Clone, Copy)]
pub(crate) enum Mode {
    /// A format text: fill, flags, width, precision and type.
    Format,
    /// A template of inline assembly: a modifier.
    InlineAsm,
}

// The modifier that stands here, or the empty one, and the place behind it.
#[tactic(auto, unfolding(crate::specs::ReadAsm::modifier_at))]
fn modifier(here: Cursor<'_>) -> Option<(FormatSpec, Cursor<'_>)>
    ensures value { option_map (λ r. (parts_of r.0, seen r.1)) result ≡ modifier_at (seen here.entry) }
    ensures width { IfSome result (λ r. stars r.0.width ≡ 0) }
    ensures precision { IfSome result (λ r. stars r.0.precision ≡ 0) }
{
    if starts_name(here) {
        let end = name(here)?;
        return Some((typed(range(here, end)), end));
    }
    Some((plain(here), here))
}

// What a colon and the modifier behind it say here, and the place behind them.
#[tactic(auto, unfolding(crate::specs::ReadAsm::modified_at))]
fn modified(here: Cursor<'_>) -> Option<(FormatSpec, Cursor<'_>)>
    ensures value { option_map (λ r. (parts_of r.0, seen r.1)) result ≡ modified_at (seen here.entry) }
    ensures width { IfSome result (λ r. stars r.0.width ≡ 0) }
    ensures precision { IfSome result (λ r. stars r.0.precision ≡ 0) }
{
    if !starts_with(here, ':') {
        return Some((plain(here), here));
    }
    let (_, behind) = next(here)?;
    modifier(behind)
}

/// The options that stand here, and the place behind them; none where a part of them cannot be read.
///
/// The next argument has this number.
pub(crate) fn options(
    here: Cursor<'_>,
    number: usize,
    mode: Mode,
) -> Option<(FormatSpec, Cursor<'_>)>
    requires { HasRoom mode number }
    ensures value { option_map (λ r. (parts_of r.0, seen r.1)) result ≡ options_at mode number (seen here.entry) }
    ensures width { IfSome result (λ r. stars r.0.width ≡ 0) }
    ensures room { IfSome result (λ r. number + stars r.0.precision ≤ 18_446_744_073_709_551_615) }
{
    match mode {
        Mode::Format => format_spec(here, number),
        Mode::InlineAsm => modified(here),
    }
}
