ghost use Rattle.std.specs.Prelude.{◌≡◌, ◌+◌, ◌≤◌, IfSome, length, option_map};
ghost use Rattle.text_cut.specs.Seen.{seen};
ghost use Rattle.script_tokens.specs.Ahead.{ahead, end};
ghost use Rattle.script_tokens.specs.Lines.{past_feed, past_line, past_comment, past_blank_line, line_ended};

use crate::lexer::next_token;
use text_cut::{Cursor, blanks, eat_char, eat_while, starts_with};

// The place behind a comment, `#` and all up to the end of its line; where there is none, the place itself.
fn comment(here: Cursor<'_>) -> Cursor<'_>
    ensures value { seen result ≡ past_comment (seen here.entry) }
    ensures shorter { length result.rest.now ≤ length here.entry.rest.now }
{
    if !starts_with(here, '#') {
        return here;
    }
    eat_while(here, |c| c != '\n')
}

/// Returns the place behind the line, where no token is left of it; `None` where one is, or where the text ends without a line feed.
///
/// ```
/// assert_eq!(line_end(begin(" \t\nopt a\n")).unwrap().at, 3);
/// assert!(line_end(begin(" a\n")).is_none());
/// ```
pub fn line_end(here: Cursor<'_>) -> Option<Cursor<'_>>
    ensures value { option_map seen result ≡ line_ended (ahead here.entry) (end here.entry) }
    ensures shorter { IfSome result (λ e. length e.rest.now + 1 ≤ length here.entry.rest.now) }
{
    if next_token(here).is_some() {
        return None;
    }
    eat_char(blanks(here), '\n')
}

/// Returns the place behind a line without meaning: blanks, nothing or a comment, and a line feed; `None` where another stands here.
///
/// ```
/// assert_eq!(blank_line(begin("  # opt a\n")).unwrap().at, 10);
/// assert!(blank_line(begin("opt a # b\n")).is_none());
/// ```
pub fn blank_line(here: Cursor<'_>) -> Option<Cursor<'_>>
    ensures value { option_map seen result ≡ past_blank_line (seen here.entry) }
    ensures shorter { IfSome result (λ e. length e.rest.now + 1 ≤ length here.entry.rest.now) }
{
    eat_char(comment(blanks(here)), '\n')
}
