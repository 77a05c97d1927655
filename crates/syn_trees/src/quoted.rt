ghost use Rattle.std.specs.Prelude.{◌≡◌, false, [], ◌∷◌, ◌+◌, ◌≤◌, length, option_map, IfSome, nat_eq};
ghost use Rattle.text_cut.specs.Place.{past};
ghost use Rattle.text_cut.specs.Rules.{past_word};
ghost use Rattle.text_cut.specs.Seen.{seen};
ghost use Rattle.syn_trees.specs.StringToken.{raw_end};
ghost use Rattle.syn_trees.specs.ReadString.{found_of, plain_in, raw_in, plain_behind, raw_behind, start_at, raw_start, token_at, token_end};
ghost use Rattle.syn_trees.specs.ReadQuoted.{str_of, str_at};

use crate::str_token::StrToken;
use text_cut::{Cursor, eat_char, eat_while, next, text_between};

/// A string token that was found.
#[derive(Clone, Copy, Drop)]
pub(crate) struct Quoted<'a> {
    /// The number of its `#`, where it is raw.
    pub(crate) marks: Option<u32>,
    /// The place behind the quote that begins it.
    pub(crate) from: Cursor<'a>,
    /// The place in front of the quote that ends it.
    pub(crate) to: Cursor<'a>,
    /// The place behind it.
    pub(crate) end: Cursor<'a>,
}

// The place behind all the `#` that stand here.
fn marks_end(here: Cursor<'_>) -> Cursor<'_>
    ensures value { seen result ≡ past (λ c. nat_eq c 35) (seen here.entry) }
    ensures shorter { length result.rest.now ≤ length here.entry.rest.now }
{
    eat_while(here, |c| c == '#')
}

// Where a plain token ends, behind its first quote: in front of its last one, and behind it.
fn plain_end<'a>(from: Cursor<'a>) -> Option<(Cursor<'a>, Cursor<'a>)>
    ensures value { option_map (λ r. (seen r.0, seen r.1)) result ≡ plain_in false (seen from.entry).at (seen from.entry).left }
    ensures shorter { IfSome result (λ r. length r.1.rest.now + 1 ≤ length from.entry.rest.now) }
{
    let mut escaped = false;
    let mut here = from;
    while let Some((c, behind)) = next(here) {
        if !escaped && c == '"' {
            return Some((here, behind));
        }
        escaped = !escaped && c == '\\';
        here = behind;
    }
    None
}

// The place behind a quote and so many `#`.
fn raw_end(here: Cursor<'_>, marks: u32) -> Option<Cursor<'_>>
    ensures value { option_map seen result ≡ past_word (raw_end marks) (seen here.entry) }
    ensures shorter { IfSome result (λ e. length e.rest.now + 1 ≤ length here.entry.rest.now) }
{
    let mut end = eat_char(here, '"')?;
    for _ in 0..marks {
        end = eat_char(end, '#')?;
    }
    Some(end)
}

// Where a raw token with so many `#` ends, behind its first quote: in front of what ends it, and behind that.
fn raw_ends<'a>(from: Cursor<'a>, marks: u32) -> Option<(Cursor<'a>, Cursor<'a>)>
    ensures value { option_map (λ r. (seen r.0, seen r.1)) result ≡ raw_in marks (seen from.entry).at (seen from.entry).left }
    ensures shorter { IfSome result (λ r. length r.1.rest.now + 1 ≤ length from.entry.rest.now) }
{
    let mut here = from;
    while let Some((_, behind)) = next(here) {
        if let Some(end) = raw_end(here, marks) {
            return Some((here, end));
        }
        here = behind;
    }
    None
}

// The plain token behind whose first quote this place is.
fn plain_behind(from: Cursor<'_>) -> Option<Quoted<'_>>
    ensures value { option_map found_of result ≡ plain_behind (seen from.entry) }
    ensures shorter { IfSome result (λ q. length q.end.rest.now + 1 ≤ length from.entry.rest.now) }
{
    let (to, end) = plain_end(from)?;
    Some(Quoted {
        marks: None,
        from,
        to,
        end,
    })
}

// The raw token with so many `#`, behind whose first quote this place is.
fn raw_behind(from: Cursor<'_>, marks: u32) -> Option<Quoted<'_>>
    ensures value { option_map found_of result ≡ raw_behind marks (seen from.entry) }
    ensures shorter { IfSome result (λ q. length q.end.rest.now + 1 ≤ length from.entry.rest.now) }
{
    let (to, end) = raw_ends(from, marks)?;
    Some(Quoted {
        marks: Some(marks),
        from,
        to,
        end,
    })
}

// How many `#` the start of a raw token has behind its `r`, and the place behind its quote.
fn start_behind(here: Cursor<'_>) -> Option<(u32, Cursor<'_>)>
    ensures value { option_map (λ r. (r.0, seen r.1)) result ≡ start_at (seen here.entry) }
    ensures shorter { IfSome result (λ r. length r.1.rest.now + 1 ≤ length here.entry.rest.now) }
{
    let end = marks_end(here);
    let marks = end.at - here.at;
    if marks > 255 {
        return None;
    }
    Some((marks, eat_char(end, '"')?))
}

/// Returns how many `#` the start of a raw string token has that stands here, and the place behind its quote; `None` where none
/// stands here.
///
/// ```
/// let (marks, from) = raw_start(begin("r#\"a")).unwrap();
/// assert_eq!((marks, from.rest), (1, "a"));
/// assert!(raw_start(begin("r#a")).is_none());
/// ```
pub fn raw_start(here: Cursor<'_>) -> Option<(u32, Cursor<'_>)>
    ensures value { option_map (λ r. (r.0, seen r.1)) result ≡ raw_start (seen here.entry) }
    ensures shorter { IfSome result (λ r. length r.1.rest.now + 1 ≤ length here.entry.rest.now) }
{
    start_behind(eat_char(here, 'r')?)
}

/// The string token that stands at a place.
pub(crate) fn token(here: Cursor<'_>) -> Option<Quoted<'_>>
    ensures value { option_map found_of result ≡ token_at (seen here.entry) }
    ensures shorter { IfSome result (λ q. length q.end.rest.now + 1 ≤ length here.entry.rest.now) }
{
    if let Some(from) = eat_char(here, '"') {
        return plain_behind(from);
    }
    let (marks, from) = raw_start(here)?;
    raw_behind(from, marks)
}

/// Returns the place behind the string token that stands here; `None` where none stands here.
///
/// ```
/// let end = string_token(begin("\"a\"b")).unwrap();
/// assert_eq!((end.at, end.rest), (3, "b"));
/// assert!(string_token(begin("b\"a\"")).is_none());
/// ```
pub fn string_token(here: Cursor<'_>) -> Option<Cursor<'_>>
    ensures value { option_map seen result ≡ token_end (seen here.entry) }
    ensures shorter { IfSome result (λ e. length e.rest.now + 1 ≤ length here.entry.rest.now) }
{
    let token = token(here)?;
    Some(token.end)
}

/// Returns the string token that stands here, and the place behind it; `None` where none stands here.
///
/// ```
/// let (token, end) = lex_string(begin("r#\"a\\n\"#b")).unwrap();
/// assert_eq!((token.text, token.inside, end.at), ("r#\"a\\n\"#", "a\\n", 8));
/// ```
pub fn lex_string<'a>(here: Cursor<'a>) -> Option<(StrToken<'a>, Cursor<'a>)>
    ensures value { option_map (λ r. (str_of r.0, seen r.1)) result ≡ str_at (seen here.entry) }
    ensures shorter { IfSome result (λ r. length r.1.rest.now + 1 ≤ length here.entry.rest.now) }
{
    let found = token(here)?;
    let token = StrToken {
        text: text_between(here, found.end),
        inside: text_between(found.from, found.to),
    };
    Some((token, found.end))
}
