ghost use Rattle.std.specs.Prelude.{◌≡◌, ◌==◌, ◌<◌, [], ◌∷◌, MatchOption, IfSome, length, option_map};
ghost use Rattle.std.specs.Char.{is_ascii_digit};
ghost use Rattle.std.specs.Str.{encode_utf8_all};
ghost use Rattle.text_cut.specs.Runs.{starts, front};
ghost use Rattle.text_cut.specs.Place.{past};
ghost use Rattle.text_cut.specs.Rules.{past_word};
ghost use Rattle.text_cut.specs.Seen.{seen};
ghost use Rattle.script_tokens.specs.Words.{begins_word, continues_word};
ghost use Rattle.script_tokens.specs.Tokens.{is_mark, spacing};
ghost use Rattle.script_tokens.specs.ReadTokens.{word_at, numeral_at, opens_raw, bracket_of, mark_of, sign_at, plain_at, bare_at, tok_at};
ghost use Rattle.script_tokens.specs.Ahead.{kind_of, tok_of, ahead, end, uncons};

use crate::token::{Bracket, Token, TokenKind};
use syn_trees::{Spacing, lex_string, raw_start};
use text_cut::{Cursor, begins_with, blanks, eat_while, next, text_between};
use unicode_ident::{is_xid_continue, is_xid_start};

// Whether a character that begins a word stands here.
fn begins_word(here: Cursor<'_>) -> bool
    ensures { result ≡ starts begins_word (seen here.entry).left }
{
    begins_with(here, |c| is_xid_start(c) || c == '_')
}

// Whether a digit stands here.
fn begins_numeral(here: Cursor<'_>) -> bool
    ensures { result ≡ starts is_ascii_digit (seen here.entry).left }
{
    begins_with(here, |c| c.is_ascii_digit())
}

// The place behind the characters that go on a word.
fn word_end(here: Cursor<'_>) -> Cursor<'_>
    ensures { seen result ≡ past continues_word (seen here.entry) }
{
    eat_while(here, |c| is_xid_continue(c))
}

// The characters that go on a word, and the place behind them.
fn word_run<'a>(here: Cursor<'a>) -> (&'a str, Cursor<'a>)
    ensures text { result.0.now ≡ encode_utf8_all (front continues_word (seen here.entry).left) }
    ensures end { seen result.1 ≡ past continues_word (seen here.entry) }
{
    let end = word_end(here);
    (text_between(here, end), end)
}

// The word that stands here, and the place behind it.
fn word<'a>(here: Cursor<'a>) -> Option<(&'a str, Cursor<'a>)>
    ensures { option_map (λ r. (r.0.now, seen r.1)) result ≡ word_at (seen here.entry) }
{
    if !begins_word(here) {
        return None;
    }
    Some(word_run(here))
}

// A digit with the characters behind it that go on a word, and the place behind them.
fn numeral<'a>(here: Cursor<'a>) -> Option<(&'a str, Cursor<'a>)>
    ensures { option_map (λ r. (r.0.now, seen r.1)) result ≡ numeral_at (seen here.entry) }
{
    if !begins_numeral(here) {
        return None;
    }
    Some(word_run(here))
}

// The bracket that a character is.
fn bracket_of<'a>(c: char) -> Option<TokenKind<'a>>
    ensures { option_map kind_of result ≡ bracket_of c }
{
    match c {
        '(' => Some(TokenKind::Open(Bracket::Round)),
        ')' => Some(TokenKind::Close(Bracket::Round)),
        '[' => Some(TokenKind::Open(Bracket::Square)),
        ']' => Some(TokenKind::Close(Bracket::Square)),
        '{' => Some(TokenKind::Open(Bracket::Curly)),
        '}' => Some(TokenKind::Close(Bracket::Curly)),
        _ => None,
    }
}

// Whether a character is a mark.
fn is_mark(c: char) -> bool
    ensures { result ≡ is_mark c }
{
    c.is_ascii_punctuation() && !matches!(c, '_' | '"' | '(' | ')' | '[' | ']' | '{' | '}')
}

// The spacing of a mark in front of this place.
fn spacing_before(here: Cursor<'_>) -> Spacing
    ensures { result ≡ spacing (seen here.entry).left }
{
    if begins_with(here, |c| is_mark(c)) {
        Spacing::Joint
    } else {
        Spacing::Alone
    }
}

// The mark that a character is in front of this place.
fn mark_of<'a>(c: char, behind: Cursor<'_>) -> Option<TokenKind<'a>>
    ensures { option_map kind_of result ≡ mark_of c (seen behind.entry).left }
{
    if !is_mark(c) {
        return None;
    }
    Some(TokenKind::Mark(c, spacing_before(behind)))
}

// The bracket or the mark that stands here, and the place behind it.
fn sign<'a>(here: Cursor<'a>) -> Option<(TokenKind<'a>, Cursor<'a>)>
    ensures { option_map (λ r. (kind_of r.0, seen r.1)) result ≡ sign_at (seen here.entry) }
{
    let (c, behind) = next(here)?;
    if let Some(bracket) = bracket_of(c) {
        return Some((bracket, behind));
    }
    let mark = mark_of(c, behind)?;
    Some((mark, behind))
}

// The word, the numeral or the sign that stands here, and the place behind it.
fn plain_token<'a>(here: Cursor<'a>) -> Option<(TokenKind<'a>, Cursor<'a>)>
    ensures { option_map (λ r. (kind_of r.0, seen r.1)) result ≡ plain_at (seen here.entry) }
{
    if let Some((text, end)) = word(here) {
        return Some((TokenKind::Word(text), end));
    }
    if let Some((text, end)) = numeral(here) {
        return Some((TokenKind::Numeral(text), end));
    }
    sign(here)
}

// The token that stands here, and the place behind it.
fn bare_token<'a>(here: Cursor<'a>) -> Option<(TokenKind<'a>, Cursor<'a>)>
    ensures { option_map (λ r. (kind_of r.0, seen r.1)) result ≡ bare_at (seen here.entry) }
{
    if let Some((token, end)) = lex_string(here) {
        return Some((TokenKind::Text(token), end));
    }
    if raw_start(here).is_some() {
        return None;
    }
    plain_token(here)
}

// The token behind blanks, and the place behind it.
fn spaced_token<'a>(here: Cursor<'a>) -> Option<(Token<'a>, Cursor<'a>)>
    ensures { option_map (λ r. (tok_of r.0, seen r.1)) result ≡ tok_at (seen here.entry) }
{
    let begin = blanks(here);
    let (kind, end) = bare_token(begin)?;
    let spaced = here.at < begin.at;
    Some((Token { spaced, kind }, end))
}

/// Returns the first of the tokens that are left of the line, and the place behind it; `None` where none is left.
///
/// The place behind it stands for the other tokens of the line. A line feed is no token, so nothing of the next line is given.
///
/// ```
/// let (token, behind) = next_token(begin("  opt a\n")).unwrap();
/// assert!(token.spaced && matches!(token.kind, TokenKind::Word("opt")));
/// let (_, end) = next_token(behind).unwrap();
/// assert!(next_token(end).is_none());
/// ```
pub fn next_token<'a>(here: Cursor<'a>) -> Option<(Token<'a>, Cursor<'a>)>
    ensures value { option_map (λ r. (tok_of r.0, ahead r.1)) result ≡ uncons (ahead here.entry) }
    ensures end { MatchOption result (end here.entry ≡ seen here.entry) (λ r. end r.1 ≡ end here.entry) }
    ensures fewer { IfSome result (λ r. length (ahead r.1) < length (ahead here.entry)) }
{
    spaced_token(here)
}
