ghost use Rattle.syn_trees.specs.ReadQuoted.{str_of};
ghost use Rattle.std.specs.Prelude.{◌≡◌};
ghost use Rattle.script_tokens.specs.Readers.{word, text, mark, joint_mark, arrow, open_round, close_round};
ghost use Rattle.script_tokens.specs.Numbers.{all_digits, number_of, number, direct_number, leaf};
ghost use Rattle.script_tokens.specs.Found.{Found, Passes};

use crate::lexer::next_token;
use crate::token::{Bracket, TokenKind};
use syn_trees::{Spacing, StrToken};
use text_cut::Cursor;

/// Returns the word that stands first of the tokens that are left, and the place behind it; `None` where another token stands there.
///
/// ```
/// let (name, behind) = word(begin("unix = 1")).unwrap();
/// assert_eq!(name, "unix");
/// assert!(mark(behind, '=').is_some());
/// ```
pub fn word<'a>(here: Cursor<'a>) -> Option<(&'a str, Cursor<'a>)>
    ensures { Found (λ name. name.now) word here.entry result }
{
    let (token, behind) = next_token(here)?;
    match token.kind {
        TokenKind::Word(name) => Some((name, behind)),
        _ => None,
    }
}

/// Returns the string token that stands first, and the place behind it; `None` where another token stands there.
pub fn text<'a>(here: Cursor<'a>) -> Option<(StrToken<'a>, Cursor<'a>)>
    ensures { Found str_of text here.entry result }
{
    let (token, behind) = next_token(here)?;
    match token.kind {
        TokenKind::Text(string) => Some((string, behind)),
        _ => None,
    }
}

/// Returns the place behind this mark, where it stands first.
pub fn mark(here: Cursor<'_>, c: char) -> Option<Cursor<'_>>
    ensures { Passes (mark c) here.entry result }
{
    let (token, behind) = next_token(here)?;
    match token.kind {
        TokenKind::Mark(d, _) => { if d == c { Some(behind) } else { None } }
        _ => None,
    }
}

// The place behind this mark, where it stands first and a mark follows it directly.
fn joint_mark(here: Cursor<'_>, c: char) -> Option<Cursor<'_>>
    ensures { Passes (joint_mark c) here.entry result }
{
    let (token, behind) = next_token(here)?;
    match token.kind {
        TokenKind::Mark(d, Spacing::Joint) => { if d == c { Some(behind) } else { None } }
        _ => None,
    }
}

/// Returns the place behind an arrow, `=>` without blanks in it, where it stands first.
///
/// ```
/// assert!(arrow(begin("=> \"x\"")).is_some());
/// assert!(arrow(begin("= > \"x\"")).is_none());
/// ```
pub fn arrow(here: Cursor<'_>) -> Option<Cursor<'_>>
    ensures { Passes arrow here.entry result }
{
    mark(joint_mark(here, '=')?, '>')
}

/// Returns the place behind `(`, where it stands first.
pub fn open_round(here: Cursor<'_>) -> Option<Cursor<'_>>
    ensures { Passes open_round here.entry result }
{
    let (token, behind) = next_token(here)?;
    match token.kind {
        TokenKind::Open(Bracket::Round) => Some(behind),
        _ => None,
    }
}

/// Returns the place behind `)`, where it stands first.
pub fn close_round(here: Cursor<'_>) -> Option<Cursor<'_>>
    ensures { Passes close_round here.entry result }
{
    let (token, behind) = next_token(here)?;
    match token.kind {
        TokenKind::Close(Bracket::Round) => Some(behind),
        _ => None,
    }
}

// Whether every character is a digit.
fn all_digits(text: &str) -> bool
    ensures { result ≡ all_digits text.now }
{
    for b in text.as_bytes() {
        if !b.is_ascii_digit() {
            return false;
        }
    }
    true
}

/// Returns the number of 32 bits that decimal digits write; `None` where there is another character among them, or none at
/// all, or where the number is larger.
///
/// ```
/// assert_eq!(number_of("007"), Some(7));
/// assert_eq!(number_of("+7"), None);
/// ```
pub fn number_of(digits: &str) -> Option<u32>
    ensures { result ≡ number_of digits.now }
{
    if !all_digits(digits) {
        return None;
    }
    match digits.parse::<u32>() {
        Ok(number) => Some(number),
        Err(_) => None,
    }
}

/// Returns the number of 32 bits that stands first, and the place behind it; `None` where another token stands there.
///
/// ```
/// assert_eq!(number(begin("007 ")).unwrap().0, 7);
/// assert!(number(begin("7x")).is_none());
/// ```
pub fn number<'a>(here: Cursor<'a>) -> Option<(u32, Cursor<'a>)>
    ensures { Found (λ value. value) number here.entry result }
{
    let (token, behind) = next_token(here)?;
    match token.kind {
        TokenKind::Numeral(digits) => Some((number_of(digits)?, behind)),
        _ => None,
    }
}

/// Returns the number that stands first without blanks in front of it, and the place behind it.
pub fn direct_number<'a>(here: Cursor<'a>) -> Option<(u32, Cursor<'a>)>
    ensures { Found (λ value. value) direct_number here.entry result }
{
    let (token, behind) = next_token(here)?;
    if token.spaced {
        return None;
    }
    match token.kind {
        TokenKind::Numeral(digits) => Some((number_of(digits)?, behind)),
        _ => None,
    }
}

/// Returns the number of the leaf that stands first, `@` with a number directly behind it, and the place behind it.
///
/// ```
/// assert_eq!(leaf(begin("@7")).unwrap().0, 7);
/// assert!(leaf(begin("@ 7")).is_none());
/// ```
pub fn leaf<'a>(here: Cursor<'a>) -> Option<(u32, Cursor<'a>)>
    ensures { Found (λ value. value) leaf here.entry result }
{
    direct_number(mark(here, '@')?)
}
