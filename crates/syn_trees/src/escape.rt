ghost use Rattle.std.specs.Prelude.{◌≡◌, List, [], ◌∷◌, ◌+◌, ◌≤◌, length, chars, option_map, IfOk, IfSome, string_bytes, nat_eq};
ghost use Rattle.std.specs.Str.{encode_utf8_all};
ghost use Rattle.text_cut.specs.Place.{past, IsBehind};
ghost use Rattle.text_cut.specs.Rules.{past_word};
ghost use Rattle.text_cut.specs.Seen.{seen};
ghost use Rattle.syn_trees.specs.Escape.{is_space, is_hex_or_underscore, letter, digits_of, HasUnits, meant_of};
ghost use Rattle.syn_trees.specs.ReadString.{ascii_of, ascii_in, hex_number, unicode_of, unicode_behind, unicode_at, escape_by, escape_at, unit_at};

use crate::EscapeError;
use std::alloc::Global;
use text_cut::{Cursor, begin, eat_char, eat_while, first_char, is_at_end, next, text_between};

// The character that a letter stands for behind a `\`.
fn letter(c: char) -> Option<char>
    ensures { result ≡ letter c }
{
    match c {
        'n' => Some('\n'),
        'r' => Some('\r'),
        't' => Some('\t'),
        '\\' => Some('\\'),
        '0' => Some('\0'),
        '\'' => Some('\''),
        '"' => Some('"'),
        _ => None,
    }
}

// The place behind the blanks and line feeds that stand here.
fn spaces_end(here: Cursor<'_>) -> Cursor<'_>
    ensures value { seen result ≡ past is_space (seen here.entry) }
    ensures shorter { length result.rest.now ≤ length here.entry.rest.now }
{
    eat_while(here, |c| matches!(c, ' ' | '\t' | '\r' | '\n'))
}

// The place behind the hexadecimal digits and `_` that stand here.
fn digits_end(here: Cursor<'_>) -> Cursor<'_>
    ensures value { seen result ≡ past is_hex_or_underscore (seen here.entry) }
    ensures behind { IsBehind (seen here.entry) (seen result) }
    ensures shorter { length result.rest.now ≤ length here.entry.rest.now }
{
    eat_while(here, |c| c.is_digit(16) || c == '_')
}

// The character of two hexadecimal digits, at most 7F.
fn ascii_of(high: char, low: char) -> Option<char>
    ensures { result ≡ ascii_of high low }
{
    let code = high.to_digit(16)? * 16 + low.to_digit(16)?;
    if code > 0x7f {
        return None;
    }
    char::from_u32(code)
}

// What the two characters behind `\x` stand for.
fn ascii(here: Cursor<'_>) -> Option<(Option<char>, Cursor<'_>)>
    ensures value { option_map (λ r. (r.0, seen r.1)) result ≡ ascii_in (seen here.entry).at (seen here.entry).left }
    ensures shorter { IfSome result (λ r. length r.1.rest.now + 1 ≤ length here.entry.rest.now) }
{
    let (high, behind_high) = next(here)?;
    let (low, behind) = next(behind_high)?;
    let c = ascii_of(high, low)?;
    Some((Some(c), behind))
}

// The number of hexadecimal digits among which `_` may stand; there are six digits at most.
fn hex_number(text: &str) -> Option<u32>
    ensures { result ≡ hex_number (digits_of (chars text.now)) }
{
    let mut number = 0;
    let mut count: u32 = 0;
    for c in text.chars() {
        if let Some(digit) = c.to_digit(16) {
            if count == 6 {
                return None;
            }
            number = number * 16 + digit;
            count += 1;
        }
    }
    Some(number)
}

// The character of hexadecimal digits, among which `_` may stand behind the first.
fn unicode_of(text: &str) -> Option<char>
    ensures { result ≡ unicode_of (chars text.now) }
{
    let (first, _) = first_char(text)?;
    if !first.is_digit(16) {
        return None;
    }
    char::from_u32(hex_number(text)?)
}

// What hexadecimal digits and `_` stand for, where a closing brace stands behind them.
fn unicode_behind(here: Cursor<'_>) -> Option<(Option<char>, Cursor<'_>)>
    ensures value { option_map (λ r. (r.0, seen r.1)) result ≡ unicode_behind (seen here.entry) }
    ensures shorter { IfSome result (λ r. length r.1.rest.now + 1 ≤ length here.entry.rest.now) }
{
    let end = digits_end(here);
    let behind = eat_char(end, '}')?;
    let c = unicode_of(text_between(here, end))?;
    Some((Some(c), behind))
}

// What stands behind `\u`.
fn unicode(here: Cursor<'_>) -> Option<(Option<char>, Cursor<'_>)>
    ensures value { option_map (λ r. (r.0, seen r.1)) result ≡ unicode_at (seen here.entry) }
    ensures shorter { IfSome result (λ r. length r.1.rest.now + 1 ≤ length here.entry.rest.now) }
{
    unicode_behind(eat_char(here, '{')?)
}

// What an escape stands for, behind its `\`: a character, or nothing.
fn escape(here: Cursor<'_>) -> Option<(Option<char>, Cursor<'_>)>
    ensures value { option_map (λ r. (r.0, seen r.1)) result ≡ escape_at (seen here.entry) }
    ensures shorter { IfSome result (λ r. length r.1.rest.now + 1 ≤ length here.entry.rest.now) }
{
    let (c, behind) = next(here)?;
    match c {
        'x' => ascii(behind),
        'u' => unicode(behind),
        '\n' => Some((None, spaces_end(behind))),
        _ => Some((Some(letter(c)?), behind)),
    }
}

// What a character stands for, or the escape that it begins: a character, or nothing.
fn unit(here: Cursor<'_>) -> Option<(Option<char>, Cursor<'_>)>
    ensures value { option_map (λ r. (r.0, seen r.1)) result ≡ unit_at (seen here.entry) }
    ensures shorter { IfSome result (λ r. length r.1.rest.now + 1 ≤ length here.entry.rest.now) }
{
    let (c, behind) = next(here)?;
    if c == '\\' {
        return escape(behind);
    }
    Some((Some(c), behind))
}

/// What the text between the quotes of a plain token stands for.
///
/// # Errors
///
/// [`EscapeError::Escape`] exactly where a `\` in it begins no escape; [`EscapeError::Memory`] where no memory is left.
pub(crate) fn unescape(alloc: Global, inside: &str) -> Result<String, EscapeError>
    requires { length inside.now ≤ 4_294_967_295 }
    ensures value { IfOk result (λ text. (units : List _) × HasUnits (chars inside.now) units × (string_bytes text ≡ encode_utf8_all (meant_of units))) }
    ensures escape { result ≡ Err EscapeError.Escape → (units : List _) → HasUnits (chars inside.now) units → ⊥ }
{
    let mut text = String::new(alloc);
    let mut here = begin(inside);
    while let Some((meant, behind)) = unit(here) {
        if let Some(c) = meant {
            text.push(c)?;
        }
        here = behind;
    }
    if !is_at_end(here) {
        return Err(EscapeError::Escape);
    }
    Ok(text)
}
