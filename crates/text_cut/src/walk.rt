ghost use Rattle.std.specs.Prelude.{◌≡◌, ℕ, ◌+◌, ◌≤◌, ◌<◌, List, ◌++◌, Bool, ◌==◌, [], ◌∷◌, length, chars, MatchOption, MatchBool, option_map, IfSome};
ghost use Rattle.std.specs.Char.{len_utf8};
ghost use Rattle.text_cut.specs.Runs.{starts, is_blank, AnswersAs};
ghost use Rattle.text_cut.specs.Place.{place, first, past, Took, IsBehind};
ghost use Rattle.text_cut.specs.Rules.{past_word};
ghost use Rattle.text_cut.specs.Seen.{seen};

use crate::cursor::Cursor;

/// The place in front of the whole text, which has at most 4,294,967,295 bytes: `begin("ab").rest` is `"ab"`.
pub fn begin(text: &str) -> Cursor<'_>
    requires { length text.now ≤ 4_294_967_295 }
    ensures { seen result ≡ place 0 (chars text.now) }
{
    Cursor { at: 0, rest: text }
}

/// The first character of a text, and what follows it; none where the text is empty: of `"éa"`, `'é'` and `"a"`.
pub fn first_char(text: &str) -> Option<(char, &str)>
    ensures value { MatchOption result (chars text.now ≡ []) (λ r. chars text.now ≡ r.0 ∷ chars r.1.now) }
    ensures size { IfSome result (λ r. len_utf8 r.0 + length r.1.now ≡ length text.now) }
{
    let mut all = text.chars();
    let c = all.next()?;
    Some((c, all.as_str()))
}

/// The first character behind a place, and the place behind that character; none at the text's end.
///
/// At the start of `"éa"` it is `'é'`, and the place behind it is at byte 2.
pub fn next(here: Cursor<'_>) -> Option<(char, Cursor<'_>)>
    ensures value { option_map (λ r. (r.0, seen r.1)) result ≡ first (seen here.entry) }
    ensures behind { IfSome result (λ r. IsBehind (seen here.entry) (seen r.1)) }
    ensures shorter { IfSome result (λ r. length r.1.rest.now + 1 ≤ length here.entry.rest.now) }
{
    let (c, rest) = first_char(here.rest)?;
    let behind = Cursor {
        at: here.at + c.len_utf8() as u32,
        rest,
    };
    Some((c, behind))
}

/// The first character behind a place; none at the text's end. The place itself stays.
pub fn peek(here: Cursor<'_>) -> Option<char>
    ensures { result ≡ option_map (λ r. r.0) (first (seen here.entry)) }
{
    let (c, _) = next(here)?;
    Some(c)
}

/// Whether nothing stands behind a place: `is_at_end(begin(""))` holds.
pub fn is_at_end(here: Cursor<'_>) -> bool
    ensures { MatchBool result ((seen here.entry).left ≡ []) (0 < length (seen here.entry).left) }
{
    next(here).is_none()
}

/// Whether the text behind a place begins with a character that passes: `begins_with(begin("7"), |c| c == '7')` holds.
pub fn begins_with<F: Fn(char) -> bool>(here: Cursor<'_>, passes: F) -> bool
    requires { F.IsAlwaysCallable passes }
    ensures { (p : ℕ → Bool) → AnswersAs (F.post passes) p → result ≡ starts p (seen here.entry).left }
{
    match next(here) {
        Some((c, _)) => passes(c),
        None => false,
    }
}

/// Whether the text behind a place begins with this character: `starts_with(begin("ab"), 'a')` holds.
pub fn starts_with(here: Cursor<'_>, c: char) -> bool
    ensures { result ≡ starts (λ d. d == c) (seen here.entry).left }
{
    match next(here) {
        Some((d, _)) => d == c,
        None => false,
    }
}

/// The place behind this character; none where it does not stand here.
///
/// `eat_char(begin("ab"), 'a')` is at byte 1, and `eat_char(begin("ab"), 'b')` is none.
pub fn eat_char(here: Cursor<'_>, c: char) -> Option<Cursor<'_>>
    ensures value { option_map seen result ≡ past_word (c ∷ []) (seen here.entry) }
    ensures behind { IfSome result (λ e. IsBehind (seen here.entry) (seen e)) }
    ensures shorter { IfSome result (λ e. length e.rest.now + 1 ≤ length here.entry.rest.now) }
{
    let (d, behind) = next(here)?;
    if d != c {
        return None;
    }
    Some(behind)
}

/// The place behind a word that stands here; none where it does not stand here whole.
///
/// `eat(begin("opt unix"), "opt")` is at byte 3, and `eat(begin("op"), "opt")` is none.
#[tactic(auto, using(crate::proofs::Behind::behinds))]
pub fn eat<'a>(here: Cursor<'a>, word: &str) -> Option<Cursor<'a>>
    ensures value { option_map seen result ≡ past_word (chars word.now) (seen here.entry) }
    ensures behind { IfSome result (λ e. IsBehind (seen here.entry) (seen e)) }
    ensures shorter { IfSome result (λ e. length e.rest.now + length (chars word.now) ≤ length here.entry.rest.now) }
{
    let mut end = here;
    let mut left = word;
    while let Some((c, more)) = first_char(left) {
        let (d, behind) = next(end)?;
        if d != c {
            return None;
        }
        end = behind;
        left = more;
    }
    Some(end)
}

/// The place behind the longest run of characters that pass; where the first does not pass, the place itself.
///
/// `eat_while(begin("12a3"), |c| c.is_ascii_digit())` is at byte 2.
#[tactic(auto, using(crate::proofs::Behind::behinds))]
pub fn eat_while<F: Fn(char) -> bool>(here: Cursor<'_>, passes: F) -> Cursor<'_>
    requires { F.IsAlwaysCallable passes }
    ensures value { (p : ℕ → Bool) → AnswersAs (F.post passes) p → seen result ≡ past p (seen here.entry) }
    ensures behind { IsBehind (seen here.entry) (seen result) }
    ensures shorter { length result.rest.now ≤ length here.entry.rest.now }
{
    let mut end = here;
    while let Some((c, behind)) = next(end) {
        if !passes(c) {
            return end;
        }
        end = behind;
    }
    end
}

/// The place behind the spaces, TABs and CRs that stand here: `blanks(begin(" \t\r\n"))` is at byte 3.
pub fn blanks(here: Cursor<'_>) -> Cursor<'_>
    ensures value { seen result ≡ past is_blank (seen here.entry) }
    ensures behind { IsBehind (seen here.entry) (seen result) }
    ensures shorter { length result.rest.now ≤ length here.entry.rest.now }
{
    eat_while(here, |c| c == ' ' || c == '\t' || c == '\r')
}

// What stands in front of a text that is the end of another.
fn text_before<'a>(text: &'a str, later: &str) -> &'a str
    requires { (front : _) × (chars text.now ≡ front ++ chars later.now) }
    ensures { chars text.now ≡ chars result.now ++ chars later.now }
{
    &text[..text.len() - later.len()]
}

/// The text between two places, of which `later` is the same as `here` or behind it in the same text.
///
/// From the start of `"12a"` to the place behind its digits it is `"12"`.
pub fn text_between<'a>(here: Cursor<'a>, later: Cursor<'_>) -> &'a str
    requires { IsBehind (seen here) (seen later) }
    ensures { Took (seen here.entry) (seen later.entry) (chars result.now) }
{
    text_before(here.rest, later.rest)
}

#[cfg(test)]
mod tests {
    use super::*;

    #[test]
    fn cuts_a_text(rt: HostRuntime) {
        let start = begin("é12  x");
        let digits = eat(start, "é").expect(&rt, "a word that stands there");
        let end = eat_while(digits, |c| c.is_ascii_digit());
        assert_eq!(rt; text_between(digits, end), "12", "a run of digits");
        let (last, behind) = next(blanks(end)).expect(&rt, "a character behind blanks");
        assert_eq!(rt; (last, behind.at), ('x', 7), "é takes two bytes");
        assert!(rt; is_at_end(behind), "nothing is left");
    }

    #[test]
    fn looks_ahead(rt: HostRuntime) {
        let start = begin("opt 7");
        assert!(rt; starts_with(start, 'o') && begins_with(start, |c| c == 'o'));
        assert!(rt;
            eat(start, "op7").is_none(),
            "a word that does not stand there"
        );
        assert_eq!(rt; eat_char(begin("ab"), 'a').map(|end| end.at), Some(1));
        assert!(rt; eat_char(begin("ab"), 'b').is_none(), "another character");
        assert_eq!(rt; peek(start), Some('o'), "the first character");
        assert_eq!(rt; blanks(begin(" \t\r\n")).at, 3, "a line feed is no blank");
        assert_eq!(rt; first_char("éa"), Some(('é', "a")), "and what follows it");
    }
}
