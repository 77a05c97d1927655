ghost use Rattle.std.specs.Prelude.{◌≡◌, ◌↔◌, ◌+◌, ◌<◌, ◌≤◌, length, not, nat_eq, IfOk, IfSome, IsSome, IsTrue};
ghost use Rattle.std.specs.Str.{IsUtf8};
ghost use Rattle.text_cut.specs.Part.{IsPart};
ghost use Rattle.text_cut.specs.Place.{past};
ghost use Rattle.text_cut.specs.Seen.{seen};
ghost use Rattle.syn_trees.specs.Literal.{IsLiteral, HasValue, HasNoValue, FitsBetweenQuotes, IsBetweenQuotes, IsUnescaped};
ghost use Rattle.syn_trees.specs.ReadString.{found_of, PartsOf};

use crate::escape::unescape;
use crate::quoted::{Quoted, string_token, token};
use crate::str_token::StrToken;
use std::alloc::{AllocError, Global};
use std::fmt;
use std::marker::Model;
use sym_core::{Symbol, TextRange};
use text_cut::{Cursor, begin, eat_while, is_at_end, starts_with, text_between};
use thiserror::Error;

/// A string literal, by its whole token (the Rust Reference, "String literals" and "Raw string literals").
///
/// ```
/// let literal = StringLit::new(Symbol::new(alloc, "\"a\\x41\"")?).unwrap();
/// assert_eq!(literal.text(), "\"a\\x41\"");
/// assert_eq!(literal.value(alloc)?.as_str(), "aA");
/// assert_eq!(literal.quote_offsets(), TextRange { start: 1, end: 6 });
/// assert!(!literal.is_plain());
/// ```
#[derive(Drop)]
pub struct StringLit {
    token: Symbol,
}

impl Model for StringLit {
    ghost use Rattle.std.specs.Prelude.{ℕ, List};
    ghost use Rattle.text_cut.specs.Place.{past};
    ghost use Rattle.text_cut.specs.Seen.{seen};
    ghost use Rattle.syn_trees.specs.Literal.{IsLiteral};

    ghost Value = { List ℕ };

    ghost view = { λ literal. literal.token };

    ghost invariant = { λ literal. IsLiteral literal.token };
}

/// Why a literal has no value.
#[derive(Debug, Drop, Error)]
pub enum EscapeError {
    /// What stands behind a `\` is no escape.
    #[error("a `\\` begins no escape")]
    Escape,
    /// No memory is left.
    #[error("{0}")]
    Memory(AllocError),
}

impl From<AllocError> for EscapeError {
    ghost use Rattle.std.specs.Prelude.{◌≡◌};
    ghost use Rattle.syn_trees.specs.declared.string_lit.EscapeError.TheVariants.{Memory};

    ghost from_gives = { λ error refused. refused ≡ Memory error };

    fn from(error: AllocError) -> EscapeError {
        EscapeError::Memory(error)
    }
}

impl fmt::Debug for StringLit {
    ghost use Rattle.std.specs.Fmt.{debug_str};

    ghost debug_output = { λ literal. debug_str literal };

    fn fmt<W: fmt::Write>(&self, f: &mut fmt::Formatter<W>) -> fmt::Result {
        fmt::Debug::fmt(&self.token, f)
    }
}

impl Clone for StringLit {
    ghost is_clone = { λ literal copy. copy ≡ literal };

    fn clone(&self) -> Result<Self, AllocError> {
        let token = self.token.clone()?;
        Ok(StringLit { token })
    }
}

// The greatest length of a token.
const MAX_TOKEN_LEN: usize = 4_294_967_295;

// Whether a text is a string token that is not too long.
fn is_literal(text: &str) -> bool
    ensures { IsTrue result ↔ IsLiteral text.now }
{
    if text.len() > MAX_TOKEN_LEN {
        return false;
    }
    match string_token(begin(text)) {
        Some(end) => is_at_end(end),
        None => false,
    }
}

// The place in front of the next backslash, or at the end.
fn before_backslash(here: Cursor<'_>) -> Cursor<'_>
    ensures { seen result ≡ past (λ c. not (nat_eq c 92)) (seen here.entry) }
{
    eat_while(here, |c| c != '\\')
}

// The range between two places.
fn range_between(from: Cursor<'_>, to: Cursor<'_>) -> TextRange
    ensures start { result.start ≡ from.entry.at }
    ensures end { result.end ≡ to.entry.at }
{
    TextRange {
        start: from.at,
        end: to.at,
    }
}

impl StringLit {
    /// Returns the literal of this token: `Some` exactly where it is a string token of at most 4,294,967,295 bytes.
    ///
    /// Of the tokens `"a"` and `r"a"` it is `Some`; of `a`, `"a` and `"a" "b"` it is `None`.
    pub fn new(token: Symbol) -> Option<StringLit>
        ensures value { IfSome result (λ literal. literal ≡ token) }
        ensures some { IsSome result ↔ IsLiteral token }
    {
        if !is_literal(token.as_str()) {
            return None;
        }
        Some(StringLit { token })
    }

    /// Returns the literal of a string token that was found in a text; nothing is tested again.
    ///
    /// Of the token at the start of `"a" b` it is `"a"`.
    pub fn of_token(alloc: Global, token: StrToken<'_>) -> Result<StringLit, AllocError>
        ensures { IfOk result (λ literal. literal ≡ token.entry.text.now) }
    {
        let token = Symbol::new(alloc, token.text)?;
        Ok(StringLit { token })
    }

    /// Returns the whole token, with its quotes, as it was given to [`new`](StringLit::new).
    pub fn text(&self) -> &str
        ensures value { result.now ≡ self.now }
        ensures literal { IsLiteral self.now }
    {
        self.token.as_str()
    }

    // The token, as it is found in its text.
    fn parts(&self) -> Quoted<'_>
        ensures parts { PartsOf self.now (found_of result) }
        ensures utf8 { IsUtf8 self.now }
    {
        match token(begin(self.token.as_str())) {
            Some(parts) => parts,
            None => unreachable!(),
        }
    }

    /// Returns the range of what stands between the quotes, in bytes of the token: of `r#"ab"#` it is 3..5.
    ///
    /// `start` with the length of the literal's value is at most `end`: a range of the value has 32 bits with `start` added
    /// to both ends too. Where the literal is plain, that is where the range stands in the token.
    pub fn quote_offsets(&self) -> TextRange
        ensures between { IsBetweenQuotes self.now result.start result.end }
        ensures part { IsPart self.now result.start result.end }
        ensures quoted { result.end < length self.now }
    {
        let parts = self.parts();
        range_between(parts.from, parts.to)
    }

    /// Returns whether the literal's value is what stands between its quotes: whether it is raw, or has no `\`.
    ///
    /// `"ab"` and `r"a\n"` are plain, and `"a\n"` is not.
    pub fn is_plain(&self) -> bool
        ensures { IsTrue result ↔ IsUnescaped self.now }
    {
        let here = begin(self.token.as_str());
        starts_with(here, 'r') || is_at_end(before_backslash(here))
    }

    /// Returns what the literal stands for: what stands between its quotes, where each escape is replaced.
    ///
    /// Of `"a\x41"` it is `aA`, of `r"a\x41"` it is `a\x41`, and of `"\q"` it is [`EscapeError::Escape`].
    ///
    /// # Errors
    ///
    /// [`EscapeError::Escape`] exactly where the literal is not raw and holds a `\` that begins no escape;
    /// [`EscapeError::Memory`] where no memory is left.
    pub fn value(&self, alloc: Global) -> Result<Symbol, EscapeError>
        ensures value { IfOk result (λ symbol. HasValue self.now symbol) }
        ensures fits { IfOk result (λ symbol. FitsBetweenQuotes self.now symbol) }
        ensures short { IfOk result (λ symbol. length symbol + 2 ≤ length self.now) }
        ensures escape { result ≡ Err EscapeError.Escape → HasNoValue self.now }
    {
        let parts = self.parts();
        let inside = text_between(parts.from, parts.to);
        match parts.marks {
            Some(_) => Ok(Symbol::new(alloc, inside)?),
            None => {
                let text = unescape(alloc, inside)?;
                Ok(Symbol::new(alloc, text.as_str())?)
            }
        }
    }
}
