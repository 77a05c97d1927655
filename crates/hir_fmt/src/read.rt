ghost use Rattle.std.specs.Prelude.{◌≡◌, ◌+◌, ◌≤◌, length, ℕ, List, IfOk, IfSome};
ghost use Rattle.syn_trees.specs.Literal.{FitsBetweenQuotes};
ghost use Rattle.fmt_parse.specs.Format.{IsFault};
ghost use Rattle.hir_fmt.specs.Parsed.{HasShift};
ghost use Rattle.hir_fmt.specs.Reading.{IsValueRead, ArePiecesRead, IsFormatRead};
ghost use Rattle.hir_fmt.specs.Literal.{HasSpans};

use crate::literal::Literal;
use fmt_parse::{FormatError, Piece, one_reading, parse_format};
use std::alloc::{AllocError, Global};
use sym_core::{AstPtr, Symbol};
use syn_trees::{EscapeError, StringLit, one_value};

/// A format text with its pieces.
#[derive(Drop)]
pub(crate) struct Format {
    /// The text.
    pub(crate) text: Symbol,
    /// Its pieces.
    pub(crate) pieces: Vec<Piece>,
}

/// What a literal stands for; none where it has no value.
///
/// ```
/// let literal = StringLit::new(Symbol::new(alloc, "\"a\\x41\"")?)?;
/// assert!(literal_value(alloc, &literal)?.is_some_and(|text| text.as_str() == "aA"));
/// ```
///
/// # Errors
///
/// Returns an error if there is no memory.
pub fn literal_value(alloc: Global, s: &StringLit) -> Result<Option<Symbol>, AllocError>
    ensures { IfOk result (IsValueRead s.now) }
{
    let _ = s.text();
    match s.value(alloc) {
        Ok(text) => Ok(Some(text)),
        Err(EscapeError::Escape) => Ok(None),
        Err(EscapeError::Memory(refused)) => Err(refused),
    }
}

// A text at which reading failed has no pieces, unless there was no memory.
fn no_pieces(text: &str, error: FormatError) -> Result<Option<Vec<Piece>>, AllocError>
    requires { IsFault text.now error }
    ensures { IfOk result (ArePiecesRead text.now) }
{
    one_reading();
    match error {
        FormatError::Syntax { .. } => Ok(None),
        FormatError::Memory(refused) => Err(refused),
    }
}

// The pieces of a text, if it has some.
fn read_pieces(alloc: Global, text: &str) -> Result<Option<Vec<Piece>>, AllocError>
    requires { length text.now ≤ 4_294_967_295 }
    ensures { IfOk result (ArePiecesRead text.now) }
{
    match parse_format(alloc, text) {
        Ok(pieces) => Ok(Some(pieces)),
        Err(error) => no_pieces(text, error),
    }
}

/// Reads what a literal stands for as a format text, if it is one.
pub(crate) fn read_format(alloc: Global, s: &StringLit) -> Result<Option<Format>, AllocError>
    ensures { IfOk result (IsFormatRead s.now) }
{
    one_value();
    let Some(text) = literal_value(alloc, s)? else {
        return Ok(None);
    };
    let Some(pieces) = read_pieces(alloc, text.as_str())? else {
        return Ok(None);
    };
    Ok(Some(Format { text, pieces }))
}

/// By how much a range of a literal's value is shifted to be a span, which is a range of its token. None where no spans are
/// given: where the template is not the literal itself, or its value is not what stands between its quotes.
pub fn span_shift(s: &StringLit, is_direct: bool) -> Option<u32>
    ensures shift { HasShift s.now is_direct result }
    ensures short { (text : List ℕ) → FitsBetweenQuotes s.now text → IfSome result (λ by. by + length text ≤ 4_294_967_295) }
{
    if !is_direct {
        return None;
    }
    if !s.is_plain() {
        return None;
    }
    Some(s.quote_offsets().start)
}

/// The value of a literal, as a format text of it.
pub(crate) fn literal<'a>(s: &StringLit, text: &'a str, ptr: AstPtr, is_direct: bool) -> Literal<'a>
    requires { FitsBetweenQuotes s.now text.now }
    ensures text { result.text.now ≡ text.now }
    ensures ptr { result.ptr ≡ ptr }
    ensures direct { result.is_direct ≡ is_direct }
    ensures shift { HasShift s.now is_direct result.shift }
    ensures short { HasSpans result }
{
    Literal {
        text,
        shift: span_shift(s, is_direct),
        is_direct,
        ptr,
    }
}
