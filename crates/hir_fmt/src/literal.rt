ghost use Rattle.std.specs.Prelude.{◌≡◌, IfOk, IfSome};
ghost use Rattle.hir_fmt.specs.References.{span_in, span_if, text_in, name_in};
ghost use Rattle.hir_fmt.specs.Literal.{source_of, IsRangeOf, HasSpans};

use std::alloc::{AllocError, Global};
use sym_core::{AstPtr, Name, TextRange};

/// A format text, and the literal that it is the value of.
#[derive(Clone, Copy)]
pub(crate) struct Literal<'a> {
    /// The text.
    pub(crate) text: &'a str,
    /// By how much a range of the text is shifted to be a span; none where no spans are given.
    pub(crate) shift: Option<u32>,
    /// Whether the literal stands in the call itself.
    pub(crate) is_direct: bool,
    /// The literal's node.
    pub(crate) ptr: AstPtr,
}

impl<'a> Literal<'a> {
    /// The span of a range of the text, where spans are given.
    pub(crate) fn span(self, range: TextRange) -> Option<TextRange>
        requires within { IsRangeOf self range }
        requires short { HasSpans self }
        ensures { result ≡ span_in (source_of self.entry) range }
    {
        let shift = self.shift?;
        Some(TextRange {
            start: range.start + shift,
            end: range.end + shift,
        })
    }

    /// The span of a range that may be there.
    pub(crate) fn span_if(self, range: Option<TextRange>) -> Option<TextRange>
        requires within { IfSome range (IsRangeOf self) }
        requires short { HasSpans self }
        ensures { result ≡ span_if (source_of self.entry) range }
    {
        match range {
            Some(range) => self.span(range),
            None => None,
        }
    }

    /// The text in a range.
    pub(crate) fn slice(self, range: TextRange) -> &'a str
        requires { IsRangeOf self range }
        ensures { result.now ≡ text_in (source_of self.entry) range }
    {
        &self.text[range.start as usize..range.end as usize]
    }

    /// The name in a range.
    pub(crate) fn name(self, alloc: Global, range: TextRange) -> Result<Name, AllocError>
        requires { IsRangeOf self range }
        ensures { IfOk result (λ name. name ≡ name_in (source_of self.entry) range) }
    {
        Name::new(alloc, self.slice(range))
    }
}
