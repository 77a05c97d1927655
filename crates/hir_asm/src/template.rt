ghost use Rattle.std.specs.Prelude.{◌≡◌, ◌+◌, ◌≤◌, length, IfOk, IfSome};
ghost use Rattle.hir_fmt.specs.References.{span_in, name_in};
ghost use Rattle.hir_asm.specs.Text.{source_of, IsRangeOf, HasSpans, IsTemplateRead};

use hir_fmt::{literal_value, span_shift};
use std::alloc::{AllocError, Global};
use sym_core::{Name, Symbol, TextRange};
use syn_trees::StringLit;

/// The text of a template.
#[derive(Drop)]
pub(crate) struct TemplateText {
    /// What its literal stands for.
    pub(crate) text: Symbol,
    /// By how much a range of the text is shifted to be a span of the literal; none where no spans are given.
    pub(crate) shift: Option<u32>,
}

impl TemplateText {
    /// The text of a literal; none where the literal has no value.
    pub(crate) fn read(
        alloc: Global,
        literal: &StringLit,
        is_direct: bool,
    ) -> Result<Option<TemplateText>, AllocError>
        ensures { IfOk result (IsTemplateRead literal.now is_direct) }
    {
        let Some(text) = literal_value(alloc, literal)? else {
            return Ok(None);
        };
        Ok(Some(TemplateText {
            text,
            shift: span_shift(literal, is_direct),
        }))
    }

    /// The span of a range of the text, where spans are given.
    pub(crate) fn span(&self, range: TextRange) -> Option<TextRange>
        requires within { IsRangeOf self.now range }
        requires short { HasSpans self.now }
        ensures { result ≡ span_in (source_of self.now) range }
    {
        let shift = self.shift?;
        Some(TextRange {
            start: range.start + shift,
            end: range.end + shift,
        })
    }

    /// The name in a range of the text.
    pub(crate) fn name(&self, alloc: Global, range: TextRange) -> Result<Name, AllocError>
        requires { IsRangeOf self.now range }
        ensures { IfOk result (λ name. name ≡ name_in (source_of self.now) range) }
    {
        let text = self.text.as_str();
        Name::new(alloc, &text[range.start as usize..range.end as usize])
    }
}
