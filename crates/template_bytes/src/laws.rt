//! Laws of template bytes, for callers that reason about them.

ghost use Rattle.template_bytes.specs.Spelling.{DecodesOnce, OneSpelling, SomeSpelling, SameForSame};
ghost use Rattle.template_bytes.specs.Flags.{OptionsComeBack};

/// Template bytes decode to at most one list of bytes and slots.
pub fn decodes_once()
    ensures { DecodesOnce }
{}

/// Canonical pieces have at most one canonical spelling.
pub fn one_spelling()
    ensures { OneSpelling }
{}

/// Canonical pieces with at most 4,294,967,296 pairs have a canonical spelling.
pub fn some_spelling()
    ensures { SomeSpelling }
{}

/// Over the same arguments, the bytes and the pairs of two templates are equal exactly if their canonical pieces are.
pub fn same_for_same()
    ensures { SameForSame }
{}

/// The options of a placeholder, and whether a width and a precision are given, come back from its flags.
pub fn options_come_back()
    ensures { OptionsComeBack }
{}
