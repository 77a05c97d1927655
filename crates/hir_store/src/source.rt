use sym_core::{AstPtr, TextRange};

/// Where a format call captures a name: the template, and the range of the name in it.
#[derive(Clone, Copy, PartialEq, Eq, Debug)]
pub struct CaptureSource {
    /// The literal that names what is captured.
    pub template: AstPtr,
    /// The bytes of the literal that are the name.
    pub range: TextRange,
}
