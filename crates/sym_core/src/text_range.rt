/// A range of a text, in bytes from its begin: from `start` up to and without `end`.
///
/// Nothing keeps the start at or before the end: a call that returns a range says where in the text it lies.
#[derive(Clone, Copy, PartialEq, Eq, Hash, Debug)]
pub struct TextRange {
    /// The offset of the first byte.
    pub start: u32,
    /// The offset behind the last byte.
    pub end: u32,
}
