use sym_core::TextRange;

/// A piece of a format text, or of a template of inline assembly. All ranges are in bytes of the text.
#[derive(Clone, Copy, PartialEq, Eq, Debug)]
pub enum Piece {
    /// Characters that stand for themselves, as many as follow; or one brace of a doubled brace, which stands for one.
    Lit(TextRange),
    /// A placeholder.
    NextArgument(Argument),
}

/// A placeholder: which argument it puts, and how.
#[derive(Clone, Copy, PartialEq, Eq, Debug)]
pub struct Argument {
    /// Which argument is put.
    pub position: Position,
    /// Where that is written; empty behind the brace where it is not.
    pub position_span: TextRange,
    /// The whole placeholder, with its braces.
    pub span: TextRange,
    /// How the argument is put.
    pub format: FormatSpec,
}

/// Which argument a placeholder puts.
#[derive(Clone, Copy, PartialEq, Eq, Debug)]
pub enum Position {
    /// The next one: the number is how many placeholders and counts took one before.
    /// In inline assembly it goes on from the number that the counter started at.
    ImplicitlyIs(usize),
    /// The one of this number.
    Is(usize),
    /// The one of the name in this range.
    Named(TextRange),
}

/// How an argument is put: what stands behind the colon of a placeholder.
#[derive(Clone, Copy, PartialEq, Eq, Debug)]
pub struct FormatSpec {
    /// The character that fills the width, where one is given.
    pub fill: Option<char>,
    /// To which side the argument is put in its width.
    pub align: Alignment,
    /// The flag `+` or `-`.
    pub sign: Option<Sign>,
    /// The flag `#`.
    pub alternate: bool,
    /// The flag `0`.
    pub zero_pad: bool,
    /// The flag `x` or `X` in front of `?`.
    pub debug_hex: Option<DebugHex>,
    /// The precision.
    pub precision: Count,
    /// Where the precision is written.
    pub precision_span: Option<TextRange>,
    /// The width. It is never [`Count::IsStar`].
    pub width: Count,
    /// Where the width is written.
    pub width_span: Option<TextRange>,
    /// The type's text, in inline assembly the modifier's; empty where there is none.
    pub ty: TextRange,
}

/// To which side an argument is put in its width.
#[derive(Clone, Copy, PartialEq, Eq, Debug)]
pub enum Alignment {
    /// `<`
    Left,
    /// `>`
    Right,
    /// `^`
    Center,
    /// None is given.
    Unknown,
}

/// The sign flag.
#[derive(Clone, Copy, PartialEq, Eq, Debug)]
pub enum Sign {
    /// `+`
    Plus,
    /// `-`
    Minus,
}

/// How `?` writes integers.
#[derive(Clone, Copy, PartialEq, Eq, Debug)]
pub enum DebugHex {
    /// `x?`
    Lower,
    /// `X?`
    Upper,
}

/// A width or a precision.
#[derive(Clone, Copy, PartialEq, Eq, Debug)]
pub enum Count {
    /// This number.
    Is(u16),
    /// The argument of the name in this range.
    IsName(TextRange),
    /// The argument of this number.
    IsParam(usize),
    /// The next argument, which has this number.
    IsStar(usize),
    /// None is given.
    Implied,
}
