use syn_trees::{Spacing, StrToken};

/// What a group stands in.
#[derive(Clone, Copy, Drop)]
pub enum Bracket {
    /// `(` and `)`.
    Round,
    /// `[` and `]`.
    Square,
    /// `{` and `}`.
    Curly,
}

/// What a token is.
#[derive(Clone, Copy, Drop)]
pub enum TokenKind<'a> {
    /// A word.
    Word(&'a str),
    /// A digit, with the characters behind it that go on a word.
    Numeral(&'a str),
    /// A string token.
    Text(StrToken<'a>),
    /// A punctuation mark, and whether another follows it directly.
    Mark(char, Spacing),
    /// What opens a group.
    Open(Bracket),
    /// What closes a group.
    Close(Bracket),
}

/// A token of a line of a script.
#[derive(Clone, Copy, Drop)]
pub struct Token<'a> {
    /// Whether blanks stand in front of it: only where none do, `@` and a numeral are a leaf.
    pub spaced: bool,
    /// What it is.
    pub kind: TokenKind<'a>,
}
