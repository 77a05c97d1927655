ghost use Rattle.std.specs.Prelude.{◌≡◌};

use crate::TtIter;
use sqlite_items::Items;
use sym_core::Symbol;

/// A token, or a group of tokens in brackets.
#[derive(Debug, Drop)]
pub enum TokenTree {
    /// A word.
    Ident(Symbol),
    /// A literal.
    Literal(TtLiteral),
    /// A punctuation mark.
    Punct {
        /// The character of the mark.
        ch: char,
        /// Whether the next mark follows it directly.
        spacing: Spacing,
    },
    /// A group, whatever its brackets are.
    Subtree(Items<TokenTree>),
}

/// A literal among token trees.
#[derive(Debug, Drop)]
pub struct TtLiteral {
    /// The text of the literal as it is kept: of a string, what stands between its quotes as written.
    pub text: Symbol,
}

/// Whether a punctuation mark is followed by another.
#[derive(Clone, Copy, PartialEq, Eq, Debug)]
pub enum Spacing {
    /// No mark follows directly.
    Alone,
    /// Another mark follows directly.
    Joint,
}

/// The token trees of an attribute or a macro call, without the outer brackets.
#[derive(Debug, Drop)]
pub struct TopSubtree {
    /// The trees, in order.
    pub trees: Items<TokenTree>,
}

impl TopSubtree {
    /// Returns the trees, one after the other.
    pub fn iter(&self) -> TtIter<'_>
        ensures { result ≡ self.now.trees }
    {
        TtIter::new(self.trees.as_slice())
    }
}
