use crate::StringLit;
use sqlite_items::Items;
use sym_core::Symbol;

/// A predicate of `#[cfg(..)]`, as syntax.
#[derive(Debug, Drop)]
pub enum CfgPredicate {
    /// A flag, or a key with a string.
    Atom {
        /// The flag or the key, where there is one.
        key: Option<CfgAtomKey>,
        /// The string, where there is one.
        string: Option<StringLit>,
    },
    /// A keyword with predicates in brackets.
    Composite {
        /// The keyword, where there is one.
        keyword: Option<Symbol>,
        /// The predicates in the brackets, in order.
        parts: Items<CfgPredicate>,
    },
    /// `version(..)`, with the string in its brackets, where there is one.
    Version(Option<StringLit>),
}

/// The flag or the key of an atom.
#[derive(Debug, Drop)]
pub enum CfgAtomKey {
    /// The word `true`.
    True,
    /// The word `false`.
    False,
    /// Any other word.
    Ident(Symbol),
}
