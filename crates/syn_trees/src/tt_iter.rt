ghost use Rattle.std.specs.Prelude.{◌≡◌};
ghost use Rattle.syn_trees.specs.Trees.{ShowsFirst};

use crate::TokenTree;
use std::alloc::AllocError;
use std::marker::Model;

/// The trees of a list that are still to come.
///
/// ```
/// let mut iter = top.iter();                      // the trees of `a = "1" (b)`
/// assert_eq!(iter.peek().map(kind), Some('i'));   // the word, which stays
/// assert_eq!(iter.next().map(kind), Some('i'));   // the word
/// assert_eq!(iter.next().map(kind), Some('='));   // the mark behind it
/// ```
#[derive(Debug, Drop)]
pub struct TtIter<'a> {
    trees: &'a [TokenTree],
}

impl<'a> Model for TtIter<'a> {
    ghost use Rattle.std.specs.Prelude.{List};
    ghost use Rattle.std.specs.Coded.{codes};
    ghost use Rattle.syn_trees.specs.declared.token_tree.TokenTree.{TokenTree as Tree};
    ghost use Rattle.syn_trees.specs.contracts.token_tree.TokenTree as tree;

    ghost Value = { List Tree };

    ghost coded = { Prim.hlevel (codes, tree.the_row.coded) };

    ghost view = { λ iter. iter.trees.now };
}

impl<'a> TtIter<'a> {
    /// Returns an iterator over these trees.
    pub fn new(trees: &'a [TokenTree]) -> TtIter<'a>
        ensures { result ≡ trees.now }
    {
        TtIter { trees }
    }

    /// Returns the next tree, and leaves it where it is.
    pub fn peek(&self) -> Option<&'a TokenTree>
        ensures { ShowsFirst self.now result }
    {
        self.trees.first()
    }
}

impl<'a> Iterator for TtIter<'a> {
    ghost use Rattle.std.specs.Iterator.{YieldsFirstRef, item_count};

    type Item = &'a TokenTree;

    ghost next_gives = { YieldsFirstRef (λ rest. rest) };

    ghost remaining = { item_count (λ rest. rest) };

    fn next(&mut self) -> Option<&'a TokenTree> {
        let (first, rest) = self.trees.split_first()?;
        self.trees = rest;
        Some(first)
    }
}

impl<'a> Clone for TtIter<'a> {
    ghost use Rattle.std.specs.Prelude.{◌≡◌, ⊤};

    ghost is_clone = { λ iter copy. copy ≡ iter };

    ghost is_infallible = { λ iter. ⊤ };

    fn clone(&self) -> Result<Self, AllocError> {
        Ok(TtIter { trees: self.trees })
    }
}
