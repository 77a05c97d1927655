use sqlite_items::Items;
use std::alloc::{AllocError, Global};
use std::test::Fail;
use sym_core::Symbol;
use syn_trees::{Spacing, TokenTree, TopSubtree, TtIter, TtLiteral};

// A letter for each kind of tree; of a mark, the mark.
fn kind(tree: &TokenTree) -> char {
    match tree {
        TokenTree::Ident(_) => 'i',
        TokenTree::Literal(_) => 'l',
        TokenTree::Punct { ch, spacing: _ } => *ch,
        TokenTree::Subtree(_) => 's',
    }
}

fn word(alloc: Global, text: &str) -> Result<TokenTree, AllocError> {
    Ok(TokenTree::Ident(Symbol::new(alloc, text)?))
}

fn string(alloc: Global, inside: &str) -> Result<TokenTree, AllocError> {
    let text = Symbol::new(alloc, inside)?;
    Ok(TokenTree::Literal(TtLiteral { text }))
}

// `(b)`
fn group(alloc: Global) -> Result<TokenTree, AllocError> {
    let mut inside = Items::new(alloc);
    inside.push(word(alloc, "b")?)?;
    Ok(TokenTree::Subtree(inside))
}

// `a = "1" (b)`
fn trees(alloc: Global) -> Result<TopSubtree, AllocError> {
    let mut trees = Items::new(alloc);
    trees.push(word(alloc, "a")?)?;
    trees.push(TokenTree::Punct {
        ch: '=',
        spacing: Spacing::Alone,
    })?;
    trees.push(string(alloc, "1")?)?;
    trees.push(group(alloc)?)?;
    Ok(TopSubtree { trees })
}

// The kinds of the trees that are left.
fn kinds(alloc: Global, iter: TtIter<'_>) -> Result<String, AllocError> {
    let mut text = String::new(alloc);
    for tree in iter {
        text.push(kind(tree))?;
    }
    Ok(text)
}

#[test]
fn gives_trees_in_order(rt: HostRuntime) -> Result<(), Fail> {
    let alloc = rt.alloc();
    let top = trees(alloc)?;
    assert_eq!(rt; kinds(alloc, top.iter())?.as_str(), "i=ls");

    let mut iter = top.iter();
    assert_eq!(rt; iter.peek().map(kind), Some('i'));
    assert_eq!(rt; iter.next().map(kind), Some('i'));
    assert_eq!(rt; iter.peek().map(kind), Some('='));
    let copy = iter.clone()?;
    assert_eq!(rt; iter.next().map(kind), Some('='));
    assert_eq!(rt; kinds(alloc, copy)?.as_str(), "=ls");
    assert_eq!(rt; kinds(alloc, iter)?.as_str(), "ls");
    Ok(())
}
