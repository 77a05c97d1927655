ghost use Rattle.std.specs.Prelude.{◌≡◌, ◌<◌, ◌≤◌, IfOk, IfSome, length};
ghost use Rattle.script_tokens.specs.Ahead.{kind_of, ahead, end};
ghost use Rattle.script_tokens.specs.Many.{many};
ghost use Rattle.script_tokens.specs.Found.{Found, Read};
ghost use Rattle.script_grammar.specs.Trees.{is_same, closes, group_of, tree_of, tree_by, group_in, trees};

use script_tokens::{Bracket, TokenKind, next_token};
use sqlite_items::Items;
use std::alloc::{AllocError, Global};
use sym_core::Symbol;
use syn_trees::{TokenTree, TtLiteral};
use text_cut::Cursor;

/// How many groups, or predicates in brackets, stand in one another at most: the recursion is never deeper.
pub(crate) const MAX_DEPTH: u32 = 128;

// Whether two brackets are of one kind.
fn is_same(bracket: Bracket, other: Bracket) -> bool
    ensures { result ≡ is_same bracket other }
{
    match (bracket, other) {
        (Bracket::Round, Bracket::Round) => true,
        (Bracket::Square, Bracket::Square) => true,
        (Bracket::Curly, Bracket::Curly) => true,
        _ => false,
    }
}

// Whether a token closes such a group.
fn closes(bracket: Bracket, kind: TokenKind<'_>) -> bool
    ensures { result ≡ closes bracket (kind_of kind.entry) }
{
    match kind {
        TokenKind::Close(other) => is_same(bracket, other),
        _ => false,
    }
}

// The group of these trees, where what closes it stands behind them.
fn group_of<'a>(
    bracket: Bracket,
    inside: Items<TokenTree>,
    end: Cursor<'a>,
) -> Option<(TokenTree, Cursor<'a>)>
    ensures { Found (λ t. t) (λ toks. group_of bracket (inside, toks)) end.entry result }
{
    let (token, behind) = next_token(end)?;
    if !closes(bracket, token.kind) {
        return None;
    }
    Some((TokenTree::Subtree(inside), behind))
}

// A literal with this text.
fn literal(alloc: Global, text: &str) -> Result<TokenTree, AllocError>
    ensures { IfOk result (λ tree. tree ≡ TokenTree.Literal (record { text = text.now })) }
{
    let text = Symbol::new(alloc, text)?;
    Ok(TokenTree::Literal(TtLiteral { text }))
}

// A group behind the bracket that opens it, with so many groups in one another at most.
#[cycle(trees)]
#[tactic(auto, using(crate::proofs::Depths::groups))]
fn group<'a>(
    alloc: Global,
    bracket: Bracket,
    here: Cursor<'a>,
    depth: u32,
) -> Result<Option<(TokenTree, Cursor<'a>)>, AllocError>
    ensures { Read (λ t. t) (group_in depth bracket) here.entry result }
{
    if depth == 0 {
        return Ok(None);
    }
    let (inside, end) = trees_in(alloc, here, depth - 1)?;
    Ok(group_of(bracket, inside, end))
}

// The tree that a token is, or begins.
#[cycle(trees)]
fn tree_of<'a>(
    alloc: Global,
    kind: TokenKind<'_>,
    behind: Cursor<'a>,
    depth: u32,
) -> Result<Option<(TokenTree, Cursor<'a>)>, AllocError>
    ensures { Read (λ t. t) (tree_of (group_in depth) (kind_of kind.entry)) behind.entry result }
{
    match kind {
        TokenKind::Word(text) => Ok(Some((TokenTree::Ident(Symbol::new(alloc, text)?), behind))),
        TokenKind::Numeral(text) => Ok(Some((literal(alloc, text)?, behind))),
        TokenKind::Text(token) => Ok(Some((literal(alloc, token.inside)?, behind))),
        TokenKind::Mark(ch, spacing) => Ok(Some((TokenTree::Punct { ch, spacing }, behind))),
        TokenKind::Open(bracket) => group(alloc, bracket, behind, depth),
        TokenKind::Close(_) => Ok(None),
    }
}

// A tree.
#[cycle(trees)]
fn tree<'a>(
    alloc: Global,
    here: Cursor<'a>,
    depth: u32,
) -> Result<Option<(TokenTree, Cursor<'a>)>, AllocError>
    ensures value { Read (λ t. t) (tree_by (group_in depth)) here.entry result }
    ensures fewer { IfOk result (λ o. IfSome o (λ r. length (ahead r.1) < length (ahead here.entry))) }
{
    let Some((token, behind)) = next_token(here) else {
        return Ok(None);
    };
    tree_of(alloc, token.kind, behind, depth)
}

// As many trees as stand there, with so many groups in one another at most.
#[cycle(trees)]
#[tactic(auto, using(script_tokens::proofs::Many::manys))]
fn trees_in<'a>(
    alloc: Global,
    here: Cursor<'a>,
    depth: u32,
) -> Result<(Items<TokenTree>, Cursor<'a>), AllocError>
    ensures value { IfOk result (λ r. many (tree_by (group_in depth)) (ahead here.entry) ≡ (r.0, ahead r.1)) }
    ensures end { IfOk result (λ r. end r.1 ≡ end here.entry) }
    ensures fewer { IfOk result (λ r. length (ahead r.1) ≤ length (ahead here.entry)) }
{
    let mut trees = Items::new(alloc);
    let mut after = here;
    while let Some((tree, behind)) = tree(alloc, after, depth)? {
        trees.push(tree)?;
        after = behind;
    }
    Ok((trees, after))
}

/// Returns as many token trees as stand at the front of the tokens that are left, and the place behind them.
///
/// Behind them stands no token, a bracket that closes no group, or the begin of a group that is not closed or that has more than
/// 128 groups in one another.
///
/// ```
/// let (trees, end) = read_trees(alloc, begin("a = (b) )"))?;
/// assert_eq!((trees.len(), end.rest), (3, " )"));
/// ```
#[tactic(auto, unfolding(crate::specs::Trees::trees_in))]
pub fn read_trees<'a>(
    alloc: Global,
    here: Cursor<'a>,
) -> Result<(Items<TokenTree>, Cursor<'a>), AllocError>
    ensures value { IfOk result (λ r. trees (ahead here.entry) ≡ (r.0, ahead r.1)) }
    ensures end { IfOk result (λ r. end r.1 ≡ end here.entry) }
    ensures fewer { IfOk result (λ r. length (ahead r.1) ≤ length (ahead here.entry)) }
{
    trees_in(alloc, here, MAX_DEPTH)
}
