ghost use Rattle.std.specs.Prelude.{◌≤◌, IfOk, length};
ghost use Rattle.std.specs.Str.{chars};
ghost use Rattle.cfg_query.specs.Predicate.{TellsTrees};
ghost use Rattle.cfg_query.specs.Query.{SaysPredicate, IsNoPredicate, IfRefused};

use crate::query_error::QueryError;
use ra_cfg::CfgExpr;
use script::MAX_SCRIPT_LEN;
use script_grammar::read_trees;
use script_tokens::end_item;
use sqlite_items::Items;
use std::alloc::{AllocError, Global};
use std::str;
use syn_trees::{TokenTree, TopSubtree};
use text_cut::begin;

// The token trees that a line is, all of it.
fn line_trees(alloc: Global, line: &str) -> Result<Option<Items<TokenTree>>, AllocError>
    requires { length line.now ≤ 16_777_217 }
    ensures { IfOk result (λ trees. TellsTrees (chars line.now) trees) }
{
    let read = read_trees(alloc, begin(line))?;
    let Some((trees, end)) = end_item(Some(read)) else {
        return Ok(None);
    };
    if end.at as usize != line.len() {
        return Ok(None);
    }
    Ok(Some(trees))
}

/// Reads a predicate, as it stands behind `cfg` in a script: token trees without a line feed between them.
///
/// ```
/// let expr = read_predicate(alloc, b"all(unix, not(a))")?;
/// assert!(matches!(expr, CfgExpr::All(_)));
/// assert!(matches!(read_predicate(alloc, b"all(unix"), Err(QueryError::Predicate)));
/// ```
///
/// # Errors
///
/// [`QueryError::Predicate`] exactly where the bytes are none, [`QueryError::TooLong`] exactly where there are more than
/// 16,777,216 of them, and [`QueryError::Memory`] where no memory is left.
pub fn read_predicate(alloc: Global, bytes: &[u8]) -> Result<CfgExpr, QueryError>
    ensures said { IfOk result (λ expr. SaysPredicate bytes.now expr) }
    ensures refused { IfRefused result (λ error. IsNoPredicate bytes.now error) }
{
    if bytes.len() > MAX_SCRIPT_LEN {
        return Err(QueryError::TooLong);
    }
    let Ok(text) = str::from_utf8(bytes) else {
        return Err(QueryError::Predicate);
    };
    let mut line = String::from_str(alloc, text)?;
    line.push('\n')?;
    let Some(trees) = line_trees(alloc, line.as_str())? else {
        return Err(QueryError::Predicate);
    };
    Ok(CfgExpr::parse(alloc, &TopSubtree { trees })?)
}
