ghost use Rattle.std.specs.Prelude.{◌≡◌, List, Option, option_map};
ghost use Rattle.text_cut.specs.declared.cursor.Cursor.{Cursor};
ghost use Rattle.text_cut.specs.Seen.{seen};
ghost use Rattle.script_tokens.specs.Tokens.{Tok};
ghost use Rattle.script_tokens.specs.Readers.{whole_by};
ghost use Rattle.script_tokens.specs.Found.{Found};
ghost use Rattle.script_tokens.specs.Items.{taken_at};

use crate::line::line_end;
use text_cut::Cursor;

/// Returns what a grammar read at the begin of a line, with the place behind the line; `None` where nothing was read, or where tokens
/// are left of the line behind it.
///
/// ```
/// let here = begin("unix\n");
/// let (item, end) = end_item(word(here)).unwrap();
/// assert_eq!((item, end.at), ("unix", 5));
/// ```
#[tactic(auto, using(crate::proofs::ItemEnds::ends))]
pub fn end_item<'a, I: Drop>(read: Option<(I, Cursor<'a>)>) -> Option<(I, Cursor<'a>)>
    ensures { (item : List Tok → Option (I × List Tok)) (here : Cursor) → Found (λ i. i) item here read.entry → option_map (λ r. (r.0, seen r.1)) result ≡ taken_at (whole_by item) (seen here) }
{
    let (item, after) = read?;
    let end = line_end(after)?;
    Some((item, end))
}
