ghost use Rattle.std.specs.Prelude.{◌≡◌, None};

use crate::Mark;
use syn_trees::Template;

/// What came of entering an expansion.
pub struct ExpandResult<'m> {
    /// The mark to give back, and what the call expands to; none where no expansion was entered.
    pub value: Option<(Mark, Option<&'m Template>)>,
    /// What kept the expansion from being entered.
    pub err: Option<ExpandError>,
}

/// Why no expansion was entered.
#[derive(Clone, Copy, PartialEq, Eq, Debug)]
pub enum ExpandError {
    /// The recursion limit is passed. It is told once: what follows in the same tree is skipped in silence.
    RecursionOverflow,
    /// The call has no path.
    Malformed,
}

/// The path of a call leads to no macro.
#[derive(Clone, Copy, PartialEq, Eq, Debug, Drop)]
pub struct UnresolvedMacro;

impl<'m> ExpandResult<'m> {
    // No expansion, and what is told of it.
    pub(crate) fn only(err: Option<ExpandError>) -> ExpandResult<'m>
        ensures value { result.value ≡ None }
        ensures err { result.err ≡ err }
    {
        ExpandResult { value: None, err }
    }
}
