ghost use Rattle.std.specs.Prelude.{◌≡◌, false, IfOk};
ghost use Rattle.cfg_dnf.specs.Form.{form, paths};
ghost use Rattle.cfg_dnf.specs.Numbered.{hint_from};
ghost use Rattle.cfg_dnf.specs.Numbers.{IsAt};

use crate::choices::next_choices;
use crate::hinting::chosen_hint;
use crate::numbered_hint::NumberedHint;
use crate::numbers::{count, take_choices};
use ra_cfg::{CfgExpr, CfgOptions};
use std::alloc::{AllocError, Global};

/// Returns the first hint among the conjunctions of this number and of larger ones, with the number of its conjunction.
pub(crate) fn first_from(
    alloc: Global,
    expr: &CfgExpr,
    opts: &CfgOptions,
    number: u64,
) -> Result<Option<NumberedHint>, AllocError>
    ensures { IfOk result (λ found. found ≡ hint_from opts.now expr.now number) }
{
    if count(expr, false) <= number {
        return Ok(None);
    }
    let mut choices = Vec::new(alloc);
    take_choices(expr, false, number, &mut choices)?;
    search(alloc, expr, opts, number, choices)
}

// The same, from the conjunction of these choices on, which has this number.
fn search(
    alloc: Global,
    expr: &CfgExpr,
    opts: &CfgOptions,
    start: u64,
    choices: Vec<usize>,
) -> Result<Option<NumberedHint>, AllocError>
    requires { IsAt choices.items start (paths (form expr.now false)) }
    ensures { IfOk result (λ found. found ≡ hint_from opts.now expr.now start) }
{
    let mut choices = choices;
    for number in start..u64::MAX {
        if let Some(hint) = chosen_hint(alloc, expr, choices.as_slice(), opts)? {
            return Ok(Some(NumberedHint { number, hint }));
        }
        if !next_choices(expr, false, &mut choices, 0)? {
            return Ok(None);
        }
    }
    Ok(None)
}
