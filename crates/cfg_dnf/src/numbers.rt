ghost use Rattle.std.specs.Prelude.{◌≡◌, ◌<◌, ◌++◌, min, IfOk};
ghost use Rattle.cfg_dnf.specs.Form.{form, part_forms};
ghost use Rattle.cfg_dnf.specs.Numbered.{number_limit};
ghost use Rattle.cfg_dnf.specs.Numbers.{count as count_in, sum_count as sum_count_in, product_count as product_count_in, choices_at, sum_choices_at, product_choices_at};

use ra_cfg::CfgExpr;
use std::alloc::AllocError;

/// Returns how many conjunctions the predicate has, or `u64::MAX` if there are more.
#[cycle(counting)]
#[tactic(auto, using(crate::proofs::Equations::form_rules))]
pub(crate) fn count(expr: &CfgExpr, negated: bool) -> u64
    ensures { result ≡ min (count_in (form expr.now negated)) number_limit }
{
    match expr {
        CfgExpr::Invalid | CfgExpr::Atom(_) | CfgExpr::Version(_) => 1,
        CfgExpr::All(parts) if negated => sum_count(parts.as_slice(), negated),
        CfgExpr::All(parts) => product_count(parts.as_slice(), negated),
        CfgExpr::Any(parts) if negated => product_count(parts.as_slice(), negated),
        CfgExpr::Any(parts) => sum_count(parts.as_slice(), negated),
        CfgExpr::Not(part) => count(part.get(), !negated),
    }
}

// The same for a sum.
#[cycle(counting)]
fn sum_count(parts: &[CfgExpr], negated: bool) -> u64
    ensures { result ≡ min (sum_count_in (part_forms negated parts.now)) number_limit }
{
    let mut found: u64 = 0;
    for part in parts {
        found = found.saturating_add(count(part, negated));
    }
    found
}

// The same for a product.
#[cycle(counting)]
fn product_count(parts: &[CfgExpr], negated: bool) -> u64
    ensures { result ≡ min (product_count_in (part_forms negated parts.now)) number_limit }
{
    let mut found: u64 = 1;
    for part in parts {
        found = found.saturating_mul(count(part, negated));
    }
    found
}

/// Puts the choices of the conjunction of this number behind those that there are, if there is such a conjunction. The parts of a
/// predicate are counted at each level of nesting, in a product once for each time that its parts are halved.
#[cycle(numbering)]
#[tactic(auto, using(crate::proofs::Equations::form_rules))]
pub(crate) fn take_choices(
    expr: &CfgExpr,
    negated: bool,
    number: u64,
    choices: &mut Vec<usize>,
) -> Result<(), AllocError>
    requires { number < number_limit }
    ensures { number < count_in (form expr.now negated) → IfOk result (λ u. choices.new.items ≡ choices.old.items ++ choices_at (form expr.now negated) number) }
{
    match expr {
        CfgExpr::Invalid | CfgExpr::Atom(_) | CfgExpr::Version(_) => Ok(()),
        CfgExpr::All(parts) if negated => take_in_sum(parts.as_slice(), negated, number, choices),
        CfgExpr::All(parts) => take_in_product(parts.as_slice(), negated, number, choices),
        CfgExpr::Any(parts) if negated => take_in_product(
            parts.as_slice(),
            negated,
            number,
            choices,
        ),
        CfgExpr::Any(parts) => take_in_sum(parts.as_slice(), negated, number, choices),
        CfgExpr::Not(part) => take_choices(part.get(), !negated, number, choices),
    }
}

// The same for a sum: the part in which the number falls, and the choices of the number inside it.
#[cycle(numbering)]
fn take_in_sum(
    parts: &[CfgExpr],
    negated: bool,
    number: u64,
    choices: &mut Vec<usize>,
) -> Result<(), AllocError>
    requires { number < number_limit }
    ensures { IfOk result (λ u. choices.new.items ≡ choices.old.items ++ sum_choices_at (part_forms negated parts.now) number) }
{
    let mut left = number;
    for i in 0..parts.len() {
        let here = count(&parts[i], negated);
        if left < here {
            choices.push(i)?;
            return take_choices(&parts[i], negated, left, choices);
        }
        left -= here;
    }
    Ok(())
}

// The same for a product: the number divided by the count of the second half of its parts is a number in the first half, and the
// remainder one in the second. Where the second half has no conjunction, neither has the product.
#[cycle(numbering)]
#[tactic(auto, using(crate::proofs::Choosing::half_rules))]
fn take_in_product(
    parts: &[CfgExpr],
    negated: bool,
    number: u64,
    choices: &mut Vec<usize>,
) -> Result<(), AllocError>
    requires { number < number_limit }
    ensures { number < product_count_in (part_forms negated parts.now) → IfOk result (λ u. choices.new.items ≡ choices.old.items ++ product_choices_at (part_forms negated parts.now) number) }
{
    match parts {
        [] => Ok(()),
        [part] => take_choices(part, negated, number, choices),
        _ => {
            let (front, back) = parts.split_at(parts.len() / 2);
            let behind = product_count(back, negated);
            if behind == 0 {
                return Ok(());
            }
            take_in_product(front, negated, number / behind, choices)?;
            take_in_product(back, negated, number % behind, choices)
        }
    }
}
