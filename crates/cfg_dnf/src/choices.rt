ghost use Rattle.std.specs.Prelude.{◌≡◌, ◌≤◌, length, take, drop};
ghost use Rattle.std.specs.Option.{option_map};
ghost use Rattle.cfg_dnf.specs.Form.{Sum, Product, form, part_forms, width as width_in, product_width as product_width_in, first as first_in, sum_first as sum_first_in, product_first as product_first_in, next as next_in, product_next as product_next_in};
ghost use Rattle.cfg_dnf.specs.Making.{Makes, shifted};

use ra_cfg::CfgExpr;
use std::alloc::AllocError;

/// Makes the choices of the first conjunction behind those that there are, and returns whether there is one.
#[cycle(beginning)]
#[tactic(auto, using(crate::proofs::Equations::form_rules))]
pub(crate) fn first_choices(
    expr: &CfgExpr,
    negated: bool,
    choices: &mut Vec<usize>,
) -> Result<bool, AllocError>
    ensures { Makes result choices.old.items choices.new.items (first_in (form expr.now negated)) }
{
    match expr {
        CfgExpr::Invalid | CfgExpr::Atom(_) | CfgExpr::Version(_) => Ok(true),
        CfgExpr::All(parts) if negated => sum_first(parts.as_slice(), 0, negated, choices),
        CfgExpr::All(parts) => product_first(parts.as_slice(), negated, choices),
        CfgExpr::Any(parts) if negated => product_first(parts.as_slice(), negated, choices),
        CfgExpr::Any(parts) => sum_first(parts.as_slice(), 0, negated, choices),
        CfgExpr::Not(part) => first_choices(part.get(), !negated, choices),
    }
}

// The same for a sum, from the part at `start` on.
#[cycle(beginning)]
fn sum_first(
    parts: &[CfgExpr],
    start: usize,
    negated: bool,
    choices: &mut Vec<usize>,
) -> Result<bool, AllocError>
    ensures { Makes result choices.old.items choices.new.items (option_map (shifted start) (sum_first_in (part_forms negated (drop start parts.now)))) }
{
    let end = choices.len();
    for i in start..parts.len() {
        choices.push(i)?;
        if first_choices(&parts[i], negated, choices)? {
            return Ok(true);
        }
        choices.truncate(end);
    }
    Ok(false)
}

// The same for a product.
#[cycle(beginning)]
fn product_first(
    parts: &[CfgExpr],
    negated: bool,
    choices: &mut Vec<usize>,
) -> Result<bool, AllocError>
    ensures { Makes result choices.old.items choices.new.items (product_first_in (part_forms negated parts.now)) }
{
    for part in parts {
        if !first_choices(part, negated, choices)? {
            return Ok(false);
        }
    }
    Ok(true)
}

/// Returns how many of the choices at the front are made in the predicate.
#[cycle(measuring)]
#[tactic(auto, using(crate::proofs::Equations::form_rules))]
pub(crate) fn width(expr: &CfgExpr, negated: bool, choices: &[usize]) -> usize
    ensures value { result ≡ width_in (form expr.now negated) choices.now }
    ensures fits { result ≤ length choices.now }
{
    match expr {
        CfgExpr::Invalid | CfgExpr::Atom(_) | CfgExpr::Version(_) => 0,
        CfgExpr::All(parts) if negated => sum_width(parts.as_slice(), negated, choices),
        CfgExpr::All(parts) => product_width(parts.as_slice(), negated, choices),
        CfgExpr::Any(parts) if negated => product_width(parts.as_slice(), negated, choices),
        CfgExpr::Any(parts) => sum_width(parts.as_slice(), negated, choices),
        CfgExpr::Not(part) => width(part.get(), !negated, choices),
    }
}

// The same for a sum.
#[cycle(measuring)]
fn sum_width(parts: &[CfgExpr], negated: bool, choices: &[usize]) -> usize
    ensures value { result ≡ width_in (Sum (part_forms negated parts.now)) choices.now }
    ensures fits { result ≤ length choices.now }
{
    let Some((chosen, rest)) = choices.split_first() else {
        return 0;
    };
    match parts.get(*chosen) {
        Some(part) => 1 + width(part, negated, rest),
        None => 1,
    }
}

// The same for a product.
#[cycle(measuring)]
fn product_width(parts: &[CfgExpr], negated: bool, choices: &[usize]) -> usize
    ensures value { result ≡ product_width_in (part_forms negated parts.now) choices.now }
    ensures fits { result ≤ length choices.now }
{
    let mut end = 0;
    for part in parts {
        end += width(part, negated, &choices[end..]);
    }
    end
}

/// Goes from the choices from `at` on, which are made in the predicate, to those of the next conjunction, and returns
/// whether there is one.
#[cycle(going)]
#[tactic(auto, using(crate::proofs::Equations::form_rules))]
pub(crate) fn next_choices(
    expr: &CfgExpr,
    negated: bool,
    choices: &mut Vec<usize>,
    at: usize,
) -> Result<bool, AllocError>
    requires { at ≤ length choices.old.items }
    ensures { Makes result (take at choices.old.items) choices.new.items (next_in (form expr.now negated) (drop at choices.old.items)) }
{
    match expr {
        CfgExpr::Invalid | CfgExpr::Atom(_) | CfgExpr::Version(_) => Ok(false),
        CfgExpr::All(parts) if negated => sum_next(parts.as_slice(), negated, choices, at),
        CfgExpr::All(parts) => product_next(parts.as_slice(), negated, choices, at),
        CfgExpr::Any(parts) if negated => product_next(parts.as_slice(), negated, choices, at),
        CfgExpr::Any(parts) => sum_next(parts.as_slice(), negated, choices, at),
        CfgExpr::Not(part) => next_choices(part.get(), !negated, choices, at),
    }
}

// The same for a sum: the next choices of the chosen part, or else the first ones of the parts behind it.
#[cycle(going)]
fn sum_next(
    parts: &[CfgExpr],
    negated: bool,
    choices: &mut Vec<usize>,
    at: usize,
) -> Result<bool, AllocError>
    requires { at ≤ length choices.old.items }
    ensures { Makes result (take at choices.old.items) choices.new.items (next_in (Sum (part_forms negated parts.now)) (drop at choices.old.items)) }
{
    if at == choices.len() {
        return Ok(false);
    }
    let chosen = choices[at];
    match parts.get(chosen) {
        None => Ok(false),
        Some(part) => {
            if next_choices(part, negated, choices, at + 1)? {
                return Ok(true);
            }
            choices.truncate(at);
            sum_first(parts, chosen + 1, negated, choices)
        }
    }
}

// The same for a product: the next choices of the second half of its parts, or else those of the first half and then the
// first ones of the second.
#[cycle(going)]
fn product_next(
    parts: &[CfgExpr],
    negated: bool,
    choices: &mut Vec<usize>,
    at: usize,
) -> Result<bool, AllocError>
    requires { at ≤ length choices.old.items }
    ensures { Makes result (take at choices.old.items) choices.new.items (product_next_in (part_forms negated parts.now) (drop at choices.old.items)) }
{
    match parts {
        [] => Ok(false),
        [part] => {
            let wide = width(part, negated, &choices[at..]);
            choices.truncate(at + wide);
            next_choices(part, negated, choices, at)
        }
        _ => {
            let (front, back) = parts.split_at(parts.len() / 2);
            let wide = product_width(front, negated, &choices[at..]);
            if product_next(back, negated, choices, at + wide)? {
                return Ok(true);
            }
            choices.truncate(at + wide);
            if !product_next(front, negated, choices, at)? {
                return Ok(false);
            }
            product_first(back, negated, choices)
        }
    }
}
