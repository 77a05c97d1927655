ghost use Rattle.std.specs.Prelude.{◌≡◌, ◌≤◌, IfOk, length, min, count_by};
ghost use Rattle.cfg_dnf.specs.Hints.{hints};
ghost use Rattle.printer.specs.Summary.{is_off, is_code, hints_at, count_hints, most_told, summary};

use cfg_dnf::DnfExpr;
use hir_lower::Outcome;
use hir_store::ExpressionStore;
use ra_cfg::CfgOptions;
use std::alloc::{AllocError, Global};
use std::fmt::Write;

/// Prints what can be counted of outcomes, a line for each count: `calls`, all outcomes; `off` and `code`, those that are
/// off and those that are code; `hints`, the hints of all that are off under the options; and `exprs`, the expressions
/// that the store holds. More than 18,446,744,073,709,551,615 hints are told as that number.
///
/// Hints are made one by one, and none is kept: it takes the time of all of them, and the memory of one.
///
/// ```
/// let store = ExpressionStore::new(alloc);
/// let options = CfgOptions::new(alloc)?;
/// let summary = print_summary(alloc, &store, &options, &[])?;
/// assert_eq!(rt; summary.as_slice(), b"calls 0\noff 0\ncode 0\nhints 0\nexprs 0\n".as_slice());
/// ```
pub fn print_summary(
    alloc: Global,
    store: &ExpressionStore,
    options: &CfgOptions,
    outcomes: &[Outcome],
) -> Result<Vec<u8>, AllocError>
    ensures { IfOk result (λ bytes. bytes.items ≡ summary store.now options.now outcomes.now) }
{
    let hints = hints_of_all(alloc, options, outcomes)?;
    let mut out = String::new(alloc);
    writeln!(out, "calls {}", outcomes.len())?;
    writeln!(out, "off {}", count_off(outcomes))?;
    writeln!(out, "code {}", count_code(outcomes))?;
    writeln!(out, "hints {hints}")?;
    writeln!(out, "exprs {}", store.exprs.len())?;
    Ok(out.into_bytes())
}

// The number of calls that are off.
fn count_off(outcomes: &[Outcome]) -> usize
    ensures value { result ≡ count_by is_off outcomes.now }
    ensures bound { result ≤ length outcomes.now }
{
    let mut count = 0;
    for outcome in outcomes {
        if let Outcome::Off { .. } = outcome {
            count += 1;
        }
    }
    count
}

// The number of calls that are code: all that are not off.
fn count_code(outcomes: &[Outcome]) -> usize
    ensures { result ≡ count_by is_code outcomes.now }
{
    outcomes.len() - count_off(outcomes)
}

// The number of hints of all calls, or the largest that is told.
fn hints_of_all(
    alloc: Global,
    options: &CfgOptions,
    outcomes: &[Outcome],
) -> Result<u64, AllocError>
    ensures { IfOk result (λ count. count ≡ min (count_hints options.now outcomes.now) most_told) }
{
    let mut count = 0_u64;
    for outcome in outcomes {
        count = count.saturating_add(hints_of(alloc, options, outcome)?);
    }
    Ok(count)
}

// The number of hints of a call, or the largest that is told.
fn hints_of(alloc: Global, options: &CfgOptions, outcome: &Outcome) -> Result<u64, AllocError>
    ensures { IfOk result (λ count. count ≡ min (hints_at options.now outcome.now) most_told) }
{
    match outcome {
        Outcome::Off { dnf, .. } => hints_of_predicate(alloc, options, dnf),
        Outcome::Code(_) => Ok(0),
    }
}

// The number of hints of a predicate, or the largest that is told.
fn hints_of_predicate(alloc: Global, options: &CfgOptions, dnf: &DnfExpr) -> Result<u64, AllocError>
    ensures { IfOk result (λ count. count ≡ min (length (hints options.now dnf.now)) most_told) }
{
    let mut hints = dnf.compute_enable_hints(alloc, options);
    let mut count = 0_u64;
    while let Some(hint) = hints.next() {
        let _ = hint?;
        count = count.saturating_add(1);
    }
    Ok(count)
}
