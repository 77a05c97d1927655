ghost use Rattle.std.specs.Prelude.{◌≡◌, ◌++◌, Some, codes, IsTrue, IfOk, OnOk, string_bytes};
ghost use Rattle.hir_store.specs.Tree.{is_whole};
ghost use Rattle.hir_store.specs.Unfolding.{place_of, tree_at};
ghost use Rattle.hir_store.specs.Store.{NoDanglingIds};
ghost use Rattle.hir_lower.specs.Lowered.{AreInStore};
ghost use Rattle.printer.specs.Printed.{reason_line, hint_line, hint_lines, use_line, use_lines_of, use_lines, code_lines, printed};
ghost use Rattle.printer.specs.Mapping.{map_lines};
ghost use Rattle.hir_store.specs.Entries.{entry_at};
ghost use Rattle.std.specs.Option.{option_copied};
ghost use Rattle.std.specs.Fmt.{decimal};

use crate::expr::push_expr;
use crate::mapping::push_map_lines;
use cfg_dnf::{DnfExpr, InactiveReason};
use hir_lower::Outcome;
use hir_store::{ExprId, ExpressionStore};
use ra_cfg::{CfgDiff, CfgOptions};
use std::alloc::{AllocError, Global};
use std::fmt::Write;
use sym_core::{Name, TextRange};

/// Prints a line for each outcome, in order: the number of its call, from 0 on, and what became of the call.
///
/// Code is printed as the expression that stands at its place in the store. Behind its line there is one for each usage
/// that the store has there: a name that the literal of the call spells, and its bytes in the literal; and one for each place
/// of a mapping that it has there: the template, the bytes of the placeholder that say which operand it puts, and the
/// operand. Behind the line of a call that is off there is one that says why, where that can be told, and one for each hint under the options; hints are made
/// one by one, and none is kept.
///
/// ```
/// let mut store = ExpressionStore::new(rt.alloc());
/// let leaf = store.alloc_expr_desugared(Expr::Leaf(7))?;
/// let options = CfgOptions::new(rt.alloc())?;
/// let printed = print_outcomes(rt.alloc(), &store, &options, &[Outcome::Code(leaf)])?;
/// assert_eq!(rt; printed.as_slice(), b"0 code @7\n".as_slice());
/// ```
pub fn print_outcomes(
    alloc: Global,
    store: &ExpressionStore,
    options: &CfgOptions,
    outcomes: &[Outcome],
) -> Result<Vec<u8>, AllocError>
    requires no_dangling { NoDanglingIds store.now }
    requires codes { AreInStore store.now outcomes.now }
    ensures { IfOk result (λ bytes. bytes.items ≡ printed store.now options.now outcomes.now) }
{
    let mut out = String::new(alloc);
    for (number, outcome) in outcomes.iter().enumerate() {
        match outcome {
            Outcome::Off { reason, dnf } => {
                push_off(&mut out, number, reason.as_ref())?;
                push_hints(alloc, &mut out, options, number, dnf)?;
            }
            Outcome::Code(id) => push_code(&mut out, store, number, *id)?,
        }
    }
    Ok(out.into_bytes())
}

/// Writes that a call is off, and why, where that can be told.
fn push_off(
    out: &mut String,
    number: usize,
    reason: Option<&InactiveReason>,
) -> Result<(), AllocError>
    ensures { OnOk result (string_bytes out.new ≡ string_bytes out.old ++ (decimal number ++ codes " off\n") ++ reason_line number (option_copied reason.entry)) }
{
    writeln!(out, "{number} off")?;
    match reason {
        Some(reason) => push_reason(out, number, reason),
        None => Ok(()),
    }
}

/// Writes why a call is off.
fn push_reason(out: &mut String, number: usize, reason: &InactiveReason) -> Result<(), AllocError>
    ensures { OnOk result (string_bytes out.new ≡ string_bytes out.old ++ reason_line number (Some reason.now)) }
{
    if reason.enabled().len() == 0 && reason.disabled().len() == 0 {
        return writeln!(out, "{number} reason");
    }
    writeln!(out, "{number} reason {reason}")
}

/// Writes a line for each hint of a predicate under options.
fn push_hints(
    alloc: Global,
    out: &mut String,
    options: &CfgOptions,
    number: usize,
    dnf: &DnfExpr,
) -> Result<(), AllocError>
    ensures { OnOk result (string_bytes out.new ≡ string_bytes out.old ++ hint_lines options.now number dnf.now) }
{
    let mut hints = dnf.compute_enable_hints(alloc, options);
    while let Some(hint) = hints.next() {
        push_hint(out, number, &hint?)?;
    }
    Ok(())
}

/// Writes the line of a hint.
fn push_hint(out: &mut String, number: usize, hint: &CfgDiff) -> Result<(), AllocError>
    ensures { OnOk result (string_bytes out.new ≡ string_bytes out.old ++ hint_line number hint.now) }
{
    writeln!(out, "{number} hint {hint}")
}

/// Writes the line of the code of a call, a line for each usage that the store has at the code, and one for each place of
/// a mapping there.
fn push_code(
    out: &mut String,
    store: &ExpressionStore,
    number: usize,
    id: ExprId,
) -> Result<(), AllocError>
    requires { IsTrue (is_whole (tree_at store.now id)) }
    ensures { OnOk result (string_bytes out.new ≡ string_bytes out.old ++ code_lines store.now number id) }
{
    write!(out, "{number} code ")?;
    push_expr(out, store, id)?;
    out.push_str("\n")?;
    push_usages(out, store, number, id)?;
    push_mapping(out, store, number, id)
}

/// Writes a line for each usage that the store has at the code of a call.
fn push_usages(
    out: &mut String,
    store: &ExpressionStore,
    number: usize,
    id: ExprId,
) -> Result<(), AllocError>
    ensures { OnOk result (string_bytes out.new ≡ string_bytes out.old ++ use_lines number (entry_at store.now.format_args_to_captures (place_of id))) }
{
    match store.format_args_to_captures.get(id) {
        Some(usages) => push_use_lines(out, number, usages.as_slice()),
        None => Ok(()),
    }
}

/// Writes a line for each place of the mapping that the store has at the code of a call.
fn push_mapping(
    out: &mut String,
    store: &ExpressionStore,
    number: usize,
    id: ExprId,
) -> Result<(), AllocError>
    ensures { OnOk result (string_bytes out.new ≡ string_bytes out.old ++ map_lines number (entry_at store.now.asm_to_captures (place_of id))) }
{
    match store.asm_to_captures.get(id) {
        Some(rows) => push_map_lines(out, number, rows.as_slice()),
        None => Ok(()),
    }
}

/// Writes a line for each usage.
fn push_use_lines(
    out: &mut String,
    number: usize,
    usages: &[(TextRange, Name)],
) -> Result<(), AllocError>
    ensures { OnOk result (string_bytes out.new ≡ string_bytes out.old ++ use_lines_of number usages.now) }
{
    for (range, name) in usages {
        push_use_line(out, number, *range, name)?;
    }
    Ok(())
}

/// Writes the line of a usage.
fn push_use_line(
    out: &mut String,
    number: usize,
    range: TextRange,
    name: &Name,
) -> Result<(), AllocError>
    ensures { OnOk result (string_bytes out.new ≡ string_bytes out.old ++ use_line number (range, name.now)) }
{
    writeln!(out, "{number} use {name} {}..{}", range.start, range.end)
}
