//! The code of one format call.

ghost use Rattle.std.specs.Prelude.{◌≡◌, ◌+◌, ◌*◌, ◌<◌, ◌≤◌, ℕ, false, Some, IfOk, length};
ghost use Rattle.hir_store.specs.Unfolding.{place_of};
ghost use Rattle.hir_store.specs.PartsBelow.{AllBelow};
ghost use Rattle.hir_store.specs.Entries.{entry_at};
ghost use Rattle.hir_build.specs.Building.{Builds, Outgrows};
ghost use Rattle.template_bytes.specs.Canonical.{canonical_pieces};
ghost use Rattle.template_bytes.specs.Pairs.{pairs_of};
ghost use Rattle.hir_expander.specs.Machine.{is_macro};
ghost use Rattle.format_code.specs.FormatCall.{Surroundings};
ghost use Rattle.hir_lower.specs.FormatArgs.{exprs_of, IsCodeOf};
ghost use Rattle.hir_lower.specs.Written.{AreWritten};
ghost use Rattle.hir_lower.specs.CallCode.{IsCallCode};
ghost use Rattle.hir_lower.specs.CallParsed.{IsReached, Parses, PlacesArguments, GrowsWithin, OutgrowsWithin, GrowsSome};
ghost use Rattle.hir_lower.specs.Collector.{IsAt, IsAtRest, around, collector_of};
ghost use Rattle.hir_lower.specs.Lowered.{IsMost};

use crate::captures::{Parsed, Template, parse_captured};
use crate::format_args::build_format_args;
use crate::written::place_arguments;
use hir_build::{Builder, LowerError};
use hir_expander::{Expander, Macros};
use hir_fmt::{FormatArgs, FormatArgumentsCollector};
use hir_store::ExprId;
use sqlite_items::Items;
use std::alloc::Global;
use sym_core::AstPtr;
use syn_trees::{FormatCall, StringLit};

// The literal that the template of a call reaches, and whether the template is that literal itself.
fn reach<'t, M: Macros>(
    expander: &mut Expander,
    macros: &'t M,
    call: &'t FormatCall,
) -> Option<(&'t StringLit, bool)>
    requires outside { is_macro expander.old.current.file_id ≡ false }
    requires depth { expander.old.depth ≡ 0 }
    ensures reached { (a : Surroundings) → IsAt (M.resolved macros.now) (M.expanded macros.now) expander.old a → IsReached a call.now result }
    ensures unchanged { expander.new ≡ expander.old }
{
    match &call.template {
        Some(template) => expander.expand_macros_to_string(macros, template),
        None => None,
    }
}

// What is made of the text of a call. Where its template reaches no literal, there is none.
fn parse_call(
    builder: &mut Builder,
    alloc: Global,
    call: &FormatCall,
    reached: Option<(&StringLit, bool)>,
    args: FormatArgumentsCollector,
) -> Result<Parsed, LowerError>
    requires written { AreWritten builder.old.store builder.old.file call.now.args args }
    ensures parsed { (a : Surroundings) → IsReached a call.now reached.entry → IfOk result (Parses a call.now args builder.new) }
    ensures places { IfOk result (PlacesArguments builder.old builder.new args) }
    ensures within { (a : Surroundings) → IsReached a call.now reached.entry → (most : ℕ) → IsMost a call.now most → GrowsWithin builder.old builder.new (length call.now.args) most }
    ensures full { result ≡ Err LowerError.ArenaFull → (a : Surroundings) → IsReached a call.now reached.entry → (most : ℕ) → IsMost a call.now most → OutgrowsWithin builder.old.store (length call.now.args) most }
    ensures builds { GrowsSome builder.old builder.new 0 }
{
    let Some((literal, is_direct)) = reached else {
        return Ok(Parsed {
            fmt: FormatArgs {
                template: Items::new(alloc),
                arguments: args.finish(),
                orphans: Items::new(alloc),
            },
            usages: Items::new(alloc),
        });
    };
    let template = Template {
        literal,
        ptr: call.template_ptr,
        is_direct,
    };
    parse_captured(builder, alloc, template, args)
}

// Builds the code of a parsed call, and notes what it captures.
fn finish_call(
    builder: &mut Builder,
    alloc: Global,
    ptr: AstPtr,
    parsed: Parsed,
) -> Result<ExprId, LowerError>
    requires arguments { AllBelow (length builder.old.store.exprs) (exprs_of parsed.fmt.arguments.arguments) }
    requires orphans { AllBelow (length builder.old.store.exprs) parsed.fmt.orphans }
    ensures code { IfOk result (λ made. IsCodeOf builder.old builder.new.store ptr parsed.fmt made) }
    ensures captures { IfOk result (λ made. entry_at builder.new.store.format_args_to_captures (place_of made) ≡ Some parsed.usages) }
    ensures later { IfOk result (λ made. length builder.old.store.exprs ≤ place_of made) }
    ensures builds { Builds builder.old builder.new (length parsed.fmt.arguments.arguments + 4 * length (pairs_of (canonical_pieces parsed.fmt.template)) + 9) 2 }
    ensures full { result ≡ Err LowerError.ArenaFull → Outgrows builder.old.store (length parsed.fmt.arguments.arguments + 4 * length (pairs_of (canonical_pieces parsed.fmt.template)) + 9) 2 }
{
    let code = build_format_args(builder, alloc, ptr, &parsed.fmt)?;
    builder.note_captures(code, parsed.usages)?;
    Ok(code)
}

/// Lowers a format call.
pub(crate) fn lower_format_call<M: Macros>(
    builder: &mut Builder,
    expander: &mut Expander,
    alloc: Global,
    call: &FormatCall,
    macros: &M,
) -> Result<ExprId, LowerError>
    requires rest { IsAtRest builder.old expander.old }
    ensures code { IfOk result (λ made. IsCallCode (around (M.resolved macros.now) (M.expanded macros.now) (collector_of builder.old expander.old)) call.now builder.old.fresh builder.new.store made) }
    ensures later { IfOk result (λ made. length builder.old.store.exprs ≤ place_of made) }
    ensures within { (most : ℕ) → IsMost (around (M.resolved macros.now) (M.expanded macros.now) (collector_of builder.old expander.old)) call.now most → Builds builder.old builder.new most 2 }
    ensures full { result ≡ Err LowerError.ArenaFull → (most : ℕ) → IsMost (around (M.resolved macros.now) (M.expanded macros.now) (collector_of builder.old expander.old)) call.now most → Outgrows builder.old.store most 2 }
    ensures builds { GrowsSome builder.old builder.new 2 }
    ensures unchanged { expander.new ≡ expander.old }
{
    let args = place_arguments(builder, alloc, call.args.as_slice())?;
    let reached = reach(expander, macros, call);
    let parsed = parse_call(builder, alloc, call, reached, args)?;
    let code = finish_call(builder, alloc, call.ptr, parsed)?;
    Ok(code)
}
