ghost use Rattle.std.specs.Prelude.{◌≡◌, ◌≢◌, ◌≤◌, [], ◌∷◌, ◌++◌, length, map, Some, Err, IfOk, OnOk, alloc_error};
ghost use Rattle.hir_fmt.specs.Parsed.{Makes};
ghost use Rattle.hir_build.specs.Building.{Builds, Outgrows};
ghost use Rattle.hir_lower.specs.Captures.{usages_of, made_count, source_in, AreNumbered, next_index, Places};
ghost use Rattle.hir_lower.specs.NameLog.{entry_of, entries_of};
ghost use Rattle.hir_lower.specs.Parsing.{IsParsed, BuildsCaptures, OutgrowsCaptures};

use crate::name_log::{LogEntry, NameLog};
use hir_build::{Builder, LowerError};
use hir_fmt::{Captures, FormatArgs, FormatArgumentsCollector, ParseError, parse};
use hir_store::CaptureSource;
use sqlite_items::Items;
use std::alloc::{AllocError, Global};
use sym_core::{AstPtr, Name, TextRange};
use syn_trees::StringLit;

/// The text of a format call.
#[derive(Clone, Copy)]
pub(crate) struct Template<'a> {
    /// The literal.
    pub(crate) literal: &'a StringLit,
    /// The literal's node.
    pub(crate) ptr: AstPtr,
    /// Whether the literal stands in the call itself.
    pub(crate) is_direct: bool,
}

/// What is made of the text of a format call.
#[derive(Drop)]
pub(crate) struct Parsed {
    /// The template, the arguments and the orphans.
    pub(crate) fmt: FormatArgs,
    /// Where the text uses names, and which: those of its uses that have a span.
    pub(crate) usages: Items<(TextRange, Name)>,
}

// A span of a template as a place where it captures a name.
fn source_in(template: AstPtr, span: Option<TextRange>) -> Option<CaptureSource>
    ensures { result ≡ source_in template span }
{
    let range = span?;
    Some(CaptureSource { template, range })
}

// Places the expression of a name that is captured. None is placed for one that is used.
fn place_captured(
    builder: &mut Builder,
    template: AstPtr,
    logged: &LogEntry,
) -> Result<(), LowerError>
    requires numbered { AreNumbered (next_index builder.old) (entry_of logged.now ∷ []) }
    ensures placed { OnOk result (Places template builder.old (entry_of logged.now ∷ []) builder.new) }
    ensures builds { Builds builder.old builder.new (made_count (entry_of logged.now ∷ [])) 0 }
    ensures full { result ≡ Err LowerError.ArenaFull → Outgrows builder.old.store (made_count (entry_of logged.now ∷ [])) 0 }
{
    match logged {
        LogEntry::Usage { .. } => Ok(()),
        LogEntry::Made { name, span, .. } => {
            let name = name.clone()?;
            let source = source_in(template, *span);
            builder.capture(name, None, source)?;
            Ok(())
        }
    }
}

// Places the expressions of all names that are captured.
fn place_all(
    builder: &mut Builder,
    template: AstPtr,
    entries: &[LogEntry],
) -> Result<(), LowerError>
    requires numbered { AreNumbered (next_index builder.old) (map entry_of entries.now) }
    ensures placed { OnOk result (Places template builder.old (map entry_of entries.now) builder.new) }
    ensures builds { Builds builder.old builder.new (made_count (map entry_of entries.now)) 0 }
    ensures full { result ≡ Err LowerError.ArenaFull → Outgrows builder.old.store (made_count (map entry_of entries.now)) 0 }
{
    for logged in entries {
        place_captured(builder, template, logged)?;
    }
    Ok(())
}

// Keeps a use that has a span.
fn keep_usage(usages: &mut Vec<(TextRange, Name)>, logged: &LogEntry) -> Result<(), AllocError>
    ensures { OnOk result (usages.new.items ≡ usages.old.items ++ usages_of (entry_of logged.now ∷ [])) }
{
    match logged {
        LogEntry::Usage { name, span } => {
            let Some(range) = *span else {
                return Ok(());
            };
            usages.push((range, name.clone()?))?;
            Ok(())
        }
        LogEntry::Made { .. } => Ok(()),
    }
}

// The uses that have a span.
fn usages(alloc: Global, entries: &[LogEntry]) -> Result<Items<(TextRange, Name)>, AllocError>
    ensures { IfOk result (λ usages. usages ≡ usages_of (map entry_of entries.now)) }
{
    let mut usages = Vec::new(alloc);
    for logged in entries {
        keep_usage(&mut usages, logged)?;
    }
    Ok(Items::from_vec(usages))
}

// A text whose names are only logged is refused for want of memory alone.
fn refusal_of(error: ParseError<AllocError>) -> LowerError
    ensures { result ≡ LowerError.Memory alloc_error }
{
    match error {
        ParseError::Memory(error) => LowerError::Memory(error),
        ParseError::Captures(error) => LowerError::Memory(error),
    }
}

// Parses the text of a call, and logs what it tells of names.
fn parse_text(
    alloc: Global,
    first: u32,
    template: Template<'_>,
    args: FormatArgumentsCollector,
) -> Result<(FormatArgs, NameLog), LowerError>
    ensures makes { IfOk result (λ made. Makes template.entry.literal.now template.entry.is_direct template.entry.ptr args (Some []) (Some (entries_of made.1)) made.0) }
    ensures numbered { IfOk result (λ made. AreNumbered first (entries_of made.1)) }
    ensures memory { result ≢ Err LowerError.ArenaFull }
{
    let mut log = NameLog::new(alloc, first);
    match parse(
        alloc,
        template.literal,
        template.ptr,
        args,
        template.is_direct,
        &mut log,
    ) {
        Ok(fmt) => Ok((fmt, log)),
        Err(error) => Err(refusal_of(error)),
    }
}

/// Parses the text of a call, and places the expressions of the names that it captures.
///
/// # Errors
///
/// Returns an error where no memory is left, or where an expression of a captured name does not fit into the store.
pub(crate) fn parse_captured(
    builder: &mut Builder,
    alloc: Global,
    template: Template<'_>,
    args: FormatArgumentsCollector,
) -> Result<Parsed, LowerError>
    ensures parsed { IfOk result (λ parsed. IsParsed template.entry args builder.old parsed builder.new) }
    ensures builds { BuildsCaptures template.entry args builder.old builder.new }
    ensures longer { length builder.old.store.exprs ≤ length builder.new.store.exprs }
    ensures full { result ≡ Err LowerError.ArenaFull → OutgrowsCaptures template.entry args builder.old.store }
{
    let first = builder.store().exprs.len() as u32;
    let (fmt, log) = parse_text(alloc, first, template, args)?;
    let usages = usages(alloc, log.entries())?;
    place_all(builder, template.ptr, log.entries())?;
    Ok(Parsed { fmt, usages })
}
