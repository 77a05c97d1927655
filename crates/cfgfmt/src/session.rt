ghost use Rattle.std.specs.Prelude.{◌≡◌, ◌≤◌, IfOk};
ghost use Rattle.hir_store.specs.Store.{IsEmptyStore};
ghost use Rattle.cfgfmt.specs.Session.{script_file};
ghost use Rattle.script_grammar.specs.Limits.{max_limit};

use hir_expander::MacroTable;
use hir_lower::{ExprCollector, Outcome};
use hir_store::LangItems;
use ra_cfg::CfgOptions;
use script::USUAL_LIMIT;
use std::alloc::{AllocError, Global};
use sym_core::FileId;

/// What a run leaves: the options of the script, the store with the code of its calls, and what became of each call.
///
/// A run that refuses leaves the session as it was, so that it may be used for another one.
#[derive(Drop)]
pub struct Session {
    /// The collector that lowered the calls, with its store.
    pub collector: ExprCollector,
    /// The options under which the calls were lowered.
    pub options: CfgOptions,
    /// What became of the calls, in order.
    pub outcomes: Vec<Outcome>,
}

impl Session {
    ghost use Rattle.cfgfmt.specs.Session.{IsNew};

    /// A new session: an empty store, the flag `true` alone, and no outcome.
    ///
    /// # Errors
    ///
    /// No memory is left.
    pub fn new(alloc: Global) -> Result<Session, AllocError>
        ensures { IfOk result IsNew }
    {
        let items = LangItems {
            format_arguments: true,
            format_argument: true,
        };
        Ok(Session {
            collector: script_collector(alloc, &MacroTable::new(alloc), USUAL_LIMIT, items),
            options: CfgOptions::new(alloc)?,
            outcomes: Vec::new(alloc),
        })
    }
}

// A collector for the calls of a script with this recursion limit and these language items: they stand in one file.
pub(crate) fn script_collector(
    alloc: Global,
    macros: &MacroTable,
    limit: u32,
    items: LangItems,
) -> ExprCollector
    requires { limit ≤ max_limit }
    ensures empty { IsEmptyStore result.store }
    ensures fresh { result.fresh ≡ 0 }
    ensures file { result.file ≡ script_file }
    ensures limit { result.limit ≡ limit }
    ensures items { result.items ≡ items }
{
    ExprCollector::new(alloc, macros, FileId { raw: 0 }, limit, items)
}
