ghost use Rattle.std.specs.Prelude.{◌≡◌, IfOk};
ghost use Rattle.hir_store.specs.Store.{NoDanglingIds};
ghost use Rattle.hir_lower.specs.Lowered.{AreInStore};
ghost use Rattle.printer.specs.Printed.{printed};
ghost use Rattle.printer.specs.Summary.{summary};

use crate::session::Session;
use std::alloc::{AllocError, Global};

/// Prints what became of the calls of a session, a line for each and lines behind it, as `printer::print_outcomes` does.
/// Whatever the store of a session names is in it.
///
/// # Errors
///
/// No memory is left.
pub fn print_outcomes(alloc: Global, session: &Session) -> Result<Vec<u8>, AllocError>
    requires codes { AreInStore session.now.collector.store session.now.outcomes.items }
    ensures printed { IfOk result (λ bytes. bytes.items ≡ printed session.now.collector.store session.now.options session.now.outcomes.items) }
    ensures no_dangling { NoDanglingIds session.now.collector.store }
{
    let store = session.collector.store();
    printer::print_outcomes(alloc, store, &session.options, &session.outcomes)
}

/// Prints how many calls a session has, how many of them are off and how many are code, how many hints those that are off
/// have, and how many expressions the store holds, a line for each count, as `printer::print_summary` does.
/// Whatever the store of a session names is in it.
///
/// # Errors
///
/// No memory is left.
pub fn print_summary(alloc: Global, session: &Session) -> Result<Vec<u8>, AllocError>
    ensures printed { IfOk result (λ bytes. bytes.items ≡ summary session.now.collector.store session.now.options session.now.outcomes.items) }
    ensures no_dangling { NoDanglingIds session.now.collector.store }
{
    let store = session.collector.store();
    printer::print_summary(alloc, store, &session.options, &session.outcomes)
}
