ghost use Rattle.std.specs.Prelude.{◌≡◌, [], ◌∷◌, ◌++◌, map, IfOk, OnOk, OnErr};
ghost use Rattle.hir_store.specs.Unfolding.{place_of};
ghost use Rattle.hir_fmt.specs.Log.{Usage, Made};
ghost use Rattle.hir_lower.specs.Captures.{behind};
ghost use Rattle.hir_lower.specs.NameLog.{entry_of, entries_of};

use hir_fmt::Captures;
use hir_store::ExprId;
use la_arena::RawIdx;
use std::alloc::{AllocError, Global};
use sym_core::{Name, TextRange};

/// What the text of a format call tells of a name.
#[derive(Drop)]
pub(crate) enum LogEntry {
    /// That it is used.
    Usage {
        name: Name,
        span: Option<TextRange>,
    },
    /// That it is captured, and the index at which its expression is to be placed.
    Made {
        name: Name,
        span: Option<TextRange>,
        expr: ExprId,
    },
}

/// The log of what the text of a format call tells of names. Those that it captures get indexes one behind the other, at which
/// their expressions are to be placed once the text is parsed.
#[derive(Drop)]
pub(crate) struct NameLog {
    entries: Vec<LogEntry>,
    next: u32,
    refusals: u64,
}

impl NameLog {
    /// An empty log, which takes no memory; the first name that is captured gets this index.
    pub(crate) fn new(alloc: Global, first: u32) -> NameLog
        ensures empty { entries_of result ≡ [] }
        ensures next { result.next ≡ first }
    {
        NameLog {
            entries: Vec::new(alloc),
            next: first,
            refusals: 0,
        }
    }

    /// What was told, in order.
    pub(crate) fn entries(&self) -> &[LogEntry]
        ensures { map entry_of result.now ≡ entries_of self.now }
    {
        self.entries.as_slice()
    }

    // Logs a name that is used.
    fn log_usage(&mut self, name: &Name, span: Option<TextRange>) -> Result<(), AllocError>
        ensures logged { OnOk result (entries_of self.new ≡ entries_of self.old ++ Usage name.now span ∷ []) }
        ensures err { OnErr result (entries_of self.new ≡ entries_of self.old) }
        ensures next { self.new.next ≡ self.old.next }
        ensures refusals { self.new.refusals ≡ self.old.refusals }
    {
        let name = name.clone()?;
        self.entries.push(LogEntry::Usage { name, span })?;
        Ok(())
    }

    // Logs a name that is captured, and gives it the next index.
    fn log_made(&mut self, name: &Name, span: Option<TextRange>) -> Result<ExprId, AllocError>
        ensures logged { IfOk result (λ expr. entries_of self.new ≡ entries_of self.old ++ Made name.now span expr ∷ []) }
        ensures place { IfOk result (λ expr. place_of expr ≡ self.old.next) }
        ensures next { OnOk result (self.new.next ≡ behind self.old.next) }
        ensures err { OnErr result (entries_of self.new ≡ entries_of self.old) }
        ensures kept { OnErr result (self.new.next ≡ self.old.next) }
        ensures refusals { self.new.refusals ≡ self.old.refusals }
    {
        let expr = ExprId {
            raw: RawIdx::from_u32(self.next),
        };
        let name = name.clone()?;
        self.entries.push(LogEntry::Made { name, span, expr })?;
        self.next = self.next.saturating_add(1);
        Ok(expr)
    }
}

impl Captures for NameLog {
    type Refused = AllocError;

    ghost use Rattle.std.specs.Prelude.{Some, ⊤};
    ghost use Rattle.hir_lower.specs.NameLog.{entries_of, GrowsLog};
    ghost use Rattle.hir_lower.specs.Growth.{grows_self, grows_on};

    ghost log = { λ log. Some (entries_of log) };

    ghost refusals = { λ log. log.refusals };

    ghost allows = { λ log error. ⊤ };

    ghost grows = { GrowsLog };

    fn synth(&mut self, name: &Name, span: Option<TextRange>) -> Result<ExprId, AllocError> {
        match self.log_made(name, span) {
            Ok(expr) => Ok(expr),
            Err(error) => {
                self.refusals = self.refusals.saturating_add(1);
                Err(error)
            }
        }
    }

    fn record_usage(&mut self, name: &Name, span: Option<TextRange>) -> Result<(), AllocError> {
        match self.log_usage(name, span) {
            Ok(()) => Ok(()),
            Err(error) => {
                self.refusals = self.refusals.saturating_add(1);
                Err(error)
            }
        }
    }

    ghost grows_self = { grows_self };

    ghost grows_on = { grows_on };
}
