ghost use Rattle.std.specs.Prelude.{◌≡◌, IfOk};
ghost use Rattle.ra_cfg.specs.Reading.{reads_under};
ghost use Rattle.cfg_dnf.specs.Hints.{reason};
ghost use Rattle.cfg_dnf.specs.Numbered.{hint_from};
ghost use Rattle.cfg_query.specs.Query.{HasOptions, HasNoOptions, Asks, IsRefused, IfRefused};

use crate::predicate::read_predicate;
use crate::query_error::QueryError;
use cfg_dnf::{DnfExpr, InactiveReason, NumberedHint};
use ra_cfg::{CfgExpr, CfgOptions};
use script::{MAX_SCRIPT_LEN, read_script};
use std::alloc::{AllocError, Global};

/// A predicate under options.
///
/// ```
/// let query = CfgQuery::read(alloc, b"opt unix", b"all(unix, std)")?;
/// assert_eq!(query.check(), Some(false));
/// assert_eq!(format!("{}", query.reason(alloc)?), "std is disabled");
/// let found = query.hint_from(alloc, 0)?;
/// assert_eq!((found.number, format!("{}", found.hint)), (0, "enable std"));
/// assert!(query.hint_from(alloc, found.number + 1)?.is_none());
/// ```
#[derive(Debug, Drop)]
pub struct CfgQuery {
    /// The options that are set, and the answers for versions.
    pub options: CfgOptions,
    /// The predicate.
    pub expr: CfgExpr,
}

// The options of a script.
fn read_options(alloc: Global, bytes: &[u8]) -> Result<CfgOptions, QueryError>
    ensures said { IfOk result (λ options. HasOptions bytes.now options) }
    ensures refused { IfRefused result (λ error. HasNoOptions bytes.now error) }
{
    if bytes.len() > MAX_SCRIPT_LEN {
        return Err(QueryError::TooLong);
    }
    let script = read_script(alloc, bytes)?;
    Ok(script.options)
}

impl CfgQuery {
    /// Reads the options that a script sets, and a predicate. What else the script says is not looked at.
    ///
    /// # Errors
    ///
    /// [`QueryError::Options`] where the options are no script, [`QueryError::Predicate`] where the predicate is none,
    /// [`QueryError::TooLong`] where one of them has more than 16,777,216 bytes, and [`QueryError::Memory`] where no memory
    /// is left.
    pub fn read(alloc: Global, options: &[u8], predicate: &[u8]) -> Result<CfgQuery, QueryError>
        ensures asks { IfOk result (λ query. Asks options.now predicate.now query.options query.expr) }
        ensures refused { IfRefused result (λ error. IsRefused options.now predicate.now error) }
    {
        let options = read_options(alloc, options)?;
        let expr = read_predicate(alloc, predicate)?;
        Ok(CfgQuery { options, expr })
    }

    /// What the predicate reads under the options.
    pub fn check(&self) -> Option<bool>
        ensures { result ≡ reads_under self.now.options self.now.expr }
    {
        self.options.check(&self.expr)
    }

    /// Why the predicate is off, as [`DnfExpr::why_inactive`] says.
    ///
    /// # Errors
    ///
    /// Returns an error if there is no memory.
    pub fn reason(&self, alloc: Global) -> Result<Option<InactiveReason>, AllocError>
        ensures { IfOk result (λ found. found ≡ reason self.now.options self.now.expr) }
    {
        DnfExpr::new(alloc, &self.expr)?.why_inactive(alloc, &self.options)
    }

    /// The first hint among the conjunctions of this number and of larger ones, as [`DnfExpr::hint_from`] says.
    ///
    /// # Errors
    ///
    /// Returns an error if there is no memory.
    pub fn hint_from(&self, alloc: Global, number: u64) -> Result<Option<NumberedHint>, AllocError>
        ensures { IfOk result (λ found. found ≡ hint_from self.now.options self.now.expr number) }
    {
        DnfExpr::new(alloc, &self.expr)?.hint_from(alloc, &self.options, number)
    }
}
