ghost use Rattle.std.specs.Prelude.{◌≡◌, IfOk};
ghost use Rattle.cfg_dnf.specs.Hints.{reason};
ghost use Rattle.cfg_dnf.specs.Joined.{joined};
ghost use Rattle.hir_lower.specs.declared.outcome.Outcome.TheVariants.{Off};

use cfg_dnf::{DnfExpr, InactiveReason};
use hir_store::ExprId;
use ra_cfg::{CfgExpr, CfgOptions};
use std::alloc::{AllocError, Global};

/// What becomes of a call.
#[derive(Debug, Drop)]
pub enum Outcome {
    /// The call is off: one of its predicates evaluates to `Some(false)`.
    Off {
        /// Why it is off; `None` where that cannot be told, since a part of a predicate is none, or a version has no answer.
        reason: Option<InactiveReason>,
        /// The predicates of the call taken together, which tell what switches it on.
        dnf: DnfExpr,
    },
    /// The call is lowered to the expression at this place.
    Code(ExprId),
}

impl Outcome {
    /// What becomes of a call that these predicates switch off.
    pub(crate) fn off(
        alloc: Global,
        cfgs: &[CfgExpr],
        opts: &CfgOptions,
    ) -> Result<Outcome, AllocError>
        ensures { IfOk result (λ outcome. outcome ≡ Off (reason opts.now (joined cfgs.now)) (joined cfgs.now)) }
    {
        let dnf = DnfExpr::of_all(alloc, cfgs)?;
        let reason = dnf.why_inactive(alloc, opts)?;
        Ok(Outcome::Off { reason, dnf })
    }
}
