ghost use Rattle.std.specs.Prelude.{◌≡◌, IfOk};
ghost use Rattle.cfg_dnf.specs.Hints.{in_order};
ghost use Rattle.cfg_dnf.specs.ReasonText.{IsReason, IsReasonOf};

use crate::reason_text::write_reason;
use ra_cfg::CfgAtom;
use sqlite_items::Boxed;
use std::alloc::{AllocError, Global};
use std::fmt;
use std::marker::Model;
use std::mem::size_of;

/// Why a predicate is off: atoms that are enabled and would have to be off, and atoms that are disabled and would have to be
/// on. It may be enough to change some of them.
///
/// ```
/// let dnf = DnfExpr::new(alloc, &expr)?;                      // of `all(a, not(b))`
/// let reason = dnf.why_inactive(alloc, &options)?;            // with `b` on and `a` off
/// assert_eq!(format!("{reason}"), "b is enabled and a is disabled");
/// ```
#[derive(Debug, Drop)]
pub struct InactiveReason {
    atoms: Boxed<ReasonAtoms>,
}

const _: () = prove!(size_of::<InactiveReason>() == 8);

// What a reason holds, behind one pointer, so that an outcome is small.
#[derive(Debug, Drop)]
struct ReasonAtoms {
    enabled: Vec<CfgAtom>,
    disabled: Vec<CfgAtom>,
}

impl Model for InactiveReason {
    ghost use Rattle.cfg_dnf.specs.Hints.{Reason};
    ghost use Rattle.cfg_dnf.specs.ReasonText.{IsReason, reason_code};

    ghost Value = { Reason };

    ghost coded = { reason_code };

    ghost view = { λ r. record { enabled = r.atoms.enabled.items; disabled = r.atoms.disabled.items } };

    ghost invariant = { λ r. IsReason (record { enabled = r.atoms.enabled.items; disabled = r.atoms.disabled.items }) };
}

impl fmt::Display for InactiveReason {
    ghost use Rattle.std.specs.Prelude.{Some};
    ghost use Rattle.cfg_dnf.specs.ReasonText.{reason_text};

    ghost output = { λ reason. Some (reason_text reason.enabled reason.disabled) };

    fn fmt<W: fmt::Write>(&self, f: &mut fmt::Formatter<W>) -> fmt::Result {
        let atoms = self.atoms.get();
        write_reason(&atoms.enabled, &atoms.disabled, f)
    }
}

impl InactiveReason {
    /// Makes a reason of these atoms, in order and each once.
    pub(crate) fn new(
        alloc: Global,
        enabled: Vec<CfgAtom>,
        disabled: Vec<CfgAtom>,
    ) -> Result<InactiveReason, AllocError>
        ensures { IfOk result (λ reason. IsReasonOf enabled.items disabled.items reason) }
    {
        let enabled = sorted(enabled);
        let disabled = sorted(disabled);
        let atoms = Boxed::new(alloc, ReasonAtoms { enabled, disabled })?;
        Ok(InactiveReason { atoms })
    }

    /// Returns the atoms that are enabled, in order. The type has an example.
    pub fn enabled(&self) -> &[CfgAtom]
        ensures value { result.now ≡ self.now.enabled }
        ensures is_reason { IsReason self.now }
    {
        self.atoms.get().enabled.as_slice()
    }

    /// Returns the atoms that are disabled, in order. The type has an example.
    pub fn disabled(&self) -> &[CfgAtom]
        ensures value { result.now ≡ self.now.disabled }
        ensures is_reason { IsReason self.now }
    {
        self.atoms.get().disabled.as_slice()
    }
}

// The same atoms, in order and each once.
fn sorted(atoms: Vec<CfgAtom>) -> Vec<CfgAtom>
    ensures { result.items ≡ in_order atoms.items }
{
    let mut sorted = atoms;
    sorted.sort_unstable();
    sorted.dedup();
    sorted
}
