ghost use Rattle.std.specs.Prelude.{◌≡◌, ◌∷◌, ◌++◌, false, codes, IfOk, string_bytes};
ghost use Rattle.ra_cfg.specs.Text.{call_text};
ghost use Rattle.cfg_dnf.specs.DnfText.{dnf_text, texts_ahead};
ghost use Rattle.cfg_dnf.specs.Form.{form, paths, behind};
ghost use Rattle.cfg_dnf.specs.Hints.{hints, reason};
ghost use Rattle.cfg_dnf.specs.ReasonText.{IsReasonOf};
ghost use Rattle.cfg_dnf.specs.Walking.{IsStanding, StandsAt, left_of};
ghost use Rattle.cfg_dnf.specs.Joined.{joined};
ghost use Rattle.cfg_dnf.specs.Numbered.{hint_from};

use crate::choices::{first_choices, next_choices};
use crate::conjunction_text::chosen_text;
use crate::counted::{FalseAtoms, gather, is_true};
use crate::enable_hints::EnableHints;
use crate::inactive_reason::InactiveReason;
use crate::numbered::first_from;
use crate::numbered_hint::NumberedHint;
use ra_cfg::{CfgExpr, CfgOptions};
use sqlite_items::{Boxed, Items};
use std::alloc::{AllocError, Global};
use std::marker::Model;
use std::mem::size_of;
use sym_core::Symbol;

/// A predicate as a list of conjunctions, each a list of literals. The list is not stored: a walk over the predicate goes
/// from one conjunction to the next.
///
/// ```
/// let dnf = DnfExpr::new(alloc, &expr)?;                             // of `all(any(a, b), c)`
/// let mut hints = dnf.compute_enable_hints(alloc, &options);         // where none of the three is on
/// assert_eq!(format!("{}", hints.next()?), "enable a and c");
/// assert_eq!(format!("{}", hints.next()?), "enable b and c");
/// assert!(hints.next().is_none());
/// ```
#[derive(Debug, Drop)]
pub struct DnfExpr {
    expr: Boxed<CfgExpr>,
}

const _: () = prove!(size_of::<DnfExpr>() == 8);

impl Model for DnfExpr {
    ghost use Rattle.ra_cfg.specs.contracts.cfg_expr.CfgExpr.{the_row};
    ghost use Rattle.ra_cfg.specs.declared.cfg_expr.CfgExpr.{CfgExpr as Predicate};

    ghost Value = { Predicate };

    ghost coded = { the_row.coded };

    ghost view = { λ dnf. dnf.expr };
}

impl DnfExpr {
    /// Makes it of a copy of the predicate.
    ///
    /// # Errors
    ///
    /// Returns an error if there is no memory.
    pub fn new(alloc: Global, expr: &CfgExpr) -> Result<DnfExpr, AllocError>
        ensures { IfOk result (λ dnf. dnf ≡ expr.now) }
    {
        let expr = Boxed::new(alloc, expr.try_clone(alloc)?)?;
        Ok(DnfExpr { expr })
    }

    /// Makes it of the predicate that all of these are: of the only one itself, or of all of them in order.
    ///
    /// # Errors
    ///
    /// Returns an error if there is no memory.
    pub fn of_all(alloc: Global, cfgs: &[CfgExpr]) -> Result<DnfExpr, AllocError>
        ensures { IfOk result (λ dnf. dnf ≡ joined cfgs.now) }
    {
        match cfgs {
            [only] => DnfExpr::new(alloc, only),
            _ => {
                let all = CfgExpr::All(copies(alloc, cfgs)?);
                let expr = Boxed::new(alloc, all)?;
                Ok(DnfExpr { expr })
            }
        }
    }

    // The predicate itself.
    fn expr(&self) -> &CfgExpr
        ensures { result.now ≡ self.now }
    {
        self.expr.get()
    }

    /// Returns why the predicate is off: the atoms of all false literals of its conjunctions. There is no reason where the
    /// predicate is on, or where a literal is no predicate or a version without an answer.
    ///
    /// # Errors
    ///
    /// Returns an error if there is no memory.
    pub fn why_inactive(
        &self,
        alloc: Global,
        opts: &CfgOptions,
    ) -> Result<Option<InactiveReason>, AllocError>
        ensures { IfOk result (λ found. found ≡ reason opts.now self.now) }
    {
        let expr = self.expr();
        if is_true(expr, false, opts) {
            return Ok(None);
        }
        let mut found = FalseAtoms::new(alloc);
        if !gather(expr, false, opts, &mut found)? {
            return Ok(None);
        }
        let reason = reason_of(alloc, found)?;
        Ok(Some(reason))
    }

    /// Returns the hints that switch the predicate on, one for each conjunction that gives one: each, applied to the options,
    /// makes the predicate true. They are made one by one, and an error ends them.
    pub fn compute_enable_hints<'a>(
        &'a self,
        alloc: Global,
        opts: &'a CfgOptions,
    ) -> EnableHints<'a>
        ensures standing { IsStanding result }
        ensures left { left_of result ≡ hints opts.now self.now }
    {
        EnableHints::new(alloc, self.expr(), opts)
    }

    /// Returns the first hint among the conjunctions of this number and of larger ones, with the number of its conjunction.
    /// Numbers count from 0, in the order of the conjunctions, and are below `u64::MAX`: a conjunction behind those has none.
    /// So one more than the number of a hint is a number to go on from. The conjunction of the number is not walked to.
    ///
    /// ```
    /// let dnf = DnfExpr::new(alloc, &expr)?;                             // of `all(any(a, b), c)`
    /// let Some(first) = dnf.hint_from(alloc, &options, 0)? else { .. };         // where none of the three is on
    /// assert!(first.number == 0);                                        // and its hint is "enable a and c"
    /// let Some(second) = dnf.hint_from(alloc, &options, first.number + 1)? else { .. };
    /// assert!(second.number == 1);                                       // and its hint is "enable b and c"
    /// assert!(dnf.hint_from(alloc, &options, second.number + 1)?.is_none());
    /// ```
    ///
    /// # Errors
    ///
    /// Returns an error if there is no memory.
    pub fn hint_from(
        &self,
        alloc: Global,
        opts: &CfgOptions,
        number: u64,
    ) -> Result<Option<NumberedHint>, AllocError>
        ensures { IfOk result (λ found. found ≡ hint_from opts.now self.now number) }
    {
        first_from(alloc, self.expr(), opts, number)
    }

    /// Returns the predicate as its conjunctions: a single one alone, and none or several in `any(..)`; in a conjunction a
    /// single literal alone, and none or several in `all(..)`.
    ///
    /// ```
    /// let dnf = DnfExpr::new(alloc, &expr)?;                      // of `all(any(a, b), c)`
    /// assert!(dnf.text(alloc)?.as_str() == "any(all(a, c), all(b, c))");
    /// ```
    ///
    /// # Errors
    ///
    /// Returns an error if there is no memory.
    pub fn text(&self, alloc: Global) -> Result<Symbol, AllocError>
        ensures { IfOk result (λ text. text ≡ dnf_text self.now) }
    {
        let expr = self.expr();
        let mut choices = Vec::new(alloc);
        if !first_choices(expr, false, &mut choices)? {
            return Symbol::new(alloc, "any()");
        }
        let first = chosen_text(alloc, expr, choices.as_slice())?;
        if !next_choices(expr, false, &mut choices, 0)? {
            return Symbol::new(alloc, first.as_str());
        }
        let texts = more_text(alloc, expr, first, choices)?;
        let whole = any_text(alloc, texts.as_str())?;
        Symbol::new(alloc, whole.as_str())
    }
}

// A copy of each.
fn copies(alloc: Global, cfgs: &[CfgExpr]) -> Result<Items<CfgExpr>, AllocError>
    ensures { IfOk result (λ copies. copies ≡ cfgs.now) }
{
    let mut copies = Items::new(alloc);
    for cfg in cfgs {
        copies.push(cfg.try_clone(alloc)?)?;
    }
    Ok(copies)
}

// The reason of the atoms of false literals.
fn reason_of(alloc: Global, found: FalseAtoms) -> Result<InactiveReason, AllocError>
    ensures { IfOk result (λ reason. IsReasonOf found.enabled.items found.disabled.items reason) }
{
    let FalseAtoms { enabled, disabled } = found;
    InactiveReason::new(alloc, enabled, disabled)
}

// The texts of the conjunctions from these choices on, behind a first text, each behind `, `.
fn more_text(
    alloc: Global,
    expr: &CfgExpr,
    first: String,
    choices: Vec<usize>,
) -> Result<String, AllocError>
    requires { StandsAt (form expr.now false) choices.items }
    ensures { IfOk result (λ text. string_bytes text ≡ string_bytes first ++ texts_ahead (form expr.now false) (choices.items ∷ behind choices.items (paths (form expr.now false)))) }
{
    let mut text = first;
    let mut choices = choices;
    loop {
        let more = chosen_text(alloc, expr, choices.as_slice())?;
        text.push_str(", ")?;
        text.push_str(more.as_str())?;
        if !next_choices(expr, false, &mut choices, 0)? {
            return Ok(text);
        }
    }
}

// Texts in `any(..)`.
fn any_text(alloc: Global, texts: &str) -> Result<String, AllocError>
    ensures { IfOk result (λ text. string_bytes text ≡ call_text (codes "any(") texts.now) }
{
    format!(in alloc; "any({texts})")
}
