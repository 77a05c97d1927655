//! Calls of every kind, and the predicates that gate them.

ghost use Rattle.std.specs.Prelude.{◌≡◌, ◌<◌, ◌≤◌, ℕ, length, IfOk};
ghost use Rattle.hir_store.specs.Unfolding.{place_of};
ghost use Rattle.hir_build.specs.Building.{Builds, Outgrows};
ghost use Rattle.hir_lower.specs.Collector.{IsAtRest, around, collector_of};
ghost use Rattle.hir_lower.specs.CallParsed.{GrowsSome};
ghost use Rattle.hir_lower.specs.Lowered.{IsMostOf, PlacesCall, LowersCall, Lowers, IsMostGated, AreMost, lets_in, lets_of, most_lets};

use crate::asm::lower_asm_call;
use crate::call::lower_format_call;
use crate::{Call, GatedCall, LowerError, Outcome};
use hir_build::Builder;
use hir_expander::{Expander, Macros};
use hir_store::ExprId;
use ra_cfg::CfgOptions;
use std::alloc::Global;

/// What lowers calls: the builder of their code, and where the expansion of their macros stands.
#[derive(Drop)]
pub(crate) struct Lowering {
    pub(crate) builder: Builder,
    pub(crate) expander: Expander,
}

impl Lowering {
    // Lowers a call that is not off.
    fn lower_call<M: Macros>(
        &mut self,
        alloc: Global,
        call: &Call,
        opts: &CfgOptions,
        macros: &M,
    ) -> Result<ExprId, LowerError>
        requires rest { IsAtRest self.old.builder self.old.expander }
        ensures placed { IfOk result (λ made. PlacesCall opts.now (around (M.resolved macros.now) (M.expanded macros.now) (collector_of self.old.builder self.old.expander)) self.old.builder call.now made self.new.builder) }
        ensures within { (most : ℕ) → IsMostOf (around (M.resolved macros.now) (M.expanded macros.now) (collector_of self.old.builder self.old.expander)) call.now most → Builds self.old.builder self.new.builder most (lets_in call.now) }
        ensures full { result ≡ Err LowerError.ArenaFull → (most : ℕ) → IsMostOf (around (M.resolved macros.now) (M.expanded macros.now) (collector_of self.old.builder self.old.expander)) call.now most → Outgrows self.old.builder.store most (lets_in call.now) }
        ensures builds { GrowsSome self.old.builder self.new.builder (lets_in call.now) }
        ensures unchanged { self.new.expander ≡ self.old.expander }
    {
        match call {
            Call::Format(format) => {
                lower_format_call(&mut self.builder, &mut self.expander, alloc, format, macros)
            }
            Call::Asm(asm) => {
                lower_asm_call(
                    &mut self.builder,
                    &mut self.expander,
                    alloc,
                    asm,
                    opts,
                    macros,
                )
            }
        }
    }

    // Lowers a call, if it is not off.
    fn lower_gated<M: Macros>(
        &mut self,
        alloc: Global,
        call: &GatedCall,
        opts: &CfgOptions,
        macros: &M,
    ) -> Result<Outcome, LowerError>
        requires rest { IsAtRest self.old.builder self.old.expander }
        ensures lowers { IfOk result (λ outcome. LowersCall opts.now (around (M.resolved macros.now) (M.expanded macros.now) (collector_of self.old.builder self.old.expander)) call.now outcome self.old.builder self.new.builder) }
        ensures within { (most : ℕ) → IsMostGated opts.now (around (M.resolved macros.now) (M.expanded macros.now) (collector_of self.old.builder self.old.expander)) call.now most → Builds self.old.builder self.new.builder most (lets_of opts.now call.now) }
        ensures full { result ≡ Err LowerError.ArenaFull → (most : ℕ) → IsMostGated opts.now (around (M.resolved macros.now) (M.expanded macros.now) (collector_of self.old.builder self.old.expander)) call.now most → Outgrows self.old.builder.store most (lets_of opts.now call.now) }
        ensures builds { GrowsSome self.old.builder self.new.builder (lets_of opts.now call.now) }
        ensures unchanged { self.new.expander ≡ self.old.expander }
    {
        let gate = self.expander.is_cfg_enabled(call.cfgs.as_slice(), opts);
        if gate.is_err() {
            let outcome = Outcome::off(alloc, call.cfgs.as_slice(), opts)?;
            return Ok(outcome);
        }
        let code = self.lower_call(alloc, &call.call, opts, macros)?;
        Ok(Outcome::Code(code))
    }

    /// Lowers calls, one after the other, each where it is not off.
    pub(crate) fn lower_all<M: Macros>(
        &mut self,
        alloc: Global,
        calls: &[GatedCall],
        opts: &CfgOptions,
        macros: &M,
    ) -> Result<Vec<Outcome>, LowerError>
        requires rest { IsAtRest self.old.builder self.old.expander }
        ensures lowers { IfOk result (λ outcomes. Lowers opts.now (around (M.resolved macros.now) (M.expanded macros.now) (collector_of self.old.builder self.old.expander)) calls.now outcomes.items self.old.builder self.new.builder) }
        ensures within { (most : ℕ) → AreMost opts.now (around (M.resolved macros.now) (M.expanded macros.now) (collector_of self.old.builder self.old.expander)) calls.now most → Builds self.old.builder self.new.builder most (most_lets opts.now calls.now) }
        ensures full { result ≡ Err LowerError.ArenaFull → (most : ℕ) → AreMost opts.now (around (M.resolved macros.now) (M.expanded macros.now) (collector_of self.old.builder self.old.expander)) calls.now most → Outgrows self.old.builder.store most (most_lets opts.now calls.now) }
        ensures builds { GrowsSome self.old.builder self.new.builder (most_lets opts.now calls.now) }
        ensures unchanged { self.new.expander ≡ self.old.expander }
    {
        let mut outcomes = Vec::new(alloc);
        for call in calls {
            let outcome = self.lower_gated(alloc, call, opts, macros)?;
            outcomes.push(outcome)?;
        }
        Ok(outcomes)
    }
}
