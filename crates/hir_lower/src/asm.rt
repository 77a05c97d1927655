//! The code of one call of inline assembly.

ghost use Rattle.std.specs.Prelude.{◌≡◌, ◌≤◌, IfOk, length};
ghost use Rattle.hir_store.specs.Unfolding.{place_of};
ghost use Rattle.hir_build.specs.Building.{Builds, Outgrows};
ghost use Rattle.hir_asm.specs.Lowered.{IsAsmCode, most_of};
ghost use Rattle.hir_lower.specs.Collector.{IsAtRest, around, collector_of};
ghost use Rattle.hir_lower.specs.Lowered.{reaches};

use hir_asm::lower_inline_asm;
use hir_build::{Builder, LowerError};
use hir_expander::{Expander, Macros};
use hir_store::ExprId;
use ra_cfg::CfgOptions;
use std::alloc::Global;
use syn_trees::AsmCall;

/// Lowers a call of inline assembly.
pub(crate) fn lower_asm_call<M: Macros>(
    builder: &mut Builder,
    expander: &mut Expander,
    alloc: Global,
    asm: &AsmCall,
    opts: &CfgOptions,
    macros: &M,
) -> Result<ExprId, LowerError>
    requires rest { IsAtRest builder.old expander.old }
    ensures code { IfOk result (λ made. IsAsmCode opts.now (reaches (around (M.resolved macros.now) (M.expanded macros.now) (collector_of builder.old expander.old))) builder.old.file asm.now builder.new.store made) }
    ensures later { IfOk result (λ made. length builder.old.store.exprs ≤ place_of made) }
    ensures builds { Builds builder.old builder.new (most_of asm.now) 0 }
    ensures full { result ≡ Err LowerError.ArenaFull → Outgrows builder.old.store (most_of asm.now) 0 }
    ensures unchanged { expander.new ≡ expander.old }
{
    lower_inline_asm(builder, expander, alloc, asm, opts, macros)
}
