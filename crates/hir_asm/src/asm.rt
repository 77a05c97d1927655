ghost use Rattle.std.specs.Prelude.{◌≡◌, ◌≤◌, false, length, IfOk};
ghost use Rattle.hir_store.specs.Unfolding.{place_of};
ghost use Rattle.hir_build.specs.Building.{Builds, Outgrows};
ghost use Rattle.hir_expander.specs.Machine.{is_macro};
ghost use Rattle.hir_expander.specs.Reached.{literal_of};
ghost use Rattle.hir_asm.specs.Code.{kind_of};
ghost use Rattle.hir_asm.specs.Mapping.{IsMapping};
ghost use Rattle.hir_asm.specs.Heads.{heads_of};
ghost use Rattle.hir_asm.specs.Lowered.{IsAsmCode, most_of};

use crate::mapping::Operands;
use crate::piece::{Pieces, place_pieces};
use bitflags::Flags;
use hir_build::{Builder, LowerError};
use hir_expander::{Expander, Macros};
use hir_store::{AsmOptions, AsmRow, ExprId, InlineAsm, InlineAsmKind};
use ra_cfg::CfgOptions;
use sqlite_items::{Boxed, Items};
use std::alloc::{AllocError, Global};
use syn_trees::{AsmCall, Template};

// Which macro a call is written with.
fn kind_of(call: &AsmCall) -> InlineAsmKind
    ensures { result ≡ kind_of call.now.global call.now.naked }
{
    if call.global {
        InlineAsmKind::GlobalAsm
    } else if call.naked {
        InlineAsmKind::NakedAsm
    } else {
        InlineAsmKind::Asm
    }
}

// Which operands the templates of a call put.
fn map_pieces<M: Macros>(
    alloc: Global,
    pieces: &Pieces,
    templates: &[Template],
    expander: &mut Expander,
    macros: &M,
) -> Result<Items<AsmRow>, AllocError>
    requires outside { is_macro expander.old.current.file_id ≡ false }
    requires depth { expander.old.depth ≡ 0 }
    ensures mapping { IfOk result (IsMapping pieces.now.options.0 (heads_of pieces.now.operands) (literal_of (M.resolved macros.now) (M.expanded macros.now) expander.old.limit expander.old.current.file_id) templates.now) }
    ensures unchanged { expander.new ≡ expander.old }
{
    if pieces.options.contains(AsmOptions::RAW) {
        return Ok(Items::new(alloc));
    }
    let operands = Operands::new(alloc, pieces.operands.as_slice())?;
    operands.map_templates(alloc, templates, expander, macros)
}

// The assembly of a call whose pieces say this.
fn assembly(alloc: Global, call: &AsmCall, pieces: Pieces) -> Result<InlineAsm, AllocError>
    ensures kind { IfOk result (λ made. made.kind ≡ kind_of call.now.global call.now.naked) }
    ensures options { IfOk result (λ made. made.options ≡ pieces.options) }
    ensures operands { IfOk result (λ made. made.operands ≡ pieces.operands) }
{
    Ok(InlineAsm {
        kind: kind_of(call),
        options: pieces.options,
        operands: Boxed::new(alloc, pieces.operands)?,
    })
}

/// Lowers a call of `asm!`, `global_asm!` or `naked_asm!`, whatever it is, and returns its code. The store has its mapping there:
/// which operands its templates put.
///
/// Pieces count where no predicate of theirs, taken by itself, evaluates to `Some(false)`. Operands that lack what they need are
/// dropped, and place nothing.
///
/// # Errors
///
/// `ArenaFull` comes only where the store does not hold as many more expressions as the call places at most: of k pieces these
/// are 2k + 1. `Memory` may come from every call.
pub fn lower_inline_asm<M: Macros>(
    builder: &mut Builder,
    expander: &mut Expander,
    alloc: Global,
    asm: &AsmCall,
    opts: &CfgOptions,
    macros: &M,
) -> Result<ExprId, LowerError>
    requires outside { is_macro expander.old.current.file_id ≡ false }
    requires depth { expander.old.depth ≡ 0 }
    ensures code { IfOk result (λ made. IsAsmCode opts.now (literal_of (M.resolved macros.now) (M.expanded macros.now) expander.old.limit expander.old.current.file_id) builder.old.file asm.now builder.new.store made) }
    ensures later { IfOk result (λ made. length builder.old.store.exprs ≤ place_of made) }
    ensures builds { Builds builder.old builder.new (most_of asm.now) 0 }
    ensures full { result ≡ Err LowerError.ArenaFull → Outgrows builder.old.store (most_of asm.now) 0 }
    ensures unchanged { expander.new ≡ expander.old }
{
    let pieces = place_pieces(builder, alloc, asm.pieces.as_slice(), opts)?;
    let mapping = map_pieces(alloc, &pieces, asm.templates.as_slice(), expander, macros)?;
    let assembly = assembly(alloc, asm, pieces)?;
    let code = builder.inline_asm(assembly, Some(asm.ptr))?;
    builder.note_mapping(code, mapping)?;
    Ok(code)
}
