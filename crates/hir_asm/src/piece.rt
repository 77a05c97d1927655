ghost use Rattle.std.specs.Prelude.{◌≡◌, ◌*◌, [], not, length, map, IfOk, OnOk, option_map, option_copied};
ghost use Rattle.ra_cfg.specs.Reading.{is_off};
ghost use Rattle.ra_cfg.specs.Syntax.{meaning};
ghost use Rattle.hir_build.specs.Building.{Builds, Outgrows};
ghost use Rattle.hir_asm.specs.Operands.{part_of, named, operand_in, words_in, with_bits, if_on, operands_written, words_written, bits_written};
ghost use Rattle.hir_asm.specs.Placing.{AreOperands, Adds};

use crate::operand::place_operand;
use crate::options::with_options;
use bitflags::Flags;
use hir_build::{Builder, LowerError};
use hir_store::{AsmOperand, AsmOptions};
use ra_cfg::{CfgExpr, CfgOptions};
use sqlite_items::Items;
use std::alloc::{AllocError, Global};
use sym_core::{Name, Symbol};
use syn_trees::{AsmOperandSyntax, AsmPiece, AsmPieceKind, CfgPredicate};

/// What the pieces of a call say.
#[derive(Drop)]
pub(crate) struct Pieces {
    /// The operands, in order, with their names.
    pub(crate) operands: Items<(Option<Name>, AsmOperand)>,
    /// The options.
    pub(crate) options: AsmOptions,
}

// Whether none of the predicates, each taken by itself, evaluates to `Some(false)`.
fn is_on(alloc: Global, cfgs: &[CfgPredicate], opts: &CfgOptions) -> Result<bool, AllocError>
    ensures { IfOk result (λ on. on ≡ not (is_off opts.now (map meaning cfgs.now))) }
{
    for cfg in cfgs {
        let expr = CfgExpr::parse_from_ast(alloc, cfg)?;
        if opts.check(&expr) == Some(false) {
            return Ok(false);
        }
    }
    Ok(true)
}

// The name of an operand, where it has one.
fn name_of(name: Option<&Symbol>) -> Result<Option<Name>, AllocError>
    ensures { IfOk result (λ copy. copy ≡ option_map (λ text. Name.Text text) (option_copied name.entry)) }
{
    let Some(name) = name else {
        return Ok(None);
    };
    Ok(Some(Name::from_symbol(name.clone()?)))
}

impl Pieces {
    // Adds what a piece says that is on.
    fn add(
        &mut self,
        builder: &mut Builder,
        alloc: Global,
        kind: &AsmPieceKind,
    ) -> Result<(), LowerError>
        ensures adds { OnOk result (Adds builder.new.store builder.old.file (operand_in kind.now) (words_in kind.now) self.old self.new) }
        ensures builds { Builds builder.old builder.new 2 0 }
        ensures full { result ≡ Err LowerError.ArenaFull → Outgrows builder.old.store 2 0 }
    {
        match kind {
            AsmPieceKind::ClobberAbi(_) => {}
            AsmPieceKind::Options(words) => {
                self.options = with_options(self.options, words.as_slice());
            }
            AsmPieceKind::Operand { name, op: Some(op) } => {
                self.add_operand(builder, alloc, name.as_ref(), op)?;
            }
            AsmPieceKind::Operand { op: None, .. } => {}
        }
        Ok(())
    }

    // Adds an operand, where it is not dropped.
    fn add_operand(
        &mut self,
        builder: &mut Builder,
        alloc: Global,
        name: Option<&Symbol>,
        op: &AsmOperandSyntax,
    ) -> Result<(), LowerError>
        ensures adds { OnOk result (Adds builder.new.store builder.old.file (named (option_copied name.entry) (part_of op.now)) [] self.old self.new) }
        ensures builds { Builds builder.old builder.new 2 0 }
        ensures full { result ≡ Err LowerError.ArenaFull → Outgrows builder.old.store 2 0 }
    {
        let Some(operand) = place_operand(builder, alloc, op)? else {
            return Ok(());
        };
        let name = name_of(name)?;
        self.operands.push((name, operand))?;
        Ok(())
    }

    // Adds what a piece says, where none of its predicates switches it off.
    fn add_gated(
        &mut self,
        builder: &mut Builder,
        alloc: Global,
        piece: &AsmPiece,
        opts: &CfgOptions,
    ) -> Result<(), LowerError>
        ensures adds { OnOk result (Adds builder.new.store builder.old.file (if_on opts.now operand_in piece.now) (if_on opts.now words_in piece.now) self.old self.new) }
        ensures builds { Builds builder.old builder.new 2 0 }
        ensures full { result ≡ Err LowerError.ArenaFull → Outgrows builder.old.store 2 0 }
    {
        if !is_on(alloc, piece.cfgs.as_slice(), opts)? {
            return Ok(());
        }
        self.add(builder, alloc, &piece.kind)
    }
}

/// Reads the pieces of a call that none of their predicates switches off, and places the expressions of their operands.
pub(crate) fn place_pieces(
    builder: &mut Builder,
    alloc: Global,
    pieces: &[AsmPiece],
    opts: &CfgOptions,
) -> Result<Pieces, LowerError>
    ensures operands { IfOk result (λ said. AreOperands builder.new.store builder.old.file (operands_written opts.now pieces.now) said.operands) }
    ensures options { IfOk result (λ said. said.options.0 ≡ bits_written opts.now pieces.now) }
    ensures builds { Builds builder.old builder.new (2 * length pieces.now) 0 }
    ensures full { result ≡ Err LowerError.ArenaFull → Outgrows builder.old.store (2 * length pieces.now) 0 }
{
    let mut said = Pieces {
        operands: Items::new(alloc),
        options: AsmOptions::empty(),
    };
    for piece in pieces {
        said.add_gated(builder, alloc, piece, opts)?;
    }
    Ok(said)
}
