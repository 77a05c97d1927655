ghost use Rattle.std.specs.Prelude.{◌≡◌, ◌+◌, ◌*◌, [], ◌∷◌, length, map, option_map, option_copied, IfOk, Some, None};
ghost use Rattle.std.specs.Option.{option_and_then};
ghost use Rattle.hir_store.specs.Tree.{Shape, In, Out, InOut, SplitInOut, trees};
ghost use Rattle.hir_store.specs.Unfolding.{row_of, shape_of, operand_exprs};
ghost use Rattle.hir_build.specs.Building.{Builds, Outgrows};
ghost use Rattle.hir_build.specs.Placed.{Placed, AllPlaced};
ghost use Rattle.hir_asm.specs.Operands.{collected, stored, first_of, reg_of, both_ways, in_register, in_given, part_of};
ghost use Rattle.hir_asm.specs.Code.{leaf_tree, leaf_origin};
ghost use Rattle.hir_asm.specs.Placing.{IsPart, MayBePart};

use hir_build::{Builder, LowerError};
use hir_store::{AsmOperand, ExprId, InlineAsmRegOrRegClass};
use std::alloc::{AllocError, Global};
use sym_core::{Name, Symbol};
use syn_trees::{
    AsmDir, AsmExprSyntax, AsmExprs, AsmOperandSyntax, AsmRegSyntax, LeafSyntax, StringLit,
};

// What an expression is collected as: a leaf, or missing.
fn collected(expr: Option<AsmExprSyntax>) -> Option<LeafSyntax>
    ensures { result ≡ collected expr }
{
    match expr {
        Some(AsmExprSyntax::Leaf(leaf)) => Some(leaf),
        Some(AsmExprSyntax::Underscore) | None => None,
    }
}

// Places a leaf, or a missing expression.
fn place_leaf(builder: &mut Builder, leaf: Option<LeafSyntax>) -> Result<ExprId, LowerError>
    ensures placed { IfOk result (λ id. Placed builder.new.store id (leaf_tree leaf) (leaf_origin builder.old.file leaf ∷ [])) }
    ensures builds { Builds builder.old builder.new 1 0 }
    ensures full { result ≡ Err LowerError.ArenaFull → Outgrows builder.old.store 1 0 }
{
    match leaf {
        Some(leaf) => builder.leaf(leaf.leaf, Some(leaf.ptr)),
        None => builder.missing(None),
    }
}

// Places the expression that a value is stored to, where it is stored.
fn place_stored(
    builder: &mut Builder,
    expr: Option<AsmExprSyntax>,
) -> Result<Option<ExprId>, LowerError>
    ensures placed { IfOk result (λ id. AllPlaced builder.new.store (row_of id) (trees (map leaf_tree (stored expr))) (map (leaf_origin builder.old.file) (stored expr))) }
    ensures builds { Builds builder.old builder.new 1 0 }
    ensures full { result ≡ Err LowerError.ArenaFull → Outgrows builder.old.store 1 0 }
{
    match expr {
        Some(AsmExprSyntax::Leaf(leaf)) => {
            let id = place_leaf(builder, Some(leaf))?;
            Ok(Some(id))
        }
        Some(AsmExprSyntax::Underscore) | None => Ok(None),
    }
}

// A register by its token, or a class.
fn register_of(alloc: Global, reg: &AsmRegSyntax) -> Result<InlineAsmRegOrRegClass, AllocError>
    ensures { IfOk result (λ register. register ≡ reg_of reg.now) }
{
    match reg {
        AsmRegSyntax::Register(literal) => {
            Ok(InlineAsmRegOrRegClass::Reg(Symbol::new(alloc, literal.text())?))
        }
        AsmRegSyntax::Class(word) => Ok(InlineAsmRegOrRegClass::RegClass(word.clone()?)),
    }
}

// An operand whose register holds a value at the start.
fn place_in(
    builder: &mut Builder,
    reg: InlineAsmRegOrRegClass,
    expr: Option<AsmExprSyntax>,
) -> Result<AsmOperand, LowerError>
    ensures part { IfOk result (IsPart builder.new.store builder.old.file (In reg, collected expr ∷ [])) }
    ensures builds { Builds builder.old builder.new 1 0 }
    ensures full { result ≡ Err LowerError.ArenaFull → Outgrows builder.old.store 1 0 }
{
    let expr = place_leaf(builder, collected(expr))?;
    Ok(AsmOperand::In { reg, expr })
}

// An operand whose register is stored at the end.
fn place_out(
    builder: &mut Builder,
    reg: InlineAsmRegOrRegClass,
    expr: Option<AsmExprSyntax>,
    late: bool,
) -> Result<AsmOperand, LowerError>
    ensures part { IfOk result (IsPart builder.new.store builder.old.file (Out reg late, stored expr)) }
    ensures builds { Builds builder.old builder.new 1 0 }
    ensures full { result ≡ Err LowerError.ArenaFull → Outgrows builder.old.store 1 0 }
{
    let expr = place_stored(builder, expr)?;
    Ok(AsmOperand::Out { reg, expr, late })
}

// An operand whose register holds a value at the start, and is stored at the end.
fn place_both(
    builder: &mut Builder,
    reg: InlineAsmRegOrRegClass,
    exprs: &AsmExprs,
    late: bool,
) -> Result<AsmOperand, LowerError>
    ensures part { IfOk result (IsPart builder.new.store builder.old.file (both_ways reg late exprs.now)) }
    ensures builds { Builds builder.old builder.new 2 0 }
    ensures full { result ≡ Err LowerError.ArenaFull → Outgrows builder.old.store 2 0 }
{
    let first = place_leaf(builder, collected(exprs.first))?;
    if !exprs.arrow {
        return Ok(AsmOperand::InOut {
            reg,
            expr: first,
            late,
        });
    }
    let second = place_stored(builder, exprs.second)?;
    Ok(AsmOperand::SplitInOut {
        reg,
        in_expr: first,
        out_expr: second,
        late,
    })
}

// An operand that goes both ways, where it has expressions.
fn place_given_both(
    builder: &mut Builder,
    reg: InlineAsmRegOrRegClass,
    exprs: Option<&AsmExprs>,
    late: bool,
) -> Result<Option<AsmOperand>, LowerError>
    ensures part { IfOk result (MayBePart builder.new.store builder.old.file (option_map (both_ways reg late) (option_copied exprs.entry))) }
    ensures builds { Builds builder.old builder.new 2 0 }
    ensures full { result ≡ Err LowerError.ArenaFull → Outgrows builder.old.store 2 0 }
{
    match exprs {
        Some(exprs) => Ok(Some(place_both(builder, reg, exprs, late)?)),
        None => Ok(None),
    }
}

// The first expression of those that may be there.
fn first_of(exprs: Option<&AsmExprs>) -> Option<AsmExprSyntax>
    ensures { result ≡ first_of (option_copied exprs.entry) }
{
    exprs?.first
}

// An operand in a register.
fn place_register(
    builder: &mut Builder,
    dir: AsmDir,
    reg: InlineAsmRegOrRegClass,
    exprs: Option<&AsmExprs>,
) -> Result<Option<AsmOperand>, LowerError>
    ensures part { IfOk result (MayBePart builder.new.store builder.old.file (in_register dir reg (option_copied exprs.entry))) }
    ensures builds { Builds builder.old builder.new 2 0 }
    ensures full { result ≡ Err LowerError.ArenaFull → Outgrows builder.old.store 2 0 }
{
    match dir {
        AsmDir::In => Ok(Some(place_in(builder, reg, first_of(exprs))?)),
        AsmDir::Out => Ok(Some(place_out(builder, reg, first_of(exprs), false)?)),
        AsmDir::LateOut => Ok(Some(place_out(builder, reg, first_of(exprs), true)?)),
        AsmDir::InOut => place_given_both(builder, reg, exprs, false),
        AsmDir::InLateOut => place_given_both(builder, reg, exprs, true),
    }
}

// An operand with its register and its direction, where they are there.
fn place_given(
    builder: &mut Builder,
    alloc: Global,
    dir: Option<AsmDir>,
    reg: Option<&AsmRegSyntax>,
    exprs: Option<&AsmExprs>,
) -> Result<Option<AsmOperand>, LowerError>
    ensures part { IfOk result (MayBePart builder.new.store builder.old.file (in_given dir (option_copied reg.entry) (option_copied exprs.entry))) }
    ensures builds { Builds builder.old builder.new 2 0 }
    ensures full { result ≡ Err LowerError.ArenaFull → Outgrows builder.old.store 2 0 }
{
    let (Some(dir), Some(reg)) = (dir, reg) else {
        return Ok(None);
    };
    let reg = register_of(alloc, reg)?;
    place_register(builder, dir, reg, exprs)
}

// The path of a symbol, where it has one.
fn symbol_of(path: Option<&Symbol>) -> Result<Option<AsmOperand>, AllocError>
    ensures { IfOk result (λ operand. operand ≡ option_map (λ text. AsmOperand.Sym (Name.Text text)) (option_copied path.entry)) }
{
    let Some(path) = path else {
        return Ok(None);
    };
    Ok(Some(AsmOperand::Sym(Name::from_symbol(path.clone()?))))
}

/// Places the expressions of an operand. One that lacks what it needs is dropped, and places nothing.
pub(crate) fn place_operand(
    builder: &mut Builder,
    alloc: Global,
    op: &AsmOperandSyntax,
) -> Result<Option<AsmOperand>, LowerError>
    ensures part { IfOk result (MayBePart builder.new.store builder.old.file (part_of op.now)) }
    ensures builds { Builds builder.old builder.new 2 0 }
    ensures full { result ≡ Err LowerError.ArenaFull → Outgrows builder.old.store 2 0 }
{
    match op {
        AsmOperandSyntax::Reg { dir, reg, exprs } => {
            place_given(builder, alloc, *dir, reg.as_ref(), exprs.as_ref())
        }
        AsmOperandSyntax::Label(leaf) => {
            let id = place_leaf(builder, *leaf)?;
            Ok(Some(AsmOperand::Label(id)))
        }
        AsmOperandSyntax::Const(leaf) => {
            let id = place_leaf(builder, *leaf)?;
            Ok(Some(AsmOperand::Const(id)))
        }
        AsmOperandSyntax::Sym(path) => Ok(symbol_of(path.as_ref())?),
    }
}
