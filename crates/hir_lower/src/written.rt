ghost use Rattle.std.specs.Prelude.{◌≡◌, ◌+◌, ◌<◌, ◌≤◌, [], ◌∷◌, length, IfOk};
ghost use Rattle.hir_store.specs.Unfolding.{place_of};
ghost use Rattle.hir_build.specs.Building.{Builds, Outgrows};
ghost use Rattle.hir_build.specs.Placed.{Placed};
ghost use Rattle.format_code.specs.CallCode.{written_tree};
ghost use Rattle.hir_lower.specs.Written.{written_syntax, written_origins, kind_for, IsWritten, AreWritten};

use hir_build::{Builder, LowerError};
use hir_fmt::{FormatArgument, FormatArgumentKind, FormatArgumentsCollector};
use hir_store::ExprId;
use std::alloc::{AllocError, Global};
use sym_core::{AstPtr, Name, Symbol};
use syn_trees::FormatArgSyntax;

// The expression of a written argument, or a missing one.
fn place_written(builder: &mut Builder, arg: &FormatArgSyntax) -> Result<ExprId, LowerError>
    ensures placed { IfOk result (λ id. Placed builder.new.store id (written_tree arg.now) (written_origins builder.old.file arg.now)) }
    ensures builds { Builds builder.old builder.new 1 0 }
    ensures full { result ≡ Err LowerError.ArenaFull → Outgrows builder.old.store 1 0 }
{
    match &arg.expr {
        Some(leaf) => builder.leaf(leaf.leaf, Some(leaf.ptr)),
        None => builder.missing(None),
    }
}

// How a call brings an argument that is written with this name, or with none.
fn kind_of(name: &Option<Symbol>) -> Result<FormatArgumentKind, AllocError>
    ensures { IfOk result (λ kind. kind ≡ kind_for name.now) }
{
    match name {
        Some(name) => {
            let name = name.clone()?;
            Ok(FormatArgumentKind::Named(Name::from_symbol(name)))
        }
        None => Ok(FormatArgumentKind::Normal),
    }
}

// Where the expression of a written argument stands.
fn syntax_of(arg: &FormatArgSyntax) -> Option<AstPtr>
    ensures { result ≡ written_syntax arg.now }
{
    match &arg.expr {
        Some(leaf) => Some(leaf.ptr),
        None => None,
    }
}

// Places a written argument.
fn place_argument(
    builder: &mut Builder,
    arg: &FormatArgSyntax,
) -> Result<FormatArgument, LowerError>
    ensures written { IfOk result (IsWritten builder.new.store builder.old.file arg.now) }
    ensures builds { Builds builder.old builder.new 1 0 }
    ensures full { result ≡ Err LowerError.ArenaFull → Outgrows builder.old.store 1 0 }
{
    let kind = kind_of(&arg.name)?;
    let expr = place_written(builder, arg)?;
    Ok(FormatArgument {
        kind,
        expr,
        syntax: syntax_of(arg),
    })
}

/// Places the written arguments of a call, in order.
pub(crate) fn place_arguments(
    builder: &mut Builder,
    alloc: Global,
    written: &[FormatArgSyntax],
) -> Result<FormatArgumentsCollector, LowerError>
    ensures written { IfOk result (AreWritten builder.new.store builder.old.file written.now) }
    ensures builds { Builds builder.old builder.new (length written.now) 0 }
    ensures full { result ≡ Err LowerError.ArenaFull → Outgrows builder.old.store (length written.now) 0 }
{
    let mut args = FormatArgumentsCollector::new(alloc);
    for arg in written {
        let argument = place_argument(builder, arg)?;
        args.add(argument)?;
    }
    Ok(args)
}
