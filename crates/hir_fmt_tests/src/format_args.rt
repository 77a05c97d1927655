ghost use Rattle.std.specs.Prelude.{◌≡◌, None, false};

use either::Right;
use hir_fmt::{
    FormatArgPosition, FormatArgPositionKind, FormatArgs, FormatArgsPiece, FormatArgument,
    FormatArgumentKind, FormatArguments, FormatCount, FormatOptions, FormatPlaceholder,
    FormatTrait,
};
use hir_store::ExprId;
use la_arena::RawIdx;
use sqlite_items::Items;
use std::alloc::{AllocError, Global};
use std::test::Fail;
use sym_core::{AstPtr, Name, Symbol, TextRange};

fn plain() -> FormatOptions
    ensures width { result.width ≡ None }
    ensures zero_pad { result.zero_pad ≡ false }
{
    FormatOptions::default()
}

#[test]
fn bears_its_name(rt: HostRuntime) -> Result<(), Fail> {
    let named = FormatArgumentKind::Named(Name::new(rt.alloc(), "w")?);
    assert_eq!(rt; named.ident(), Some(&Name::new(rt.alloc(), "w")?));
    assert!(rt; FormatArgumentKind::Normal.ident().is_none());
    assert!(rt; named.try_clone(rt.alloc())? == named);
    let options = plain();
    assert!(rt; options.width.is_none() && options.fill.is_none());
    assert!(rt; !options.alternate && !options.zero_pad);
    Ok(())
}

// `{x:w$}`, with neither name found.
fn placeholder(alloc: Global) -> Result<FormatPlaceholder, AllocError> {
    let span = Some(TextRange { start: 1, end: 7 });
    let argument = unresolved(Name::new(alloc, "x")?);
    let width = FormatCount::Argument(unresolved(Name::new(alloc, "w")?));
    let mut format_options = FormatOptions::default();
    format_options.width = Some(width);
    Ok(FormatPlaceholder {
        argument,
        span,
        format_trait: FormatTrait::Display,
        format_options,
    })
}

fn unresolved(name: Name) -> FormatArgPosition {
    FormatArgPosition {
        index: Err(Right(name)),
        kind: FormatArgPositionKind::Named,
        span: None,
    }
}

// Whether each part of a placeholder equals its copy.
fn parts_equal_copies(alloc: Global, placeholder: &FormatPlaceholder) -> Result<bool, AllocError> {
    let argument = placeholder.argument.try_clone(alloc)?;
    let options = placeholder.format_options.try_clone(alloc)?;
    Ok(argument == placeholder.argument && options == placeholder.format_options)
}

fn width_equals_copy(alloc: Global, width: &FormatCount) -> Result<bool, AllocError> {
    Ok(width.try_clone(alloc)? == *width)
}

fn piece_equals_copy(alloc: Global, piece: &FormatArgsPiece) -> Result<bool, AllocError> {
    Ok(piece.try_clone(alloc)? == *piece)
}

#[test]
fn equals_its_copy(rt: HostRuntime) -> Result<(), Fail> {
    let placeholder = placeholder(rt.alloc())?;
    assert!(rt; parts_equal_copies(rt.alloc(), &placeholder)?);
    assert!(rt; placeholder.format_options != FormatOptions::default());
    if let Some(width) = &placeholder.format_options.width {
        assert!(rt; width_equals_copy(rt.alloc(), width)?);
    }
    assert!(rt; placeholder.try_clone(rt.alloc())? == placeholder);
    let piece = FormatArgsPiece::Placeholder(placeholder);
    assert!(rt; piece_equals_copy(rt.alloc(), &piece)?);
    Ok(())
}

// The unnamed argument of expression 7.
fn argument() -> FormatArgument {
    FormatArgument {
        kind: FormatArgumentKind::Normal,
        expr: ExprId {
            raw: RawIdx::from_u32(7),
        },
        syntax: None,
    }
}

// A call of one placeholder and one argument.
fn call(alloc: Global) -> Result<FormatArgs, AllocError> {
    let piece = FormatArgsPiece::Placeholder(placeholder(alloc)?);
    let template = vec![in alloc; piece]?;
    let arguments = vec![in alloc; argument()]?;
    Ok(FormatArgs {
        template: Items::from_vec(template),
        arguments: FormatArguments {
            arguments: Items::from_vec(arguments),
            num_unnamed_args: 1,
            num_explicit_args: 1,
            names: Items::new(alloc),
        },
        orphans: Items::new(alloc),
    })
}

fn arguments_equal_copy(alloc: Global, arguments: &FormatArguments) -> Result<bool, AllocError> {
    Ok(arguments.try_clone(alloc)? == *arguments)
}

#[test]
fn equals_its_copy_as_a_whole(rt: HostRuntime) -> Result<(), Fail> {
    let argument = argument();
    assert!(rt; argument.try_clone(rt.alloc())? == argument);
    let call = call(rt.alloc())?;
    assert!(rt; arguments_equal_copy(rt.alloc(), &call.arguments)?);
    assert!(rt; call.try_clone(rt.alloc())? == call);
    Ok(())
}
