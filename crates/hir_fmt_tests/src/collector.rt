ghost use Rattle.std.specs.Prelude.{◌≡◌};

use hir_fmt::{FormatArgument, FormatArgumentKind, FormatArgumentsCollector};
use hir_store::ExprId;
use la_arena::RawIdx;
use std::alloc::{AllocError, Global};
use std::test::Fail;
use sym_core::{AstPtr, Name};

fn argument(kind: FormatArgumentKind, node: u32) -> FormatArgument
    ensures { result.kind ≡ kind }
{
    FormatArgument {
        kind,
        expr: ExprId {
            raw: RawIdx::from_u32(node),
        },
        syntax: Some(AstPtr { node }),
    }
}

// An unnamed argument, one under the name `w`, an unnamed one, and a captured one under the name `x`; and the place of each.
fn of_each_kind(
    alloc: Global,
) -> Result<(FormatArgumentsCollector, (usize, usize, usize, usize)), AllocError> {
    let w = Name::new(alloc, "w")?;
    let x = Name::new(alloc, "x")?;
    let mut args = FormatArgumentsCollector::new(alloc);
    let unnamed = args.add(argument(FormatArgumentKind::Normal, 10))?;
    let named = args.add(argument(FormatArgumentKind::Named(w), 11))?;
    let later = args.add(argument(FormatArgumentKind::Normal, 12))?;
    let captured = args.add(argument(FormatArgumentKind::Captured(x), 13))?;
    Ok((args, (unnamed, named, later, captured)))
}

#[test]
fn takes_each_kind(rt: HostRuntime) -> Result<(), Fail> {
    let (args, places) = of_each_kind(rt.alloc())?;
    let w = Name::new(rt.alloc(), "w")?;
    assert_eq!(rt; places, (0, 1, 2, 3));
    assert_eq!(rt; args.by_name(&w).map(|(place, _)| place), Some(1));
    assert!(rt; args.by_index(2).is_some() && args.by_index(3).is_none());
    assert_eq!(rt;
        (args.unnamed_args().len(), args.named_args().len()),
        (1, 2)
    );
    assert_eq!(rt; (args.num_explicit_args(), args.all_args().len()), (3, 4));
    Ok(())
}

#[test]
fn gives_all_back(rt: HostRuntime) -> Result<(), Fail> {
    let (mut args, _) = of_each_kind(rt.alloc())?;
    assert!(rt; args.try_clone(rt.alloc())? == args);
    assert_eq!(rt; args.explicit_args().len(), 3);
    let before = args.try_clone(rt.alloc())?;
    if let Some(first) = args.all_args_mut().get_mut(0) {
        first.syntax = None;
    }
    assert!(rt; args != before);
    let finished = args.finish();
    assert_eq!(rt;
        (finished.num_unnamed_args, finished.num_explicit_args),
        (1, 3)
    );
    assert_eq!(rt; (finished.arguments.len(), finished.names.len()), (4, 2));
    Ok(())
}

#[test]
fn finds_a_million_names(rt: HostRuntime) -> Result<(), Fail> {
    let mut args = FormatArgumentsCollector::new(rt.alloc());
    for number in 0..1_000_000 {
        args.add(argument(
            FormatArgumentKind::Captured(numbered(rt.alloc(), number)?),
            number,
        ))?;
    }
    let mut found: u32 = 0;
    for number in 0..1_000_000 {
        if args
            .by_name(&numbered(rt.alloc(), number)?)
            .is_some_and(|(_, arg)| arg.expr.raw.into_u32() == number)
        {
            found = found.saturating_add(1);
        }
    }
    assert_eq!(rt; found, 1_000_000);
    Ok(())
}

fn numbered(alloc: Global, number: u32) -> Result<Name, AllocError> {
    Name::new(alloc, format!(in alloc; "n{number}")?.as_str())
}
