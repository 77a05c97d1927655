ghost use Rattle.std.specs.Prelude.{◌≡◌, ◌++◌, ◌∷◌, [], false, length, replicate, IfOk, OnOk};
ghost use Rattle.hir_fmt.specs.Orphans.{resolved, resolved_count, resolved_in, resolved_all, marked, unmarked};
ghost use Rattle.hir_fmt.specs.Referred.{unreferred};

use crate::format_args::{FormatArgPosition, FormatArgsPiece, FormatArgument, FormatCount};
use hir_store::ExprId;
use sqlite_items::Items;
use std::alloc::{AllocError, Global};

// Marks the argument that a reference refers to.
fn mark_position(marks: &mut Vec<bool>, position: &FormatArgPosition)
    ensures marks { marks.new.items ≡ marked (resolved position.now.index) marks.old.items }
    ensures len { length marks.new.items ≡ length marks.old.items }
{
    if let Ok(place) = &position.index {
        if *place < marks.len() {
            marks[*place] = true;
        }
    }
}

// Marks the argument that a width or a precision refers to.
fn mark_count(marks: &mut Vec<bool>, count: &Option<FormatCount>)
    ensures marks { marks.new.items ≡ marked (resolved_count count.now) marks.old.items }
    ensures len { length marks.new.items ≡ length marks.old.items }
{
    match count {
        Some(FormatCount::Argument(position)) => mark_position(marks, position),
        Some(FormatCount::Literal(_)) => {}
        None => {}
    }
}

// Marks the arguments that a piece of a template refers to.
fn mark_piece(marks: &mut Vec<bool>, piece: &FormatArgsPiece)
    ensures marks { marks.new.items ≡ marked (resolved_in piece.now) marks.old.items }
    ensures len { length marks.new.items ≡ length marks.old.items }
{
    match piece {
        FormatArgsPiece::Literal(_) => {}
        FormatArgsPiece::Placeholder(placeholder) => {
            mark_position(marks, &placeholder.argument);
            mark_count(marks, &placeholder.format_options.precision);
            mark_count(marks, &placeholder.format_options.width);
        }
    }
}

// A mark for each of so many arguments: whether a template refers to it.
fn marks_of(
    alloc: Global,
    template: &[FormatArgsPiece],
    count: usize,
) -> Result<Vec<bool>, AllocError>
    ensures marks { IfOk result (λ marks. marks.items ≡ marked (resolved_all template.now) (replicate count false)) }
    ensures len { IfOk result (λ marks. length marks.items ≡ count) }
{
    let mut marks = vec![in alloc; false; count]?;
    for piece in template {
        mark_piece(&mut marks, piece);
    }
    Ok(marks)
}

// Keeps the expression of an argument that is not marked.
fn keep(orphans: &mut Vec<ExprId>, is_marked: bool, arg: &FormatArgument) -> Result<(), AllocError>
    ensures { OnOk result (orphans.new.items ≡ orphans.old.items ++ unmarked (is_marked ∷ []) (arg.now ∷ [])) }
{
    if is_marked {
        return Ok(());
    }
    orphans.push(arg.expr)?;
    Ok(())
}

// The expressions of the arguments that are not marked.
fn unmarked(
    alloc: Global,
    marks: &[bool],
    args: &[FormatArgument],
) -> Result<Items<ExprId>, AllocError>
    requires { length marks.now ≡ length args.now }
    ensures { IfOk result (λ orphans. orphans ≡ unmarked marks.now args.now) }
{
    let mut orphans = Vec::new(alloc);
    for at in 0..args.len() {
        keep(&mut orphans, marks[at], &args[at])?;
    }
    Ok(Items::from_vec(orphans))
}

/// The expressions of the arguments that a template does not refer to, where it refers to arguments by their places.
#[tactic(auto, using(crate::proofs::Marks::unmarked_all))]
pub(crate) fn find_orphans(
    alloc: Global,
    template: &[FormatArgsPiece],
    args: &[FormatArgument],
) -> Result<Items<ExprId>, AllocError>
    ensures { IfOk result (λ orphans. orphans ≡ unreferred (resolved_all template.now) 0 args.now) }
{
    let marks = marks_of(alloc, template, args.len())?;
    Ok(unmarked(alloc, marks.as_slice(), args)?)
}
