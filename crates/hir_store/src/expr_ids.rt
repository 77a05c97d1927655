ghost use Rattle.std.specs.Prelude.{◌≡◌, [], IfOk};

use crate::ExprId;
use crate::row::Row;
use std::alloc::{AllocError, Global};
use std::marker::Model;

/// Expressions in a row, by their ids, as the parts of another expression. Up to three take no memory of their own.
///
/// ```
/// let ids = ExprIds::from_slice(alloc, &[first, second])?;
/// assert_eq!(rt; ids.as_slice(), [first, second].as_slice());
/// assert!(rt; ExprIds::new().as_slice().is_empty());
/// ```
#[derive(Debug, Drop)]
pub struct ExprIds {
    row: Row,
}

impl Model for ExprIds {
    ghost use Rattle.std.specs.Prelude.{List};
    ghost use Rattle.hir_store.specs.declared.ids.ExprId.{ExprId};
    ghost use Rattle.hir_store.specs.Row.{ids_of};

    ghost Value = { List ExprId };

    ghost view = { λ ids. ids_of ids.row };
}

impl ExprIds {
    /// No expressions.
    pub fn new() -> ExprIds
        ensures { result ≡ [] }
    {
        ExprIds { row: Row::Empty }
    }

    /// Copies the ids.
    pub fn from_slice(alloc: Global, ids: &[ExprId]) -> Result<ExprIds, AllocError>
        ensures { IfOk result (λ row. row ≡ ids.now) }
    {
        let row = match ids {
            [] => Row::Empty,
            [first] => Row::One([*first]),
            [first, second] => Row::Two([*first, *second]),
            [first, second, third] => Row::Three([*first, *second, *third]),
            _ => Row::Many(Box::new(alloc, Vec::from_slice(alloc, ids)?)?),
        };
        Ok(ExprIds { row })
    }

    /// Returns the ids.
    pub fn as_slice(&self) -> &[ExprId]
        ensures { result.now ≡ self.now }
    {
        match &self.row {
            Row::Empty => &[],
            Row::One(ids) => ids.as_slice(),
            Row::Two(ids) => ids.as_slice(),
            Row::Three(ids) => ids.as_slice(),
            Row::Many(ids) => ids.as_slice(),
        }
    }
}
