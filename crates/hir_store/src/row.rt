use crate::ExprId;

/// How a row of ids is kept: up to three beside each other, more behind a pointer.
#[derive(Debug, Drop)]
pub(crate) enum Row {
    /// No id.
    Empty,
    /// One id.
    One([ExprId; 1]),
    /// Two ids.
    Two([ExprId; 2]),
    /// Three ids.
    Three([ExprId; 3]),
    /// Any other number of ids.
    Many(Box<Vec<ExprId>>),
}
