use crate::{BindingId, PatId};
use sym_core::Name;

/// A pattern on the left of a `let`.
#[derive(Debug, Drop)]
pub enum Pat {
    /// Binds the whole value.
    Bind(BindingId),
}

/// What a pattern binds: a name, and the pattern that defines it.
#[derive(Debug, Drop)]
pub struct Binding {
    /// The name that it binds.
    pub name: Name,
    /// The pattern that defines it, where one does.
    pub definition: Option<PatId>,
}
