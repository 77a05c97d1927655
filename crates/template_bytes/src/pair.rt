use hir_fmt::FormatTrait;

/// An argument of a template, or the one unresolved argument, with one use of it.
#[derive(Clone, Copy, PartialEq, Eq, Hash, Debug)]
pub struct Pair {
    /// The place of the argument, or `None` where it is unresolved.
    pub argument: Option<usize>,
    /// How it is used.
    pub usage: Usage,
}

/// How an argument is used: written by a trait, or taken as a width or a precision.
#[derive(Clone, Copy, PartialEq, Eq, Hash, Debug)]
pub enum Usage {
    /// Written by this trait: `{}`, `{:?}`, `{:x}` and so on.
    Trait(FormatTrait),
    /// Taken as a width or a precision: `{:a$}`, `{:.5$}`, `{:.*}`.
    Count,
}
