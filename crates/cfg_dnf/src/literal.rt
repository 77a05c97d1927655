use ra_cfg::CfgAtom;
use sym_core::Symbol;

/// A leaf of a predicate: a single condition, what is no predicate, or a version.
#[derive(Debug, Drop)]
pub(crate) enum Leaf {
    Atom(CfgAtom),
    Invalid,
    Version(Symbol),
}

/// A leaf as it stands in a predicate, or its contrary.
#[derive(Debug, Drop)]
pub(crate) enum Literal {
    Plain(Leaf),
    Negated(Leaf),
}
