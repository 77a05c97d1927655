ghost use Rattle.std.specs.Prelude.{◌≡◌, ◌↔◌, Some, IfOk, IsTrue, option_copied};

use crate::symbol::Symbol;
use std::alloc::{AllocError, Global};
use std::fmt;
use std::fmt::Display;

/// What a thing in source is named by.
///
/// ```
/// let total = Name::new(rt.alloc(), "total")?;
/// let field = Name::tuple_field(3);
/// let fresh = Name::fresh(2);
/// let text = format!(in rt.alloc(); "{total} {field} {fresh}")?;
/// assert_eq!(rt; text.as_str(), "total 3 #2");
/// assert!(rt; fresh.symbol().is_none());
/// ```
#[derive(Clone, PartialEq, Eq, Hash, Debug, Drop)]
pub enum Name {
    /// A name that is written out.
    Text(Symbol),
    /// A field of a tuple, by its place from 0 on.
    TupleField(usize),
    /// A name that no source spells, by its number.
    Fresh(u32),
}

impl Name {
    ghost use Rattle.sym_core.specs.Name.{symbol_of};

    /// Makes a name with this text.
    pub fn new(alloc: Global, text: &str) -> Result<Name, AllocError>
        ensures { IfOk result (λ name. name ≡ Name.Text text.now) }
    {
        let symbol = Symbol::new(alloc, text)?;
        Ok(Name::Text(symbol))
    }

    /// Makes a name of this symbol.
    pub fn from_symbol(s: Symbol) -> Name
        ensures { result ≡ Name.Text s }
    {
        Name::Text(s)
    }

    /// Makes the name of the tuple field at this place.
    pub fn tuple_field(n: usize) -> Name
        ensures { result ≡ Name.TupleField n }
    {
        Name::TupleField(n)
    }

    /// Makes the fresh name with this number.
    pub fn fresh(n: u32) -> Name
        ensures { result ≡ Name.Fresh n }
    {
        Name::Fresh(n)
    }

    /// Returns the symbol of a name that is written out, and `None` for any other name.
    pub fn symbol(&self) -> Option<&Symbol>
        ensures { option_copied result ≡ symbol_of self.now }
    {
        match self {
            Name::Text(symbol) => Some(symbol),
            Name::TupleField(_) | Name::Fresh(_) => None,
        }
    }
}

impl fmt::Display for Name {
    ghost use Rattle.sym_core.specs.Name.{name_text};

    ghost output = { λ name. Some (name_text name) };

    fn fmt<W: fmt::Write>(&self, f: &mut fmt::Formatter<W>) -> fmt::Result {
        match self {
            Name::Text(symbol) => symbol.fmt(f),
            Name::TupleField(place) => place.fmt(f),
            Name::Fresh(number) => write!(f, "#{number}"),
        }
    }
}
