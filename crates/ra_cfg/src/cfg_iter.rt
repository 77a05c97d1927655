ghost use Rattle.std.specs.Prelude.{◌≡◌, length, option_copied, map};
ghost use Rattle.std.specs.Iterator.{at_most};
ghost use Rattle.std.specs.Map.Iter.{TakesFirst, deref};
ghost use Rattle.ra_cfg.specs.Options.{name_of, value_at};

use crate::cfg_expr::CfgAtom;
use std::collections::btree_set::{IntoIter, Iter};
use std::marker::Model;
use sym_core::Symbol;

/// The atoms of options, each once.
#[derive(Drop)]
pub struct CfgIter<'a> {
    atoms: Iter<'a, CfgAtom>,
}

impl<'a> Model for CfgIter<'a> {
    ghost use Rattle.std.specs.Prelude.{List};
    ghost use Rattle.ra_cfg.specs.declared.cfg_expr.CfgAtom.{CfgAtom as AtomValue};

    ghost Value = { List AtomValue };

    ghost view = { λ it. it.atoms };
}

impl<'a> CfgIter<'a> {
    pub(crate) fn new(atoms: Iter<'a, CfgAtom>) -> CfgIter<'a>
        ensures { result ≡ atoms.entry }
    {
        CfgIter { atoms }
    }
}

impl<'a> Iterator for CfgIter<'a> {
    type Item = &'a CfgAtom;

    ghost next_gives = { TakesFirst deref };

    ghost remaining = { λ it. at_most (length it) };

    fn next(&mut self) -> Option<&'a CfgAtom> {
        self.atoms.next()
    }
}

/// The atoms of options that are used up, each once.
#[derive(Drop)]
pub struct CfgIntoIter {
    atoms: IntoIter<CfgAtom>,
}

impl Model for CfgIntoIter {
    ghost use Rattle.std.specs.Prelude.{List};
    ghost use Rattle.ra_cfg.specs.declared.cfg_expr.CfgAtom.{CfgAtom as AtomValue};

    ghost Value = { List AtomValue };

    ghost view = { λ it. it.atoms };
}

impl CfgIntoIter {
    pub(crate) fn new(atoms: IntoIter<CfgAtom>) -> CfgIntoIter
        ensures { result ≡ atoms }
    {
        CfgIntoIter { atoms }
    }
}

impl Iterator for CfgIntoIter {
    type Item = CfgAtom;

    ghost next_gives = { TakesFirst (λ atom. atom) };

    ghost remaining = { λ it. at_most (length it) };

    fn next(&mut self) -> Option<CfgAtom> {
        self.atoms.next()
    }
}

/// The name or the key of each atom of options.
#[derive(Drop)]
pub struct CfgKeys<'a> {
    atoms: Iter<'a, CfgAtom>,
}

impl<'a> Model for CfgKeys<'a> {
    ghost use Rattle.std.specs.Prelude.{List, ℕ};
    ghost use Rattle.ra_cfg.specs.Options.{names_of};

    ghost Value = { List (List ℕ) };

    ghost view = { λ it. names_of it.atoms };
}

impl<'a> CfgKeys<'a> {
    ghost use Rattle.ra_cfg.specs.Options.{names_of};

    pub(crate) fn new(atoms: Iter<'a, CfgAtom>) -> CfgKeys<'a>
        ensures { result ≡ names_of atoms.entry }
    {
        CfgKeys { atoms }
    }
}

impl<'a> Iterator for CfgKeys<'a> {
    type Item = &'a Symbol;

    ghost next_gives = { TakesFirst deref };

    ghost remaining = { λ it. at_most (length it) };

    fn next(&mut self) -> Option<&'a Symbol> {
        match self.atoms.next() {
            Some(atom) => Some(name_of(atom)),
            None => None,
        }
    }
}

/// The value of each pair of options that has one key.
#[derive(Drop)]
pub struct CfgValues<'a> {
    key: &'a str,
    atoms: Iter<'a, CfgAtom>,
}

impl<'a> Model for CfgValues<'a> {
    ghost use Rattle.std.specs.Prelude.{List, ℕ};
    ghost use Rattle.ra_cfg.specs.Options.{values_at};

    ghost Value = { List (List ℕ) };

    ghost view = { λ it. values_at it.key.now it.atoms };
}

impl<'a> CfgValues<'a> {
    ghost use Rattle.ra_cfg.specs.Options.{values_at};

    pub(crate) fn new(key: &'a str, atoms: Iter<'a, CfgAtom>) -> CfgValues<'a>
        ensures { result ≡ values_at key.now atoms.entry }
    {
        CfgValues { key, atoms }
    }
}

impl<'a> Iterator for CfgValues<'a> {
    type Item = &'a Symbol;

    ghost next_gives = { TakesFirst deref };

    ghost remaining = { λ it. at_most (length it) };

    fn next(&mut self) -> Option<&'a Symbol> {
        while let Some(atom) = self.atoms.next() {
            if let Some(value) = value_at(atom, self.key) {
                return Some(value);
            }
        }
        None
    }
}

/// The name of a flag, or the key of a pair.
pub(crate) fn name_of(atom: &CfgAtom) -> &Symbol
    ensures { result.now ≡ name_of atom.now }
{
    match atom {
        CfgAtom::Flag(name) => name,
        CfgAtom::KeyValue { key, .. } => key,
    }
}

// The value of a pair with this key.
fn value_at<'a>(atom: &'a CfgAtom, wanted: &str) -> Option<&'a Symbol>
    ensures { option_copied result ≡ value_at wanted.now atom.now }
{
    match atom {
        CfgAtom::KeyValue { key, value } if key.as_str() == wanted => Some(value),
        _ => None,
    }
}
