ghost use Rattle.std.specs.Prelude.{◌≡◌, ◌<◌, ◌≤◌, ◌↔◌, [], length, OnOk, OnErr, IsTrue};
ghost use Rattle.hir_expander.specs.Table.{Definition, defined, max_macros, resolved, expanded, no_maps};

use crate::{FileMaps, Macros};
use indexmap::IndexMap;
use std::alloc::{AllocError, Global};
use std::marker::Model;
use sym_core::{HirFileId, MacroCallId, Symbol};
use syn_trees::{MacroCallSrc, Template};

/// Macros by name, each with the template that it expands to.
///
/// The id of a macro is the place of its name, in the order in which the names were first defined. Names are found by
/// their hash.
///
/// ```
/// let mut macros = MacroTable::new(alloc);
/// macros.define(Symbol::new(alloc, "m")?, Some(template))?;
/// let call = MacroCallSrc { path: Some(Symbol::new(alloc, "m")?) };
/// let file = HirFileId::File(FileId { raw: 0 });
/// let id = macros.resolve(file, &call);
/// assert_eq!(id, Some(MacroCallId { raw: 0 }));
/// ```
#[derive(Debug, Drop)]
pub struct MacroTable {
    bodies: IndexMap<Symbol, Option<Template>>,
}

impl Model for MacroTable {
    ghost use Rattle.std.specs.Prelude.{List, ◌≤◌, length};
    ghost use Rattle.hir_expander.specs.Table.{Definition, max_macros};

    ghost Value = { List Definition };

    ghost view = { λ table. table.bodies.entries };

    ghost invariant = { λ table. length table.bodies.entries ≤ max_macros };
}

impl MacroTable {
    /// A table without macros, which takes no memory.
    pub fn new(alloc: Global) -> MacroTable
        ensures { result ≡ [] }
    {
        MacroTable {
            bodies: IndexMap::new(alloc),
        }
    }

    /// Defines a macro, which expands to this template or to nothing. A later definition takes the place of an earlier
    /// one of that name.
    ///
    /// # Errors
    ///
    /// Returns an error if there is no memory, and then leaves the table as it was.
    pub fn define(&mut self, name: Symbol, body: Option<Template>) -> Result<(), AllocError>
        requires { length self.old < max_macros }
        ensures defined { OnOk result (self.new ≡ defined name body self.old) }
        ensures unchanged { OnErr result (self.new ≡ self.old) }
    {
        self.bodies.insert(name, body)?;
        Ok(())
    }

    /// The number of names.
    pub fn len(&self) -> usize
        ensures value { result ≡ length self.now }
        ensures most { result ≤ max_macros }
    {
        self.bodies.len()
    }

    /// Whether there is no macro.
    pub fn is_empty(&self) -> bool
        ensures { IsTrue result ↔ (self.now ≡ []) }
    {
        self.bodies.is_empty()
    }
}

impl Macros for MacroTable {
    ghost resolved = { λ table file call. resolved table call };

    ghost expanded = { expanded };

    ghost mapped = { λ table file. no_maps };

    fn resolve(&self, _file: HirFileId, call: &MacroCallSrc) -> Option<MacroCallId> {
        let name = call.path.as_ref()?;
        let place = self.bodies.get_index_of(name)?;
        Some(MacroCallId { raw: place as u32 })
    }

    fn expansion(&self, id: MacroCallId) -> Option<&Template> {
        let (_, body) = self.bodies.get_index(id.raw as usize)?;
        body.as_ref()
    }

    fn maps(&self, _file: HirFileId) -> FileMaps {
        FileMaps {
            span_map: 0,
            ast_id_map: 0,
        }
    }
}
