ghost use Rattle.std.specs.Prelude.{◌≡◌, Option, option_copied};
ghost use Rattle.sym_core.specs.declared.files.HirFileId.{HirFileId as FileValue};
ghost use Rattle.sym_core.specs.declared.files.MacroCallId.{MacroCallId as CallId};
ghost use Rattle.syn_trees.specs.declared.format_call.MacroCallSrc.{MacroCallSrc as CallValue};
ghost use Rattle.syn_trees.specs.declared.format_call.Template.{Template as TemplateValue};
ghost use Rattle.hir_expander.specs.declared.macros.FileMaps.{FileMaps as MapsValue};

use sym_core::{HirFileId, MacroCallId};
use syn_trees::{MacroCallSrc, Template};

/// The maps of a file, by their numbers.
#[derive(Clone, Copy, PartialEq, Eq, Debug)]
pub struct FileMaps {
    /// The map from its text to spans.
    pub span_map: u32,
    /// The map from its items to their ids.
    pub ast_id_map: u32,
}

/// What macro calls expand to.
///
/// Every answer is a function of the value and the arguments: asked again, the same comes.
pub trait Macros {
    /// Which expansion a call in a file has.
    ghost resolved: { Self → FileValue → CallValue → Option CallId };

    /// What an expansion is.
    ghost expanded: { Self → CallId → Option TemplateValue };

    /// The maps of a file.
    ghost mapped: { Self → FileValue → MapsValue };

    /// The id of a call that stands in this file; none where no macro is found.
    fn resolve(&self, file: HirFileId, call: &MacroCallSrc) -> Option<MacroCallId>
        ensures { result ≡ resolved self.now file call.now };

    /// What the call of this id expands to; none where it expands to nothing.
    fn expansion(&self, id: MacroCallId) -> Option<&Template>
        ensures { option_copied result ≡ expanded self.now id };

    /// The maps of a file.
    fn maps(&self, file: HirFileId) -> FileMaps
        ensures { result ≡ mapped self.now file };
}
