ghost use Rattle.std.specs.Prelude.{◌↔◌, IsTrue};

/// A file, by its number.
#[derive(Clone, Copy, PartialEq, Eq, Hash, Debug)]
pub struct FileId {
    /// The number of the file.
    pub raw: u32,
}

/// A call of a macro, by its number.
#[derive(Clone, Copy, PartialEq, Eq, Hash, Debug)]
pub struct MacroCallId {
    /// The number of the call.
    pub raw: u32,
}

/// A node of a syntax tree, by its number.
#[derive(Clone, Copy, PartialEq, Eq, Hash, Debug)]
pub struct AstPtr {
    /// The number of the node.
    pub node: u32,
}

/// Where source comes from: a file, or what the call of a macro expands to.
#[derive(Clone, Copy, PartialEq, Eq, Hash, Debug)]
pub enum HirFileId {
    /// Source of a file.
    File(FileId),
    /// Source that a call of a macro expands to.
    Macro(MacroCallId),
}

impl HirFileId {
    ghost use Rattle.sym_core.specs.Files.{IsMacro};

    /// Returns whether the source is what a call of a macro expands to.
    pub fn is_macro(&self) -> bool
        ensures { IsTrue result ↔ IsMacro self.now }
    {
        matches!(self, HirFileId::Macro(_))
    }
}

/// A value with the source that it stands in.
#[derive(Clone, Copy, PartialEq, Eq, Debug, Drop)]
pub struct InFile<T> {
    /// Where the value's source comes from.
    pub file_id: HirFileId,
    /// The value.
    pub value: T,
}
