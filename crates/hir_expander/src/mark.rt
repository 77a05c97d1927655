use crate::FileMaps;
use std::marker::Model;
use sym_core::HirFileId;

/// The file to which an exit leads back, with its maps.
///
/// It has to be given back by [`Expander::exit`]: a program that lets it go otherwise is refused.
pub struct Mark {
    pub(crate) file_id: HirFileId,
    pub(crate) maps: FileMaps,
}

impl Model for Mark {
    ghost use Rattle.hir_expander.specs.CurrentFile.{CurrentFile};

    ghost Value = { CurrentFile };

    ghost view = { λ mark. record { file_id = mark.file_id; maps = mark.maps } };
}
