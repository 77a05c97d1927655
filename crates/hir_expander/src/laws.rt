ghost use Rattle.std.specs.Prelude.{◌≡◌, true, false};
ghost use Rattle.sym_core.specs.declared.files.MacroCallId.{MacroCallId as CallId};
ghost use Rattle.hir_expander.specs.declared.macros.FileMaps.{FileMaps as MapsValue};
ghost use Rattle.hir_expander.specs.Machine.{Machine, is_macro, overflow};
ghost use Rattle.hir_expander.specs.Nested.{Nest, IsEntered, outermost, overflows_inside};

/// The law that marks restore the expander, whatever is entered and left between an entry and its exit; it computes
/// nothing.
///
/// The file and its maps are those of before. Without an overflow between them, so is the depth. With one, the depth is
/// 0 where the pair began in a file that no macro made, and else the overflow lasts.
pub fn marks_restore()
    ensures file { (machine : Machine) (id : CallId) (maps : MapsValue) (inner : Nest) → IsEntered machine id → (outermost id maps inner machine).current ≡ machine.current }
    ensures depth { (machine : Machine) (id : CallId) (maps : MapsValue) (inner : Nest) → IsEntered machine id → overflows_inside id maps inner machine ≡ false → outermost id maps inner machine ≡ machine }
    ensures ended { (machine : Machine) (id : CallId) (maps : MapsValue) (inner : Nest) → IsEntered machine id → overflows_inside id maps inner machine ≡ true → is_macro machine.current.file_id ≡ false → (outermost id maps inner machine).depth ≡ 0 }
    ensures lasting { (machine : Machine) (id : CallId) (maps : MapsValue) (inner : Nest) → IsEntered machine id → overflows_inside id maps inner machine ≡ true → is_macro machine.current.file_id ≡ true → (outermost id maps inner machine).depth ≡ overflow }
{}
