ghost use Rattle.std.specs.Prelude.{⊤, [], ◌∷◌, codes};

use bitflags::{Flag, Flags, bitflag_items};

/// The options of inline assembly (Rust reference, inline assembly, "Options"), as a set of bits. The numbers of the bits
/// are this crate's own.
///
/// ```
/// let options = AsmOptions::PURE.union(AsmOptions::NOMEM);
/// assert!(rt; options.contains(AsmOptions::NOMEM));
/// assert!(rt; !options.contains(AsmOptions::RAW));
/// ```
#[derive(Clone, Copy, PartialEq, Eq, Debug)]
pub struct AsmOptions(pub u16);

bitflag_items! {
    impl AsmOptions: u16 {
        const ATT_SYNTAX = 1;
        const MAY_UNWIND = 2;
        const NOMEM = 4;
        const NORETURN = 8;
        const NOSTACK = 16;
        const PRESERVES_FLAGS = 32;
        const PURE = 64;
        const RAW = 128;
        const READONLY = 256;
    }
}

impl Flags for AsmOptions {
    type Bits = u16;

    ghost exact = { ⊤ };

    ghost table = { (codes "ATT_SYNTAX", 1) ∷ (codes "MAY_UNWIND", 2) ∷ (codes "NOMEM", 4) ∷ (codes "NORETURN", 8) ∷ (codes "NOSTACK", 16)
        ∷ (codes "PRESERVES_FLAGS", 32) ∷ (codes "PURE", 64) ∷ (codes "RAW", 128) ∷ (codes "READONLY", 256) ∷ [] };

    ghost set_of = { λ options. options.0 };

    fn flags<'a>() -> &'a [Flag<AsmOptions>] {
        AsmOptions::FLAGS
    }

    fn bits(&self) -> u16 {
        self.0
    }

    fn from_bits_retain(bits: u16) -> AsmOptions {
        AsmOptions(bits)
    }
}
