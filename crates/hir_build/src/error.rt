use la_arena::ArenaError;
use std::alloc::{AllocError, AllocFailed};
use thiserror::Error;

/// Why code was not built.
#[derive(Debug, Drop, Error)]
pub enum LowerError {
    /// No memory is left.
    #[error("{0}")]
    Memory(AllocError),
    /// An arena of the store holds 4,294,967,295 values, and one more was to be placed.
    #[error("an arena of the store is full")]
    ArenaFull,
}

impl From<ArenaError> for LowerError {
    ghost use Rattle.std.specs.Prelude.{◌≡◌};
    ghost use Rattle.hir_build.specs.Refusal.{refusal_of};

    ghost from_gives = { λ error refused. refused ≡ refusal_of error };

    fn from(error: ArenaError) -> LowerError {
        match error {
            ArenaError::Full => LowerError::ArenaFull,
            ArenaError::Memory(error) => LowerError::Memory(error),
        }
    }
}

impl From<AllocError> for LowerError {
    ghost use Rattle.std.specs.Prelude.{◌≡◌};
    ghost use Rattle.hir_build.specs.declared.error.LowerError.TheVariants.{Memory};

    ghost from_gives = { λ error refused. refused ≡ Memory error };

    fn from(error: AllocError) -> LowerError {
        LowerError::Memory(error)
    }
}

impl<T: Drop> From<AllocFailed<T>> for LowerError {
    ghost use Rattle.std.specs.Prelude.{◌≡◌, alloc_error};
    ghost use Rattle.hir_build.specs.declared.error.LowerError.TheVariants.{Memory};

    ghost from_gives = { λ failed refused. refused ≡ Memory alloc_error };

    fn from(_failed: AllocFailed<T>) -> LowerError {
        LowerError::Memory(AllocError)
    }
}
