use std::alloc::{AllocError, AllocFailed};
use thiserror::Error;

/// Why a template was not encoded.
#[derive(Debug, Drop, Error)]
pub enum EncodeError {
    /// No memory is left.
    #[error("{0}")]
    Memory(AllocError),
    /// The template has more than 4,294,967,296 pairs of an argument and a use: the place of one more has more than 32 bits.
    #[error("the template has more than 4294967296 pairs of an argument and a use")]
    TooManyPairs,
}

impl From<AllocError> for EncodeError {
    ghost use Rattle.std.specs.Prelude.{◌≡◌};
    ghost use Rattle.template_bytes.specs.declared.error.EncodeError.TheVariants.{Memory};

    ghost from_gives = { λ error refused. refused ≡ Memory error };

    fn from(error: AllocError) -> EncodeError {
        EncodeError::Memory(error)
    }
}

impl<T: Drop> From<AllocFailed<T>> for EncodeError {
    ghost use Rattle.std.specs.Prelude.{◌≡◌, alloc_error};
    ghost use Rattle.template_bytes.specs.declared.error.EncodeError.TheVariants.{Memory};

    ghost from_gives = { λ failed refused. refused ≡ Memory alloc_error };

    fn from(_failed: AllocFailed<T>) -> EncodeError {
        EncodeError::Memory(AllocError)
    }
}
