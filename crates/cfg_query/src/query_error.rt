use script::ScriptError;
use std::alloc::AllocError;
use thiserror::Error;

/// Why a question was refused.
#[derive(Debug, Drop, Error)]
pub enum QueryError {
    /// The text of the options is no script.
    #[error("line {line} of the options is no item")]
    Options {
        /// The line in which the first broken item begins, counted from 1.
        line: u64,
    },
    /// The text of the predicate is none.
    #[error("no predicate")]
    Predicate,
    /// One of the texts has more than 16,777,216 bytes.
    #[error("too long")]
    TooLong,
    /// No memory is left.
    #[error("{0}")]
    Memory(AllocError),
}

impl From<AllocError> for QueryError {
    ghost use Rattle.std.specs.Prelude.{◌≡◌};
    ghost use Rattle.cfg_query.specs.declared.query_error.QueryError.TheVariants.{Memory};

    ghost from_gives = { λ error refused. refused ≡ Memory error };

    fn from(error: AllocError) -> QueryError {
        QueryError::Memory(error)
    }
}

impl From<ScriptError> for QueryError {
    ghost use Rattle.std.specs.Prelude.{◌≡◌};
    ghost use Rattle.cfg_query.specs.Refusals.{refusal_of};

    ghost from_gives = { λ error refused. refused ≡ refusal_of error };

    fn from(error: ScriptError) -> QueryError {
        match error {
            ScriptError::Syntax { line } => QueryError::Options { line },
            ScriptError::Memory(error) => QueryError::Memory(error),
        }
    }
}
