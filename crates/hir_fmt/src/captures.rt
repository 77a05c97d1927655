ghost use Rattle.std.specs.Prelude.{ℕ, List, Option, IfErr};
ghost use Rattle.causes.specs.Causes.{HasCause};
ghost use Rattle.hir_fmt.specs.Log.{Entry, Usage, Made, LogsOne};

use hir_store::ExprId;
use std::alloc::AllocError;
use std::fmt::Debug;
use sym_core::{Name, TextRange};
use thiserror::Error;

/// Where the names go that a format text refers to.
pub trait Captures {
    /// Why a call is refused.
    type Refused: Debug + Drop;

    /// What it was told, in order, where that is known: an entry for each call that was done.
    ghost log: { Self → Option (List Entry) };

    /// How often a call was refused. It never falls, and stays at the last number of 64 bits.
    ghost refusals: { Self → ℕ };

    /// Whether it may give this reason.
    ghost allows: { Self → Self.Refused → Type 0 };

    /// That it went from one state to a later one.
    ghost grows: { Self → Self → Type 0 };

    /// Makes the expression of a name that no written argument bears.
    ///
    /// # Errors
    ///
    /// Returns an error where the count of refusals rises, and then logs nothing.
    fn synth(&mut self, name: &Name, span: Option<TextRange>) -> Result<ExprId, Self::Refused>
        ensures logged { LogsOne (log self.old) (log self.new) result (λ id. Made name.now span id) }
        ensures cause { HasCause (refusals self.old) (refusals self.new) result }
        ensures allowed { IfErr result (allows self.new) }
        ensures grown { grows self.old self.new };

    /// Takes note of a name that is used.
    ///
    /// # Errors
    ///
    /// Returns an error where the count of refusals rises, and then logs nothing.
    fn record_usage(&mut self, name: &Name, span: Option<TextRange>) -> Result<(), Self::Refused>
        ensures logged { LogsOne (log self.old) (log self.new) result (λ done. Usage name.now span) }
        ensures cause { HasCause (refusals self.old) (refusals self.new) result }
        ensures allowed { IfErr result (allows self.new) }
        ensures grown { grows self.old self.new };

    /// Each state is as late as itself.
    ghost grows_self: { (a : Self) → grows a a };

    /// What grew from what grew grew from the first.
    ghost grows_on: { (a b c : Self) → grows a b → grows b c → grows a c };
}

/// Why a format text was not parsed.
#[derive(Debug, Drop, Error)]
pub enum ParseError<R> {
    /// No memory is left.
    #[error("{0}")]
    Memory(AllocError),
    /// The captures refused a name.
    #[error("a name was refused")]
    Captures(R),
}

impl<R> From<AllocError> for ParseError<R> {
    ghost use Rattle.std.specs.Prelude.{◌≡◌};
    ghost use Rattle.hir_fmt.specs.declared.captures.ParseError.TheVariants.{Memory};

    ghost from_gives = { λ error refused. refused ≡ Memory error };

    fn from(error: AllocError) -> ParseError<R> {
        ParseError::Memory(error)
    }
}
