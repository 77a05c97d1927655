ghost use Rattle.std.specs.Prelude.{◌≡◌, ◌≤◌, if◌then◌else◌, nat_le, Some, None};
ghost use Rattle.script_grammar.specs.Limits.{max_limit, usual_limit};

use std::marker::Model;

/// The greatest recursion limit that a script can set.
pub const MAX_LIMIT: u32 = 1024;

/// The recursion limit of a script that sets none.
pub const USUAL_LIMIT: u32 = 128;

/// A recursion limit that a script can set: at most [`MAX_LIMIT`].
///
/// ```
/// assert_eq!(RecursionLimit::new(64).unwrap().get(), 64);
/// assert!(RecursionLimit::new(1025).is_none());
/// assert_eq!(RecursionLimit::usual().get(), 128);
/// ```
#[derive(Clone, Copy, Drop)]
pub struct RecursionLimit {
    value: u32,
}

impl Model for RecursionLimit {
    ghost use Rattle.std.specs.Prelude.{ℕ, ◌≤◌};
    ghost use Rattle.script_grammar.specs.Limits.{max_limit};

    ghost Value = { ℕ };

    ghost view = { λ limit. limit.value };

    ghost inverse = { λ value. record { value = value } };

    ghost invariant = { λ limit. limit.value ≤ max_limit };
}

impl RecursionLimit {
    /// The limit of this value; `None` where it is too great.
    pub fn new(value: u32) -> Option<RecursionLimit>
        ensures { result ≡ (if nat_le value max_limit then Some value else None) }
    {
        if value > MAX_LIMIT {
            return None;
        }
        Some(RecursionLimit { value })
    }

    /// The limit of a script that sets none.
    pub fn usual() -> RecursionLimit
        ensures { result ≡ usual_limit }
    {
        RecursionLimit { value: USUAL_LIMIT }
    }

    /// Its value.
    pub fn get(self) -> u32
        ensures value { result ≡ self }
        ensures most { result ≤ max_limit }
    {
        self.value
    }
}
