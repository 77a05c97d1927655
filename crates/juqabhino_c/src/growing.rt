ghost use Rattle.std.specs.Prelude.{◌≡◌, Some, None};
ghost use Rattle.std.specs.Io.{WritesAtMost};
ghost use Rattle.std.specs.Io.KnownBytes.{WriteAppends};
ghost use Rattle.causes.specs.Causes.{HasCause};
ghost use Rattle.streams.specs.Streams.{StaysKnown, WritesSome, WritesInRoom};
ghost use Rattle.juqabhino_c.specs.Growing.{growing_state, new_growing};

use cfgfmt::{Sink, WriteFailed};
use std::alloc::Global;
use std::marker::Model;

/// A sink that keeps bytes in memory and grows with them. It fails only where memory is refused.
#[derive(Debug, Drop)]
pub struct GrowingSink {
    bytes: Vec<u8>,
    faults: u64,
}

impl Model for GrowingSink {
    ghost use Rattle.juqabhino_c.specs.Growing.{GrowingState};

    ghost Value = { GrowingState };

    ghost view = { λ s. record { bytes = s.bytes.items; faults = s.faults } };
}

impl GrowingSink {
    /// An empty sink.
    pub fn new(alloc: Global) -> Self
        ensures { result ≡ new_growing }
    {
        GrowingSink {
            bytes: Vec::new(alloc),
            faults: 0,
        }
    }

    /// The bytes written so far.
    pub fn bytes(&self) -> &[u8]
        ensures { result.now ≡ self.now.bytes }
    {
        &self.bytes
    }
}

impl Sink for GrowingSink {
    ghost state = { growing_state };

    /// Takes the whole piece.
    ///
    /// Fails where memory for it is refused, and then takes none of it.
    fn write(&mut self, piece: &[u8]) -> Result<usize, WriteFailed>
        ensures within { WritesAtMost result piece.now }
        ensures some { WritesSome result piece.now }
        ensures bytes { WriteAppends (Some self.old.bytes) (Some self.new.bytes) result piece.now }
        ensures known { StaysKnown (Some self.old.bytes) (Some self.new.bytes) }
        ensures room { WritesInRoom None None result }
        ensures cause { HasCause self.old.faults self.new.faults result }
    {
        match self.bytes.extend_from_slice(piece) {
            Ok(()) => Ok(piece.len()),
            Err(_) => {
                self.faults = self.faults.saturating_add(1);
                Err(WriteFailed)
            }
        }
    }
}
