ghost use Rattle.std.specs.Io.{WritesAtMost};
ghost use Rattle.std.specs.Io.KnownBytes.{WriteAppends};
ghost use Rattle.causes.specs.Causes.{HasCause};
ghost use Rattle.streams.specs.Streams.{SinkState, StaysKnown, WritesSome, WritesInRoom};

use thiserror::Error;

/// A sink could not be written to.
#[derive(Debug, Drop, Error)]
#[error("the sink could not be written to")]
pub struct WriteFailed;

/// What bytes are written to.
pub trait Sink {
    /// The bytes written so far, where the sink's content is known, how often writing has failed, and how many bytes
    /// more are taken, where writing fails for want of room alone.
    ghost state: { Self → SinkState };

    /// Writes a front of the piece and answers how many bytes it wrote: at least one of a piece that is not empty.
    ///
    /// Fails only where the count of faults rises, or stands at its last value, and then writes nothing. Where the room
    /// is known, it fails only where none is left.
    fn write(&mut self, piece: &[u8]) -> Result<usize, WriteFailed>
        ensures within { WritesAtMost result piece.now }
        ensures some { WritesSome result piece.now }
        ensures bytes { WriteAppends (state self.old).written (state self.new).written result piece.now }
        ensures known { StaysKnown (state self.old).written (state self.new).written }
        ensures room { WritesInRoom (state self.old).room (state self.new).room result }
        ensures cause { HasCause (state self.old).faults (state self.new).faults result };
}
