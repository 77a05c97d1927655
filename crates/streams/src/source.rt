ghost use Rattle.std.specs.Io.{ReadsAtMost};
ghost use Rattle.std.specs.Io.KnownBytes.{ReadConsumes};
ghost use Rattle.causes.specs.Causes.{HasCause};
ghost use Rattle.streams.specs.Streams.{SourceState, StaysKnown};

use thiserror::Error;

/// A source could not be read.
#[derive(Debug, Drop, Error)]
#[error("the source could not be read")]
pub struct ReadFailed;

/// What bytes are read from.
pub trait Source {
    /// The bytes still to come, where the source's content is known, and how often reading has failed.
    ghost state: { Self → SourceState };

    /// Reads into the front of the buffer and answers how many bytes it read. With a buffer that is not empty, 0 is
    /// the end of the input.
    ///
    /// Fails only where the count of faults rises, or stands at its last value, and then takes no byte.
    fn read(&mut self, buf: &mut [u8]) -> Result<usize, ReadFailed>
        ensures within { ReadsAtMost result buf.new }
        ensures bytes { ReadConsumes (state self.old).left (state self.new).left result buf.new }
        ensures known { StaysKnown (state self.old).left (state self.new).left }
        ensures cause { HasCause (state self.old).faults (state self.new).faults result };
}
