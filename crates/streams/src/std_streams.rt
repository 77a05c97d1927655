ghost use Rattle.std.specs.Prelude.{◌≡◌, length, None};
ghost use Rattle.std.specs.Io.{ReadsAtMost, WritesAtMost};
ghost use Rattle.std.specs.Io.KnownBytes.{ReadConsumes, WriteAppends};
ghost use Rattle.causes.specs.Causes.{HasCause};
ghost use Rattle.streams.specs.Streams.{StaysKnown, WritesSome, WritesInRoom};
ghost use Rattle.streams.specs.StdStreams.{reader_of, read_faults, std_source_state, writer_of, write_faults, std_sink_state};

use crate::{ReadFailed, Sink, Source, WriteFailed};
use std::io::{Read, Write};

/// A reader of the standard library as a source. Its content is not known, and each error of the reader is a fault.
#[derive(Debug, Drop)]
pub struct StdSource<R> {
    reader: R,
    faults: u64,
}

impl<R: Read> StdSource<R> {
    /// The reader, with no fault so far.
    pub fn new(reader: R) -> Self
        ensures reader { reader_of result ≡ reader }
        ensures faults { read_faults result ≡ 0 }
    {
        StdSource { reader, faults: 0 }
    }
}

impl<R: Read> Source for StdSource<R> {
    ghost state = { std_source_state };

    /// Reads from the reader, once. Fails where the reader does.
    fn read(&mut self, buf: &mut [u8]) -> Result<usize, ReadFailed>
        ensures within { ReadsAtMost result buf.new }
        ensures bytes { ReadConsumes None None result buf.new }
        ensures known { StaysKnown None None }
        ensures cause { HasCause (read_faults self.old) (read_faults self.new) result }

        // What is known of the reader's content is passed on as it gave it.
        ensures passed_on { ReadConsumes (R.remaining (reader_of self.old)) (R.remaining (reader_of self.new)) result buf.new }
    {
        match self.reader.read(buf) {
            Ok(count) => Ok(count),
            Err(_) => {
                self.faults = self.faults.saturating_add(1);
                Err(ReadFailed)
            }
        }
    }
}

/// A writer of the standard library as a sink. Its content is not known. Each error of the writer is a fault, and so
/// is an answer that it took nothing of a piece that is not empty.
#[derive(Debug, Drop)]
pub struct StdSink<W> {
    writer: W,
    faults: u64,
}

impl<W: Write> StdSink<W> {
    /// The writer, with no fault so far.
    pub fn new(writer: W) -> Self
        ensures writer { writer_of result ≡ writer }
        ensures faults { write_faults result ≡ 0 }
    {
        StdSink { writer, faults: 0 }
    }
}

impl<W: Write> Sink for StdSink<W> {
    ghost state = { std_sink_state };

    /// Writes to the writer, once. Fails where the writer does, or takes nothing of a piece that is not empty.
    fn write(&mut self, piece: &[u8]) -> Result<usize, WriteFailed>
        ensures within { WritesAtMost result piece.now }
        ensures some { WritesSome result piece.now }
        ensures bytes { WriteAppends None None result piece.now }
        ensures known { StaysKnown None None }
        ensures room { WritesInRoom None None result }
        ensures cause { HasCause (write_faults self.old) (write_faults self.new) result }

        // The writer was handed the piece, and holds what it took of it.
        ensures passed_on { WriteAppends (W.contents (writer_of self.old)) (W.contents (writer_of self.new)) result piece.now }
    {
        match self.writer.write(piece) {
            Ok(count) if count > 0 || piece.is_empty() => Ok(count),
            _ => {
                self.faults = self.faults.saturating_add(1);
                Err(WriteFailed)
            }
        }
    }
}
