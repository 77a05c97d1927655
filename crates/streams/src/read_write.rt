ghost use Rattle.std.specs.Prelude.{◌≡◌, ◌+◌, ◌<◌, ◌≤◌, length, vec_len, IfOk, IfErr, IsOk, OnOk, OnErr, IsErrOf};
ghost use Rattle.streams.specs.Streams.{StaysKnown, Fits};
ghost use Rattle.streams.specs.ReadWrite.{ReadsAll, TakesCount, TakesAtMost, CountsFault, WritesWhole, WritesFront};

use crate::{ReadFailed, Sink, Source, WriteFailed};
use std::alloc::{AllocError, Global};
use thiserror::Error;

/// How many bytes are read at a time.
const CHUNK: usize = 8192;

/// Why a source was not read whole.
#[derive(Debug, Drop, Error)]
pub enum ReadRefused {
    /// A read failed.
    #[error("the source could not be read")]
    Failed,
    /// More bytes came than may be read.
    #[error("more bytes came than may be read")]
    TooLong,
    /// Memory for the bytes was refused.
    #[error("memory was refused")]
    Memory(AllocError),
}

/// Reads a source to its end, or until one byte more has come than `most`, the number of bytes that may be read.
///
/// `Failed` comes at once where a read fails, `TooLong` where more than `most` bytes came, and `Memory` where memory
/// for the bytes was refused. Whatever is answered, bytes that were taken are a front of what was left.
///
/// ```
/// let mut source = MemSource::new(b"abcdefg".to_vec(alloc)?, 3, Vec::new(alloc));
/// assert_eq!(read_whole(alloc, &mut source, 7)?.as_slice(), b"abcdefg".as_slice());
/// ```
pub fn read_whole<S: Source>(
    alloc: Global,
    source: &mut S,
    most: usize,
) -> Result<Vec<u8>, ReadRefused>
    requires { most < usize.MAX }
    ensures all { IfOk result (λ bytes. ReadsAll (S.state source.old) (S.state source.new) bytes.items) }
    ensures most { IfOk result (λ bytes. vec_len bytes ≤ most) }

    ensures too_long { IsErrOf result ReadRefused.TooLong → TakesCount (S.state source.old) (S.state source.new) (most + 1) }
    ensures cause { IfErr result (CountsFault (S.state source.old) (S.state source.new)) }

    ensures taken { TakesAtMost (S.state source.old) (S.state source.new) (most + 1) }
    ensures known { StaysKnown (S.state source.old).left (S.state source.new).left }
    ensures later { (S.state source.old).faults ≤ (S.state source.new).faults }
{
    let mut bytes = Vec::new(alloc);
    let mut chunk = [0; CHUNK];
    while bytes.len() <= most {
        let room = CHUNK.min(most + 1 - bytes.len());
        let count = match source.read(&mut chunk[..room]) {
            Ok(count) => count,
            Err(_) => return Err(ReadRefused::Failed),
        };
        if count == 0 {
            return Ok(bytes);
        }
        if let Err(refused) = bytes.extend_from_slice(&chunk[..count]) {
            return Err(ReadRefused::Memory(refused));
        }
    }
    Err(ReadRefused::TooLong)
}

/// Writes all the bytes. Each call of the sink is given all that is left, and none is made where nothing is left.
///
/// Fails at once where a write fails; a front of the bytes is then written, and not the whole of them. It does not fail
/// where the sink's room is known and the bytes fit.
///
/// ```
/// let mut sink = MemSink::new(alloc, 10, 4, Vec::new(alloc))?;
/// write_whole(&mut sink, b"abcdefg")?;
/// assert_eq!(sink.bytes(), b"abcdefg".as_slice());
/// ```
pub fn write_whole<K: Sink>(sink: &mut K, bytes: &[u8]) -> Result<(), WriteFailed>
    ensures whole { OnOk result (WritesWhole (K.state sink.old) (K.state sink.new) bytes.now) }
    ensures front { OnErr result (WritesFront (K.state sink.old) (K.state sink.new) bytes.now) }
    ensures fits { Fits (K.state sink.old).room (length bytes.now) → IsOk result }
    ensures idle { length bytes.now ≡ 0 → sink.new ≡ sink.old }
    ensures known { StaysKnown (K.state sink.old).written (K.state sink.new).written }
    ensures later { (K.state sink.old).faults ≤ (K.state sink.new).faults }
{
    let mut at = 0;
    while at < bytes.len() {
        at += sink.write(&bytes[at..])?;
    }
    Ok(())
}
