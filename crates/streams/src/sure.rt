ghost use Rattle.std.specs.Prelude.{◌≡◌, ◌<◌, ◌↔◌, Some, Ok, length, drop, min, IfOk, IsErr};
ghost use Rattle.std.specs.Io.{ReadsAtMost, WritesAtMost};
ghost use Rattle.std.specs.Io.KnownBytes.{ReadConsumes, WriteAppends};
ghost use Rattle.causes.specs.Causes.{HasCause};
ghost use Rattle.streams.specs.Streams.{StaysKnown, WritesSome, WritesInRoom};
ghost use Rattle.streams.specs.Sure.{sure_source_state, sure_sink_state, empty_sink, fitting, after_sure_write};

use crate::memory::copy_front;
use crate::{ReadFailed, Sink, Source, WriteFailed};
use std::alloc::{AllocError, Global};
use std::marker::Model;

/// A source over bytes in memory that never fails. Contracts see it as the bytes that are left.
///
/// ```
/// let mut source = SureSource::new(b"abcd".to_vec(alloc)?);
/// let mut buffer = [0; 3];
/// assert_eq!(source.read(&mut buffer).ok(), Some(3));     // `abc`
/// assert_eq!(source.read(&mut buffer).ok(), Some(1));     // `d`
/// assert_eq!(source.read(&mut buffer).ok(), Some(0));
/// ```
#[derive(Debug, Drop)]
pub struct SureSource {
    bytes: Vec<u8>,
    at: usize,
}

impl Model for SureSource {
    ghost use Rattle.std.specs.Prelude.{ℕ, ◌≤◌, List, drop, vec_len};

    ghost Value = { List ℕ };

    ghost view = { λ s. drop s.at s.bytes.items };

    ghost invariant = { λ s. s.at ≤ vec_len s.bytes };
}

impl SureSource {
    /// A source that gives these bytes.
    pub fn new(bytes: Vec<u8>) -> Self
        ensures { result ≡ bytes.items }
    {
        SureSource { bytes, at: 0 }
    }
}

impl Source for SureSource {
    ghost state = { sure_source_state };

    /// Gives the least of the buffer's length and the bytes left. It never fails.
    fn read(&mut self, buf: &mut [u8]) -> Result<usize, ReadFailed>
        ensures within { ReadsAtMost result buf.new }
        ensures bytes { ReadConsumes (Some self.old) (Some self.new) result buf.new }
        ensures known { StaysKnown (Some self.old) (Some self.new) }
        ensures cause { HasCause 0 0 result }

        ensures count { result ≡ Ok (min (length buf.new) (length self.old)) }
        ensures after { IfOk result (λ count. self.new ≡ drop count self.old) }
    {
        let left = &self.bytes[self.at..];
        let count = buf.len().min(left.len());
        copy_front(left, buf, count);
        self.at += count;
        Ok(count)
    }
}

/// A sink that keeps bytes in memory, and fails only where it is full.
///
/// ```
/// let mut sink = SureSink::with_room(alloc, 5)?;
/// assert_eq!(sink.write(b"abc").ok(), Some(3));
/// assert_eq!(sink.write(b"def").ok(), Some(2));
/// assert_eq!(sink.write(b"f").ok(), None);
/// assert_eq!(sink.bytes(), b"abcde".as_slice());
/// ```
#[derive(Debug, Drop)]
pub struct SureSink {
    bytes: Vec<u8>,
    room: usize,
    faults: u64,
}

impl Model for SureSink {
    ghost use Rattle.std.specs.Prelude.{◌≡◌, ◌+◌, ◌<◌, ◌≤◌, vec_len, vec_capacity};
    ghost use Rattle.streams.specs.Sure.{SureSinkState};

    ghost Value = { SureSinkState };

    ghost view = { λ s. record { bytes = s.bytes.items; room = s.room; faults = s.faults } };

    ghost invariant = { λ s. (vec_len s.bytes + s.room ≤ vec_capacity s.bytes) × (0 < s.faults → s.room ≡ 0) };
}

impl SureSink {
    /// An empty sink with room for so many bytes.
    ///
    /// Fails where memory for the room is refused.
    pub fn with_room(alloc: Global, room: usize) -> Result<Self, AllocError>
        ensures { IfOk result (λ sink. sink ≡ empty_sink room) }
    {
        Ok(SureSink {
            bytes: Vec::with_capacity(alloc, room)?,
            room,
            faults: 0,
        })
    }

    /// The bytes written so far. Where a write has failed, no room is left.
    pub fn bytes(&self) -> &[u8]
        ensures bytes { result.now ≡ self.now.bytes }
        ensures full { 0 < self.now.faults → self.now.room ≡ 0 }
    {
        &self.bytes
    }
}

impl Sink for SureSink {
    ghost state = { sure_sink_state };

    /// Takes the least of the bytes handed in and the room left. It takes no memory.
    ///
    /// Fails exactly where bytes are handed in and no room is left.
    fn write(&mut self, piece: &[u8]) -> Result<usize, WriteFailed>
        ensures within { WritesAtMost result piece.now }
        ensures some { WritesSome result piece.now }
        ensures bytes { WriteAppends (Some self.old.bytes) (Some self.new.bytes) result piece.now }
        ensures known { StaysKnown (Some self.old.bytes) (Some self.new.bytes) }
        ensures room { WritesInRoom (Some self.old.room) (Some self.new.room) result }
        ensures cause { HasCause self.old.faults self.new.faults result }

        ensures fails { IsErr result ↔ ((0 < length piece.now) × (self.old.room ≡ 0)) }
        ensures count { IfOk result (λ count. count ≡ fitting self.old piece.now) }
        ensures after { self.new ≡ after_sure_write self.old piece.now result }
    {
        if !piece.is_empty() && self.room == 0 {
            self.faults = self.faults.saturating_add(1);
            return Err(WriteFailed);
        }
        let count = piece.len().min(self.room);
        match self.bytes.extend_from_slice(&piece[..count]) {
            Ok(()) => {}
            Err(_) => unreachable!(),
        }
        self.room -= count;
        Ok(count)
    }
}
