ghost use Rattle.std.specs.Prelude.{◌≡◌, ◌<◌, ◌≤◌, ◌⊎◌, ◌↔◌, None, Some, length, take, Contains, IfOk, IsErr};
ghost use Rattle.std.specs.Io.{ReadsAtMost, WritesAtMost};
ghost use Rattle.std.specs.Io.KnownBytes.{ReadConsumes, WriteAppends};
ghost use Rattle.causes.specs.Causes.{HasCause};
ghost use Rattle.streams.specs.Streams.{StaysKnown, WritesSome, WritesInRoom};
ghost use Rattle.streams.specs.Memory.{source_state, new_source, given, after_read, sink_state, new_sink, taken, after_write};

use crate::{ReadFailed, Sink, Source, WriteFailed};
use std::alloc::{AllocError, Global};
use std::marker::Model;

/// A source over bytes in memory, which gives a piece at a time and fails in chosen calls.
///
/// ```
/// let mut source = MemSource::new(b"abcd".to_vec(alloc)?, 3, [1].to_vec(alloc)?);
/// let mut buffer = [0; 5];
/// assert_eq!(source.read(&mut buffer).ok(), Some(3));     // `abc`
/// assert_eq!(source.read(&mut buffer).ok(), None);        // call 1 fails
/// assert_eq!(source.read(&mut buffer).ok(), Some(1));     // `d`
/// ```
#[derive(Debug, Drop)]
pub struct MemSource {
    bytes: Vec<u8>,
    at: usize,
    piece: usize,
    failing: Vec<u64>,
    call: u64,
    faults: u64,
}

impl Model for MemSource {
    ghost use Rattle.std.specs.Prelude.{◌≤◌, drop, vec_len};
    ghost use Rattle.streams.specs.Memory.{MemSourceState};

    ghost Value = { MemSourceState };

    ghost view = { λ s. record { left = drop s.at s.bytes.items; piece = s.piece; failing = s.failing.items; call = s.call; faults = s.faults } };

    ghost invariant = { λ s. (s.at ≤ vec_len s.bytes) × (1 ≤ s.piece) };
}

impl MemSource {
    /// A source that gives these bytes, at most `piece` of them in a call, and fails in the calls whose numbers are in
    /// `failing`. Calls are numbered from 0, and the number stays at its last value.
    pub fn new(bytes: Vec<u8>, piece: usize, failing: Vec<u64>) -> Self
        requires { 1 ≤ piece }
        ensures { result ≡ new_source bytes.items piece failing.items }
    {
        MemSource {
            bytes,
            at: 0,
            piece,
            failing,
            call: 0,
            faults: 0,
        }
    }
}

impl Source for MemSource {
    ghost state = { source_state };

    /// Gives the least of the piece, the buffer's length and the bytes left.
    ///
    /// Fails exactly in the calls whose numbers it was given.
    fn read(&mut self, buf: &mut [u8]) -> Result<usize, ReadFailed>
        ensures within { ReadsAtMost result buf.new }
        ensures bytes { ReadConsumes (Some self.old.left) (Some self.new.left) result buf.new }
        ensures known { StaysKnown (Some self.old.left) (Some self.new.left) }
        ensures cause { HasCause self.old.faults self.new.faults result }

        ensures fails { IsErr result ↔ Contains self.old.failing self.old.call }
        ensures count { IfOk result (λ count. count ≡ given self.old (length buf.new)) }
        ensures after { self.new ≡ after_read self.old result }
    {
        let call = self.call;
        self.call = call.saturating_add(1);
        if self.failing.contains(&call) {
            self.faults = self.faults.saturating_add(1);
            return Err(ReadFailed);
        }
        let left = &self.bytes[self.at..];
        let count = self.piece.min(buf.len()).min(left.len());
        copy_front(left, buf, count);
        self.at += count;
        Ok(count)
    }
}

// Copies the first `count` bytes.
pub(crate) fn copy_front(from: &[u8], to: &mut [u8], count: usize)
    requires from { count ≤ length from.now }
    requires to { count ≤ length to.old }
    ensures { take count to.new ≡ take count from.now }
{
    to[..count].copy_from_slice(&from[..count]);
}

/// A sink that keeps bytes in memory up to a limit, takes a piece at a time and fails in chosen calls.
///
/// ```
/// let mut sink = MemSink::new(alloc, 10, 4, Vec::new(alloc))?;
/// assert_eq!(sink.write(b"abcdefgh").ok(), Some(4));
/// assert_eq!(sink.bytes(), b"abcd".as_slice());
/// ```
#[derive(Debug, Drop)]
pub struct MemSink {
    bytes: Vec<u8>,
    room: usize,
    piece: usize,
    failing: Vec<u64>,
    call: u64,
    faults: u64,
}

impl Model for MemSink {
    ghost use Rattle.std.specs.Prelude.{◌+◌, ◌≤◌, vec_len, vec_capacity};
    ghost use Rattle.streams.specs.Memory.{MemSinkState};

    ghost Value = { MemSinkState };

    ghost view = { λ s. record { bytes = s.bytes.items; room = s.room; piece = s.piece; failing = s.failing.items; call = s.call; faults = s.faults } };

    ghost invariant = { λ s. (vec_len s.bytes + s.room ≤ vec_capacity s.bytes) × (1 ≤ s.piece) };
}

impl MemSink {
    /// An empty sink with room for so many bytes, which takes at most `piece` bytes in a call and fails in the calls
    /// whose numbers are in `failing`. Calls are numbered from 0, and the number stays at its last value.
    ///
    /// Fails where memory for the room is refused.
    pub fn new(
        alloc: Global,
        room: usize,
        piece: usize,
        failing: Vec<u64>,
    ) -> Result<Self, AllocError>
        requires { 1 ≤ piece }
        ensures { IfOk result (λ sink. sink ≡ new_sink room piece failing.items) }
    {
        Ok(MemSink {
            bytes: Vec::with_capacity(alloc, room)?,
            room,
            piece,
            failing,
            call: 0,
            faults: 0,
        })
    }

    /// The bytes written so far.
    pub fn bytes(&self) -> &[u8]
        ensures { result.now ≡ self.now.bytes }
    {
        &self.bytes
    }
}

impl Sink for MemSink {
    ghost state = { sink_state };

    /// Takes the least of the piece that it was made with, the bytes handed in and the room left. It takes no memory.
    ///
    /// Fails exactly in the calls whose numbers it was given, and where bytes are handed in and no room is left.
    fn write(&mut self, piece: &[u8]) -> Result<usize, WriteFailed>
        ensures within { WritesAtMost result piece.now }
        ensures some { WritesSome result piece.now }
        ensures bytes { WriteAppends (Some self.old.bytes) (Some self.new.bytes) result piece.now }
        ensures known { StaysKnown (Some self.old.bytes) (Some self.new.bytes) }
        ensures room { WritesInRoom None None result }
        ensures cause { HasCause self.old.faults self.new.faults result }

        ensures fails { IsErr result ↔ (Contains self.old.failing self.old.call ⊎ ((0 < length piece.now) × (self.old.room ≡ 0))) }
        ensures count { IfOk result (λ count. count ≡ taken self.old piece.now) }
        ensures after { self.new ≡ after_write self.old piece.now result }
    {
        let call = self.call;
        self.call = call.saturating_add(1);
        if self.failing.contains(&call) || (!piece.is_empty() && self.room == 0) {
            self.faults = self.faults.saturating_add(1);
            return Err(WriteFailed);
        }
        let count = self.piece.min(piece.len()).min(self.room);
        match self.bytes.extend_from_slice(&piece[..count]) {
            Ok(()) => {}
            Err(_) => unreachable!(),
        }
        self.room -= count;
        Ok(count)
    }
}
