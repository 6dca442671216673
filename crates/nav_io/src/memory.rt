// A source and a sink in memory, whose reads and writes come in pieces and fail where they are told to.
ghost use Rattle.std.specs.Prelude.{◌≡◌, ◌+◌, ◌-◌, ◌<◌, ◌≤◌, ◌↔◌, ◌⊎◌, length, take, drop, min, Some, IsTrue, IsErr, IfOk, OnErr, MatchResult, Contains, [], vec_len, vec_capacity};
ghost use Rattle.std.specs.Io.{ReadsAtMost, WritesAtMost};
ghost use Rattle.std.specs.Io.KnownBytes.{ReadConsumes, WriteAppends};
ghost use Rattle.nav_io.specs.Causes.{HasCause, CountsFailures, MakesProgress};
ghost use Rattle.nav_io.specs.Memory.{next_call, given_count, rest_from};

use crate::{Failed, Sink, Source};
use std::alloc::{AllocError, Global};

/// A source that gives the bytes of a vector in pieces, and fails at chosen calls.
///
/// `calls` and `faults` stay at the greatest value of their type once they have reached it.
#[derive(Drop)]
pub struct MemorySource {
    /// All bytes, those that were given already included.
    pub bytes: Vec<u8>,
    /// How many bytes were given, from the first.
    pub at: usize,
    /// The most bytes that one read gives, at least 1.
    pub piece: usize,
    /// The numbers of the reads that fail; the first read has number 1.
    pub fails: Vec<u32>,
    /// How many reads there were.
    pub calls: u32,
    /// How many reads failed.
    pub faults: u64,
    ghost there: { at ≤ vec_len bytes },
    ghost some: { 0 < piece },
}

impl MemorySource {
    /// A source of `bytes`, from the first, which gives at most `piece` bytes at a read and fails
    /// exactly at the reads whose numbers, from 1, are in `fails`.
    pub fn new(bytes: Vec<u8>, piece: usize, fails: Vec<u32>) -> Self
        requires { 0 < piece }
        ensures bytes { result.bytes ≡ bytes }
        ensures at { result.at ≡ 0 }
        ensures piece { result.piece ≡ piece }
        ensures fails { result.fails ≡ fails }
        ensures calls { result.calls ≡ 0 }
        ensures faults { result.faults ≡ 0 }
    {
        MemorySource {
            bytes,
            at: 0,
            piece,
            fails,
            calls: 0,
            faults: 0,
        }
    }
}

impl Source for MemorySource {
    ghost use Rattle.nav_io.specs.Memory.{rest_from};

    ghost left = { λ source. rest_from source.at source.bytes.items };

    ghost faults = { λ source. source.faults };

    fn read(&mut self, buf: &mut [u8]) -> Result<usize, Failed>
        ensures bound { ReadsAtMost result buf.new }
        ensures bytes { ReadConsumes (rest_from self.old.at self.old.bytes.items)
            (rest_from self.new.at self.new.bytes.items) result buf.new }
        ensures cause { HasCause self.old.faults self.new.faults result }

        // The call fails exactly where its number is among those that are to fail.
        ensures failed { IsErr result ↔ Contains self.old.fails.items self.new.calls }
        ensures given { IfOk result (λ count. count
            ≡ given_count self.old.piece (length buf.old) (vec_len self.old.bytes - self.old.at)) }

        ensures calls { self.new.calls ≡ next_call self.old.calls }
        ensures faults { CountsFailures self.old.faults self.new.faults result }
        ensures at { MatchResult result
            (λ count. self.new.at ≡ self.old.at + count) (λ _. self.new.at ≡ self.old.at) }
        ensures same_bytes { self.new.bytes ≡ self.old.bytes }
        ensures same_piece { self.new.piece ≡ self.old.piece }
        ensures same_fails { self.new.fails ≡ self.old.fails }

        ensures rest { IfOk result (λ count. drop count buf.new ≡ drop count buf.old) }
        ensures lent { OnErr result (buf.new ≡ buf.old) }
    {
        self.calls = self.calls.saturating_add(1);
        if self.fails.contains(&self.calls) {
            self.faults = self.faults.saturating_add(1);
            return Err(Failed);
        }
        let count = copy_front(&self.bytes[self.at..], self.piece, buf);
        self.at += count;
        Ok(count)
    }
}

/// Copies the first of `bytes` to the front of `buf`, at most `piece` of them, and gives their number.
pub(crate) fn copy_front(bytes: &[u8], piece: usize, buf: &mut [u8]) -> usize
    ensures count { result ≡ given_count piece (length buf.old) (length bytes.now) }
    ensures front { take result buf.new ≡ take result bytes.now }
    ensures rest { drop result buf.new ≡ drop result buf.old }
{
    let count = piece.min(buf.len()).min(bytes.len());
    buf[..count].copy_from_slice(&bytes[..count]);
    count
}

/// A sink that keeps what it takes, in pieces, and fails at chosen calls and where its room ends.
///
/// `calls` and `faults` stay at the greatest value of their type once they have reached it.
#[derive(Drop)]
pub struct MemorySink {
    /// The bytes that the sink took, in order.
    pub bytes: Vec<u8>,
    /// The most bytes that one write takes, at least 1.
    pub piece: usize,
    /// The most bytes that the sink holds. Memory for them is reserved.
    pub room: usize,
    /// The numbers of the writes that fail; the first write has number 1.
    pub fails: Vec<u32>,
    /// How many writes there were.
    pub calls: u32,
    /// How many writes failed.
    pub faults: u64,
    ghost reserved: { room ≤ vec_capacity bytes },
    ghost within: { vec_len bytes ≤ room },
    ghost some: { 0 < piece },
}

impl MemorySink {
    /// An empty sink with `room` bytes reserved, which takes at most `piece` bytes at a write and
    /// fails exactly at the writes whose numbers, from 1, are in `fails`, and at those whose bytes
    /// would pass the room.
    pub fn with_room(
        alloc: Global,
        piece: usize,
        room: usize,
        fails: Vec<u32>,
    ) -> Result<Self, AllocError>
        requires { 0 < piece }
        ensures bytes { IfOk result (λ sink. sink.bytes.items ≡ []) }
        ensures piece { IfOk result (λ sink. sink.piece ≡ piece) }
        ensures room { IfOk result (λ sink. sink.room ≡ room) }
        ensures fails { IfOk result (λ sink. sink.fails ≡ fails) }
        ensures calls { IfOk result (λ sink. sink.calls ≡ 0) }
        ensures faults { IfOk result (λ sink. sink.faults ≡ 0) }
    {
        let bytes = Vec::with_capacity(alloc, room)?;
        Ok(MemorySink {
            bytes,
            piece,
            room,
            fails,
            calls: 0,
            faults: 0,
        })
    }

    /// What the sink holds: the bytes that it took, in order.
    pub fn bytes(&self) -> &[u8]
        ensures { result.now ≡ self.now.bytes.items }
    {
        self.bytes.as_slice()
    }

    /// Whether the call with the number `calls`, which would take `count` bytes, is one that fails.
    fn refuses(&self, count: usize) -> bool
        ensures { IsTrue result ↔ (Contains self.now.fails.items self.now.calls
            ⊎ (self.now.room < vec_len self.now.bytes + count)) }
    {
        self.fails.contains(&self.calls) || count > self.room - self.bytes.len()
    }
}

impl Sink for MemorySink {
    ghost use Rattle.std.specs.Prelude.{Some};

    ghost held = { λ sink. Some sink.bytes.items };

    ghost faults = { λ sink. sink.faults };

    fn write(&mut self, piece: &[u8]) -> Result<usize, Failed>
        ensures bound { WritesAtMost result piece.now }
        ensures some { MakesProgress result (length piece.now) }
        ensures bytes { WriteAppends (Some self.old.bytes.items) (Some self.new.bytes.items) result piece.now }
        ensures cause { HasCause self.old.faults self.new.faults result }

        // The call fails exactly where its number is among those that are to fail, and where its bytes
        // would pass the room.
        ensures failed { IsErr result ↔ (Contains self.old.fails.items self.new.calls
            ⊎ (self.old.room < vec_len self.old.bytes + min (length piece.now) self.old.piece)) }
        ensures taken { IfOk result (λ count. count ≡ min (length piece.now) self.old.piece) }

        ensures calls { self.new.calls ≡ next_call self.old.calls }
        ensures faults { CountsFailures self.old.faults self.new.faults result }
        ensures same_piece { self.new.piece ≡ self.old.piece }
        ensures same_room { self.new.room ≡ self.old.room }
        ensures same_fails { self.new.fails ≡ self.old.fails }
    {
        self.calls = self.calls.saturating_add(1);
        let count = piece.len().min(self.piece);
        if self.refuses(count) {
            self.faults = self.faults.saturating_add(1);
            return Err(Failed);
        }
        // The room is reserved, so this takes no memory.
        self.bytes.extend_from_slice(&piece[..count]).unwrap();
        Ok(count)
    }
}
