// A source and a sink that never fail.
ghost use Rattle.std.specs.Prelude.{◌≡◌, ◌+◌, ◌-◌, ◌<◌, ◌≤◌, drop, length, vec_len, IsOk, IfOk, None, Ok};
ghost use Rattle.std.specs.Io.{ReadsAtMost, WritesAtMost};
ghost use Rattle.std.specs.Io.KnownBytes.{ReadConsumes, WriteAppends};
ghost use Rattle.nav_io.specs.Causes.{HasCause, MakesProgress};
ghost use Rattle.nav_io.specs.Memory.{given_count, rest_from};

use crate::memory::copy_front;
use crate::{Failed, Sink, Source};

/// A source that gives the bytes of a vector in pieces, and never fails.
#[derive(Drop)]
pub struct CalmSource {
    /// All bytes, those that were given already included.
    pub bytes: Vec<u8>,
    /// How many bytes were given, from the first.
    pub at: usize,
    /// The most bytes that one read gives, at least 1.
    pub piece: usize,
    ghost there: { at ≤ vec_len bytes },
    ghost some: { 0 < piece },
}

impl CalmSource {
    /// A source of `bytes`, from the first, which gives at most `piece` bytes at a read.
    pub fn new(bytes: Vec<u8>, piece: usize) -> Self
        requires { 0 < piece }
        ensures bytes { result.bytes ≡ bytes }
        ensures at { result.at ≡ 0 }
        ensures piece { result.piece ≡ piece }
    {
        CalmSource {
            bytes,
            at: 0,
            piece,
        }
    }
}

impl Source for CalmSource {
    ghost use Rattle.nav_io.specs.Memory.{rest_from};

    ghost left = { λ source. rest_from source.at source.bytes.items };

    ghost faults = { λ _. 0 };

    fn read(&mut self, buf: &mut [u8]) -> Result<usize, Failed>
        ensures bound { ReadsAtMost result buf.new }
        ensures bytes { ReadConsumes (rest_from self.old.at self.old.bytes.items)
            (rest_from self.new.at self.new.bytes.items) result buf.new }
        ensures cause { HasCause 0 0 result }

        ensures given { result
            ≡ Ok (given_count self.old.piece (length buf.old) (vec_len self.old.bytes - self.old.at)) }
        ensures at { IfOk result (λ count. self.new.at ≡ self.old.at + count) }
        ensures same_bytes { self.new.bytes ≡ self.old.bytes }
        ensures same_piece { self.new.piece ≡ self.old.piece }
        ensures rest { IfOk result (λ count. drop count buf.new ≡ drop count buf.old) }
    {
        let count = copy_front(&self.bytes[self.at..], self.piece, buf);
        self.at += count;
        Ok(count)
    }
}

/// A sink that takes every piece whole, never fails, and keeps and tells no byte.
#[derive(Clone, Copy)]
pub struct CalmSink;

impl Sink for CalmSink {
    ghost use Rattle.std.specs.Prelude.{None};

    ghost held = { λ _. None };

    ghost faults = { λ _. 0 };

    fn write(&mut self, piece: &[u8]) -> Result<usize, Failed>
        ensures bound { WritesAtMost result piece.now }
        ensures some { MakesProgress result (length piece.now) }
        ensures bytes { WriteAppends None None result piece.now }
        ensures cause { HasCause 0 0 result }

        ensures whole { result ≡ Ok (length piece.now) }
    {
        Ok(piece.len())
    }
}
