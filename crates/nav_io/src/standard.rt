// A reader and a writer of the standard library as a source and a sink.
//
// They are the edge to the outside. What standard input and output hold no contract can say, so these
// tell no bytes; but what one call does to the bytes of its reader or writer stands on the call.
ghost use Rattle.std.specs.Prelude.{◌≡◌, length, None};
ghost use Rattle.std.specs.Io.{ReadsAtMost, WritesAtMost};
ghost use Rattle.std.specs.Io.KnownBytes.{ReadConsumes, WriteAppends};
ghost use Rattle.nav_io.specs.Causes.{HasCause, CountsFailures, MakesProgress};

use crate::{Failed, Sink, Source};
use std::io::{Read, Write};

/// A source over a reader. It tells no bytes.
#[derive(Drop)]
pub struct StdSource<R: Read> {
    /// The reader.
    pub inner: R,
    /// How many reads failed. It stays at the last value of its type.
    pub faults: u64,
}

impl<R: Read> StdSource<R> {
    /// A source over `inner` that has met no fault.
    pub fn new(inner: R) -> Self
        ensures inner { result.inner ≡ inner }
        ensures faults { result.faults ≡ 0 }
    {
        StdSource { inner, faults: 0 }
    }
}

impl<R: Read> Source for StdSource<R> {
    ghost use Rattle.std.specs.Prelude.{None};

    ghost left = { λ _. None };

    ghost faults = { λ source. source.faults };

    /// One read of the reader. Each error of its is a fault, also one that says that the read was
    /// interrupted.
    fn read(&mut self, buf: &mut [u8]) -> Result<usize, Failed>
        ensures bound { ReadsAtMost result buf.new }
        ensures bytes { ReadConsumes None None result buf.new }
        ensures cause { HasCause self.old.faults self.new.faults result }

        ensures passed { ReadConsumes (R.remaining self.old.inner) (R.remaining self.new.inner) result buf.new }
        ensures faults { CountsFailures self.old.faults self.new.faults result }
    {
        match self.inner.read(buf) {
            Ok(count) => Ok(count),
            Err(_) => {
                self.faults = self.faults.saturating_add(1);
                Err(Failed)
            }
        }
    }
}

/// A sink over a writer. It tells no bytes.
#[derive(Drop)]
pub struct StdSink<W: Write> {
    /// The writer.
    pub inner: W,
    /// How many writes failed. It stays at the last value of its type.
    pub faults: u64,
}

impl<W: Write> StdSink<W> {
    /// A sink over `inner` that has met no fault.
    pub fn new(inner: W) -> Self
        ensures inner { result.inner ≡ inner }
        ensures faults { result.faults ≡ 0 }
    {
        StdSink { inner, faults: 0 }
    }
}

impl<W: Write> Sink for StdSink<W> {
    ghost use Rattle.std.specs.Prelude.{None};

    ghost held = { λ _. None };

    ghost faults = { λ sink. sink.faults };

    /// One write of the writer. Each error of its is a fault, and so is a write of 0 bytes of a piece
    /// that is not empty.
    fn write(&mut self, piece: &[u8]) -> Result<usize, Failed>
        ensures bound { WritesAtMost result piece.now }
        ensures some { MakesProgress result (length piece.now) }
        ensures bytes { WriteAppends None None result piece.now }
        ensures cause { HasCause self.old.faults self.new.faults result }

        ensures passed { WriteAppends (W.contents self.old.inner) (W.contents self.new.inner) result piece.now }
        ensures faults { CountsFailures self.old.faults self.new.faults result }
    {
        match self.inner.write(piece) {
            Ok(count) if count > 0 || piece.is_empty() => Ok(count),
            _ => {
                self.faults = self.faults.saturating_add(1);
                Err(Failed)
            }
        }
    }
}
