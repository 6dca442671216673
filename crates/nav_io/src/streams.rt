//! Sources, from which bytes come; sinks, which take bytes; and why a whole text was not read or written.

// Where bytes come from.
ghost use Rattle.std.specs.Prelude.{ℕ, List, Option, Result};
ghost use Rattle.std.specs.Io.{ReadsAtMost};
ghost use Rattle.std.specs.Io.KnownBytes.{ReadConsumes};
ghost use Rattle.nav_io.specs.Causes.{HasCause};

/// What gives bytes in order, some at a time.
pub trait Source {
    // The bytes that are still to come, where the source tells them.
    ghost left: { Self → Option (List ℕ) };

    // How many faults the source has met. It never falls.
    ghost faults: { Self → ℕ };

    /// Moves the next bytes into the front of `buf`, and gives their number, in bytes: at most
    /// `buf.len()`, and 0 for a `buf` that is not empty only where the input has ended.
    ///
    /// `Failed` comes only where `faults` rose in this call, and then no byte is lost.
    fn read(&mut self, buf: &mut [u8]) -> Result<usize, Failed>
        ensures bound { ReadsAtMost result buf.new }
        ensures bytes { ReadConsumes (left self.old) (left self.new) result buf.new }
        ensures cause { HasCause (faults self.old) (faults self.new) result };
}

// Where bytes go.
ghost use Rattle.std.specs.Prelude.{ℕ, List, Option, Result, length};
ghost use Rattle.std.specs.Io.{WritesAtMost};
ghost use Rattle.std.specs.Io.KnownBytes.{WriteAppends};
ghost use Rattle.nav_io.specs.Causes.{HasCause, MakesProgress};

/// What takes bytes in order, some at a time.
pub trait Sink {
    // The bytes that the sink holds, where it tells them.
    ghost held: { Self → Option (List ℕ) };

    // How many faults the sink has met. It never falls.
    ghost faults: { Self → ℕ };

    /// Takes the first bytes of `piece`, and gives their number, in bytes: at most `piece.len()`, and
    /// at least 1 where the piece is not empty.
    ///
    /// `Failed` comes only where `faults` rose in this call, and then the sink took nothing.
    fn write(&mut self, piece: &[u8]) -> Result<usize, Failed>
        ensures bound { WritesAtMost result piece.now }
        ensures some { MakesProgress result (length piece.now) }
        ensures bytes { WriteAppends (held self.old) (held self.new) result piece.now }
        ensures cause { HasCause (faults self.old) (faults self.new) result };
}

// What a source, a sink, `read_all` and `write_all` answer in place of success.

use std::alloc::AllocError;
use std::error::Error;
use std::fmt;

/// A read or a write failed, as the count of faults of its source or sink shows.
#[derive(Clone, Copy, PartialEq, Eq, Debug)]
pub struct Failed;

impl fmt::Display for Failed {
    fn fmt<W: fmt::Write>(&self, f: &mut fmt::Formatter<W>) -> fmt::Result {
        f.write_str("a read or a write failed")
    }
}

impl Error for Failed {}

/// Why `read_all` gave no bytes.
#[derive(Clone, Copy, PartialEq, Eq, Debug)]
pub enum ReadRefusal {
    /// A read failed.
    ReadFault = 1,
    /// The source had more bytes than the caller takes.
    TooLong = 2,
    /// There was no memory for the bytes.
    OutOfMemory = 3,
}

impl fmt::Display for ReadRefusal {
    fn fmt<W: fmt::Write>(&self, f: &mut fmt::Formatter<W>) -> fmt::Result {
        f.write_str(match self {
            ReadRefusal::ReadFault => "a read failed",
            ReadRefusal::TooLong => "the input is too long",
            ReadRefusal::OutOfMemory => "out of memory",
        })
    }
}

impl Error for ReadRefusal {}

impl From<AllocError> for ReadRefusal {
    ghost use Rattle.std.specs.Prelude.{◌≡◌};
    ghost use Rattle.nav_io.specs.declared.streams.ReadRefusal.{ReadRefusal};

    ghost from_gives = { λ _ refusal. refusal ≡ ReadRefusal.OutOfMemory };

    fn from(_error: AllocError) -> Self {
        ReadRefusal::OutOfMemory
    }
}

/// A write failed before `write_all` had written all bytes.
#[derive(Clone, Copy, PartialEq, Eq, Debug)]
pub struct WriteFault;

impl fmt::Display for WriteFault {
    fn fmt<W: fmt::Write>(&self, f: &mut fmt::Formatter<W>) -> fmt::Result {
        f.write_str("a write failed")
    }
}

impl Error for WriteFault {}
