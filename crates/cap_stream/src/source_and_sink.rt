//! Readers and writers, with what contracts know of each call.

ghost use Rattle.std.specs.Prelude.{◌≤◌, ℕ, List, Option, length};
ghost use Rattle.std.specs.Io.{ReadsAtMost, WritesAtMost};
ghost use Rattle.std.specs.Io.KnownBytes.{Keeps, ReadConsumes, WriteAppends};
ghost use Rattle.cap_stream.specs.StreamCalls.{ReportsFlush, ReportsRead, ReportsWrite};

use std::io;
use std::io::{Read, Write};

/// A reader. Each `Read` is one, of which no contract knows the outcome of a read; a reader whose
/// outcomes are known states them in `gave` and `failed`.
pub trait Source {
    // The bytes that reads will give from here on, where they are known.
    ghost remaining: { Self → Option (List ℕ) };
    // What is known of a read that gave bytes or was interrupted, by the states before and after it.
    ghost gave: { Self → Self → Type 0 };
    // What is known of a read that failed.
    ghost failed: { Self → Self → Type 0 };

    /// One read, as `Read::read` makes it. An error other than an interruption is a failed read.
    fn read_some(&mut self, piece: &mut [u8]) -> io::Result<usize>
        ensures bound { ReadsAtMost result piece.new }
        ensures bytes { ReadConsumes (remaining self.old) (remaining self.new) result piece.new }
        ensures reported { ReportsRead gave failed result self.old self.new };
}

impl<R: Read> Source for R {
    ghost use Rattle.std.specs.Prelude.{⊤};

    ghost remaining = { λ reader. R.Read.remaining reader };

    ghost gave = { λ _ _. ⊤ };

    ghost failed = { λ _ _. ⊤ };

    fn read_some(&mut self, piece: &mut [u8]) -> io::Result<usize> {
        self.read(piece)
    }
}

/// A writer. Each `Write` is one, of which no contract knows the outcome of a call; a writer whose outcomes are
/// known states them in `went` and `failed`.
pub trait Sink {
    // The bytes that the writer holds, where they are known.
    ghost contents: { Self → Option (List ℕ) };
    // What is known of a write that took some bytes or was interrupted, and of a flush without an error, by
    // the states before and after it.
    ghost went: { Self → Self → Type 0 };
    // What is known of a write or a flush that failed.
    ghost failed: { Self → Self → Type 0 };

    /// One write of at least one byte, as `Write::write` makes it. An error other than an interruption, and 0
    /// bytes, are a failed write.
    fn write_some(&mut self, bytes: &[u8]) -> io::Result<usize>
        requires { 1 ≤ length bytes.now }
        ensures bound { WritesAtMost result bytes.now }
        ensures bytes { WriteAppends (contents self.old) (contents self.new) result bytes.now }
        ensures reported { ReportsWrite went failed result self.old self.new };

    /// One flush, as `Write::flush` makes it.
    fn flush_all(&mut self) -> io::Result<()>
        ensures bytes { Keeps (contents self.old) (contents self.new) }
        ensures reported { ReportsFlush went failed result self.old self.new };
}

impl<W: Write> Sink for W {
    ghost use Rattle.std.specs.Prelude.{⊤};

    ghost contents = { λ writer. W.Write.contents writer };

    ghost went = { λ _ _. ⊤ };

    ghost failed = { λ _ _. ⊤ };

    fn write_some(&mut self, bytes: &[u8]) -> io::Result<usize> {
        self.write(bytes)
    }

    fn flush_all(&mut self) -> io::Result<()> {
        self.flush()
    }
}
