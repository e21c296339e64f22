//! Readers and writers of which one call fails.

ghost use Rattle.std.specs.Prelude.{◌≡◌, ◌≢◌, ◌↔◌, ◌-◌, min, max, length, IsTrue, IsErr, IfOk, IfErr, OnOk};
ghost use Rattle.std.specs.Prelude.{Some, true};
ghost use Rattle.std.specs.Io.{ReadsAtMost, WritesAtMost};
ghost use Rattle.std.specs.Io.KnownBytes.{Keeps, ReadConsumes, WriteAppends};
ghost use Rattle.std.specs.IoError.{error_kind};
ghost use Rattle.cap_test_support.specs.Streams.{after_call, error_of_call, FailsInTurn};

use std::alloc::Allocator;
use std::io;
use std::io::{ErrorKind, Read, Write};

/// One call of a stream that fails, and with what. The calls after it go on as if it had not been made.
#[derive(Clone, Copy, Debug, Drop)]
pub struct Failure {
    /// The number of the call, counted from 1; 0 is none.
    pub call: u64,
    /// The error's kind.
    pub kind: ErrorKind,
}

impl Failure {
    /// No call fails.
    pub fn none() -> Failure
        ensures { result.call ≡ 0 }
    {
        Failure {
            call: 0,
            kind: ErrorKind::Other,
        }
    }

    /// The call fails for good: a broken pipe.
    pub fn at(call: u64) -> Failure
        ensures number { result.call ≡ call }
        ensures error { result.kind ≡ ErrorKind.BrokenPipe }
    {
        Failure {
            call,
            kind: ErrorKind::BrokenPipe,
        }
    }

    /// The call is interrupted, and is to be made again.
    pub fn interrupted(call: u64) -> Failure
        ensures number { result.call ≡ call }
        ensures error { result.kind ≡ ErrorKind.Interrupted }
    {
        Failure {
            call,
            kind: ErrorKind::Interrupted,
        }
    }

    // Counts a call, and answers whether it is the one that fails.
    fn count(&mut self) -> bool
        ensures fails { IsTrue result ↔ (self.old.call ≡ 1) }
        ensures counted { self.new ≡ after_call self.old }
    {
        let fails = self.call == 1;
        self.call = self.call.saturating_sub(1);
        fails
    }
}

/// A reader of these bytes, whose calls give at most so many, and of which one may fail.
#[derive(Drop)]
pub struct Source<'a> {
    /// The bytes that are still to be given.
    pub bytes: &'a [u8],
    /// The most bytes that a call gives; 0 is as 1.
    pub most: usize,
    /// The read that fails.
    pub failure: Failure,
}

impl<'a> Read for Source<'a> {
    ghost remaining = { λ source. Some source.bytes.now };

    fn read(&mut self, buf: &mut [u8]) -> io::Result<usize>
        ensures bound { ReadsAtMost result buf.new }
        ensures bytes { ReadConsumes (Some self.old.bytes.now) (Some self.new.bytes.now) result buf.new }
        ensures count { IfOk result (λ count.
            count ≡ min (min (length self.old.bytes.now) (length buf.old)) (max self.old.most 1)) }
        ensures fails { FailsInTurn self.old.failure result }
        ensures next { self.new.failure ≡ after_call self.old.failure }
        ensures most { self.new.most ≡ self.old.most }
    {
        if self.failure.count() {
            return Err(io::Error::from(self.failure.kind));
        }
        let most = self.most.max(1);
        let count = self.bytes.len().min(buf.len()).min(most);
        let (front, rest) = self.bytes.split_at(count);
        buf[..count].copy_from_slice(front);
        self.bytes = rest;
        Ok(count)
    }
}

/// A writer that keeps what it takes, whose calls take at most so many bytes, and of which one may fail.
#[derive(Drop)]
pub struct Sink<A: Allocator> {
    /// The bytes that it took.
    pub taken: Vec<u8, A>,
    /// The most bytes that a call takes.
    pub most: usize,
    /// The write that fails.
    pub failure: Failure,
    /// Whether every flush fails.
    pub flush_fails: bool,
}

impl<A: Allocator> Write for Sink<A> {
    ghost contents = { λ sink. Some sink.taken.items };

    fn write(&mut self, buf: &[u8]) -> io::Result<usize>
        ensures bound { WritesAtMost result buf.now }
        ensures bytes { WriteAppends (Some self.old.taken.items) (Some self.new.taken.items) result buf.now }
        ensures count { IfOk result (λ count. count ≡ min (length buf.now) self.old.most) }
        ensures fails { OnOk result (self.old.failure.call ≢ 1) }
        ensures error { IfErr result (λ error. error_kind error ≡ error_of_call self.old.failure) }
        ensures next { self.new.failure ≡ after_call self.old.failure }
        ensures most { self.new.most ≡ self.old.most }
        ensures flushes { self.new.flush_fails ≡ self.old.flush_fails }
    {
        if self.failure.count() {
            return Err(io::Error::from(self.failure.kind));
        }
        let count = buf.len().min(self.most);
        self.taken.extend_from_slice(&buf[..count])?;
        Ok(count)
    }

    fn flush(&mut self) -> io::Result<()>
        ensures bytes { Keeps (Some self.old.taken.items) (Some self.new.taken.items) }
        ensures fails { IsErr result ↔ (self.old.flush_fails ≡ true) }
        ensures error { IfErr result (λ error. error_kind error ≡ ErrorKind.BrokenPipe) }
    {
        if self.flush_fails {
            return Err(io::Error::from(ErrorKind::BrokenPipe));
        }
        Ok(())
    }
}
