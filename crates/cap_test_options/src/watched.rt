//! Streams that keep whether a call of theirs failed, and runs over them.
ghost use Rattle.std.specs.Prelude.{◌≡◌, Err, false, true};
ghost use Rattle.std.specs.IoError.{error_kind};
ghost use Rattle.std.specs.declared.io.ErrorKind.TheVariants.{Interrupted};

use cap_run::{
    Combination, Conversion, Encoding, Form, NoGate, Pace, ReplyForm, RunFault, combine_blobs,
    convert_blob, run_core, run_shell, run_workload, show_blob,
};
use cap_stream::{Sink, Source};
use std::alloc::Global;
use std::io;
use std::io::{ErrorKind, Read, Write};
use std::sync::Wait;
use std::thread::Threads;

/// A reader or a writer, and whether a call of it has failed. An interruption is no failure of a read or a
/// write.
#[derive(Drop)]
pub struct Watched<S> {
    pub stream: S,
    pub has_failed: bool,
}

impl<S> Watched<S> {
    pub fn new(stream: S) -> Self
        ensures fresh { result.has_failed ≡ false }
    {
        Watched {
            stream,
            has_failed: false,
        }
    }

    // Keeps that a read or a write failed with this error, unless it was interrupted.
    fn keep(&mut self, error: &io::Error)
        ensures stream { self.new.stream ≡ self.old.stream }
        ensures interrupted { error_kind error.now ≡ Interrupted → self.new.has_failed ≡ self.old.has_failed }
        ensures failed { (error_kind error.now ≡ Interrupted → ⊥) → self.new.has_failed ≡ true }
    {
        if error.kind() != ErrorKind::Interrupted {
            self.has_failed = true;
        }
    }
}

impl<R: Read> Source for Watched<R> {
    ghost use Rattle.std.specs.Prelude.{◌≡◌, true};

    ghost remaining = { λ watched. R.Read.remaining watched.stream };

    ghost gave = { λ old new. new.has_failed ≡ old.has_failed };

    ghost failed = { λ old new. new.has_failed ≡ true };

    fn read_some(&mut self, piece: &mut [u8]) -> io::Result<usize> {
        match self.stream.read(piece) {
            Ok(count) => Ok(count),
            Err(error) => {
                self.keep(&error);
                Err(error)
            }
        }
    }
}

impl<W: Write> Sink for Watched<W> {
    ghost use Rattle.std.specs.Prelude.{◌≡◌, true};

    ghost contents = { λ watched. W.Write.contents watched.stream };

    ghost went = { λ old new. new.has_failed ≡ old.has_failed };

    ghost failed = { λ old new. new.has_failed ≡ true };

    fn write_some(&mut self, bytes: &[u8]) -> io::Result<usize> {
        match self.stream.write(bytes) {
            Ok(count) => {
                if count == 0 {
                    self.has_failed = true;
                }
                Ok(count)
            }
            Err(error) => {
                self.keep(&error);
                Err(error)
            }
        }
    }

    fn flush_all(&mut self) -> io::Result<()> {
        match self.stream.flush() {
            Ok(()) => Ok(()),
            Err(error) => {
                self.has_failed = true;
                Err(error)
            }
        }
    }
}

/// Runs a workload on one thread. A call of the streams that failed is what the run reports.
pub fn run_watched<R: Read, W: Write>(
    alloc: Global,
    reader: &mut Watched<R>,
    writer: &mut Watched<W>,
) -> Result<(), RunFault>
    requires reader { reader.old.has_failed ≡ false }
    requires writer { writer.old.has_failed ≡ false }
    ensures read { reader.new.has_failed ≡ true → result ≡ Err RunFault.Read }
    ensures write { writer.new.has_failed ≡ true → result ≡ Err RunFault.Write }
{
    run_core(alloc, ReplyForm::Text, reader, writer)
}

/// Runs a workload on the server that threads share, with one worker. A call of the streams that failed is
/// what the run reports.
pub fn serve_watched<T: Threads + Wait + Sync, R: Read, W: Write>(
    rt: &T,
    alloc: Global,
    reader: &mut Watched<R>,
    writer: &mut Watched<W>,
) -> Result<(), RunFault>
    requires reader { reader.old.has_failed ≡ false }
    requires writer { writer.old.has_failed ≡ false }
    ensures read { reader.new.has_failed ≡ true → result ≡ Err RunFault.Read }
    ensures write { writer.new.has_failed ≡ true → result ≡ Err RunFault.Write }
{
    let form = ReplyForm::Text;
    run_workload(rt, alloc, &NoGate, 1, Pace::Free, form, reader, writer)
}

/// Runs a shell. A call of the streams that failed is what the shell reports.
pub fn shell_watched<R: Read, W: Write, E: Write>(
    alloc: Global,
    reader: &mut Watched<R>,
    replies: &mut Watched<W>,
    faults: &mut Watched<E>,
) -> Result<(), RunFault>
    requires reader { reader.old.has_failed ≡ false }
    requires replies { replies.old.has_failed ≡ false }
    requires faults { faults.old.has_failed ≡ false }
    ensures read { reader.new.has_failed ≡ true → result ≡ Err RunFault.Read }
    ensures write_replies { replies.new.has_failed ≡ true → result ≡ Err RunFault.Write }
    ensures write_faults { faults.new.has_failed ≡ true → result ≡ Err RunFault.Write }
{
    run_shell(alloc, reader, replies, faults)
}

/// Shows a blob. A call of the streams that failed is what the run reports.
pub fn show_watched<R: Read, W: Write>(
    alloc: Global,
    reader: &mut Watched<R>,
    writer: &mut Watched<W>,
) -> Result<(), RunFault>
    requires reader { reader.old.has_failed ≡ false }
    requires writer { writer.old.has_failed ≡ false }
    ensures read { reader.new.has_failed ≡ true → result ≡ Err RunFault.Read }
    ensures write { writer.new.has_failed ≡ true → result ≡ Err RunFault.Write }
{
    show_blob(alloc, Form::Text, Encoding::Hex, reader, writer)
}

/// Converts a changeset. A call of the streams that failed is what the run reports.
pub fn convert_watched<R: Read, W: Write>(
    alloc: Global,
    conversion: Conversion,
    reader: &mut Watched<R>,
    writer: &mut Watched<W>,
) -> Result<(), RunFault>
    requires reader { reader.old.has_failed ≡ false }
    requires writer { writer.old.has_failed ≡ false }
    ensures read { reader.new.has_failed ≡ true → result ≡ Err RunFault.Read }
    ensures write { writer.new.has_failed ≡ true → result ≡ Err RunFault.Write }
{
    convert_blob(alloc, conversion, reader, writer)
}

/// Concatenates or rebases blobs. A call of the streams that failed is what the run reports.
pub fn combine_watched<R: Read, W: Write>(
    alloc: Global,
    combination: Combination,
    reader: &mut Watched<R>,
    writer: &mut Watched<W>,
) -> Result<(), RunFault>
    requires reader { reader.old.has_failed ≡ false }
    requires writer { writer.old.has_failed ≡ false }
    ensures read { reader.new.has_failed ≡ true → result ≡ Err RunFault.Read }
    ensures write { writer.new.has_failed ≡ true → result ≡ Err RunFault.Write }
{
    combine_blobs(alloc, combination, reader, writer)
}
