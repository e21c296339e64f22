//! Writes all bytes to a writer.

ghost use Rattle.std.specs.Prelude.{OnOk, OnErr};
ghost use Rattle.std.specs.Io.KnownBytes.{Appends};
ghost use Rattle.cap_stream.specs.Writing.{AppendsSome, IsReported};

use crate::calls::{CALLS_MAX, is_interrupted};
use crate::source_and_sink::Sink;
use thiserror::Error;

/// A write failed or took no byte, or 2^40 writes left some of the bytes.
#[derive(Clone, Copy, Debug, PartialEq, Eq, Drop, Error)]
#[error("a write failed")]
pub struct WriteFailed;

/// Writes all of the bytes, in several writes where one is short. An interrupted write is made again.
pub fn write_whole<W: Sink>(writer: &mut W, bytes: &[u8]) -> Result<(), WriteFailed>
    ensures ok { OnOk result (Appends (W.contents writer.old) (W.contents writer.new) bytes.now) }
    ensures err { OnErr result (AppendsSome (W.contents writer.old) (W.contents writer.new) bytes.now) }
    ensures reported { IsReported W.went W.failed result writer.old writer.new }
{
    let mut rest = bytes;
    for _ in 0..CALLS_MAX {
        if rest.is_empty() {
            return Ok(());
        }
        match writer.write_some(rest) {
            Ok(0) => return Err(WriteFailed),
            Ok(count) => rest = &rest[count..],
            Err(error) if is_interrupted(&error) => continue,
            Err(_) => return Err(WriteFailed),
        }
    }
    if rest.is_empty() {
        return Ok(());
    }
    Err(WriteFailed)
}
