//! Blobs from readers and to writers.

ghost use Rattle.std.specs.Prelude.{◌≡◌, IfSome, IfErr, OnOk};
ghost use Rattle.std.specs.Io.KnownBytes.{Appends};
ghost use Rattle.cap_codec.specs.BlobReading.{blob_at};
ghost use Rattle.cap_codec.specs.Changeset.{list_bytes};
ghost use Rattle.cap_codec.specs.Patchset.{patch_list_bytes};
ghost use Rattle.cap_codec.specs.Stream.{IsBlobOf, EndsReads, EndsWrites, WritesFront};

use crate::decoder::Decoder;
use crate::read::Contents;
use crate::write::{write_changes, write_patches};
use cap_changes::{ChangeList, PatchList};
use cap_field::BlobFault;
use cap_stream::{CALLS_MAX, Sink, Source, is_interrupted, write_whole};
use cap_value::{AllocHandle, Fault};
use thiserror::Error;

// The greatest number of bytes of one read.
const PIECE_LEN: usize = 4096;

/// Why no blob was read.
#[derive(Clone, Copy, Debug, PartialEq, Eq, Drop, Error)]
pub enum ReadFault {
    /// The bytes are no blob.
    #[error(transparent)]
    Blob(BlobFault),
    /// A read failed, or the reader had not ended after 2^40 reads.
    #[error("a read failed")]
    Read,
    /// Out of memory.
    #[error("no memory for the blob")]
    Memory,
}

impl From<Fault<BlobFault>> for ReadFault {
    ghost use Rattle.std.specs.Prelude.{◌≡◌};
    ghost use Rattle.cap_codec.specs.Stream.{read_fault};

    ghost from_gives = { λ fault answered. answered ≡ read_fault fault };

    fn from(fault: Fault<BlobFault>) -> ReadFault {
        match fault {
            Fault::Refused(fault) => ReadFault::Blob(fault),
            Fault::OutOfMemory => ReadFault::Memory,
        }
    }
}

/// Why a list was not written, or only in part.
#[derive(Clone, Copy, Debug, PartialEq, Eq, Drop, Error)]
pub enum WriteFault {
    /// A write failed or took no byte, or 2^40 writes left some of the bytes. A prefix of them was written.
    #[error("a write failed")]
    Write,
    /// Out of memory. Nothing was written.
    #[error("no memory for the bytes")]
    Memory,
}

/// The contents of the bytes from a reader, read in pieces of at most 4,096 bytes to the end, or to the piece
/// that shows a fault. An interrupted read is tried again.
pub fn read_from<A: AllocHandle, R: Source>(
    alloc: A,
    reader: &mut R,
) -> Result<Contents<A>, ReadFault>
    ensures blob { IfSome (R.remaining reader.old) (λ given. IsBlobOf result (blob_at given)) }
    // Which answer comes when, and what was read until then, as far as the outcomes of the reads are known.
    ensures reported { EndsReads A R.remaining R.gave R.failed result reader.old reader.new }
{
    let mut piece = [0u8; PIECE_LEN];
    let mut decoder = Decoder::new(alloc);
    for _ in 0..CALLS_MAX {
        let count = match reader.read_some(&mut piece) {
            Ok(count) => count,
            Err(error) => {
                if is_interrupted(&error) {
                    continue;
                }
                return Err(ReadFault::Read);
            }
        };
        if count == 0 {
            return Ok(decoder.finish()?);
        }
        decoder.feed(&piece[..count])?;
    }
    Err(ReadFault::Read)
}

/// Writes the bytes of a changeset, as `write_changes` gives them. An interrupted write is made again.
pub fn write_changes_to<A: AllocHandle, W: Sink>(
    alloc: A,
    writer: &mut W,
    list: &ChangeList<A>,
) -> Result<(), WriteFault>
    ensures ok { OnOk result (Appends (W.contents writer.old) (W.contents writer.new) (list_bytes list.now)) }
    ensures err { IfErr result (λ fault.
        WritesFront fault (W.contents writer.old) (W.contents writer.new) (list_bytes list.now)) }
    // Which answer comes when, as far as the outcomes of the writes are known.
    ensures reported { EndsWrites W.went W.failed result writer.old writer.new }
{
    let bytes = write_changes(alloc, list).map_err(|_| WriteFault::Memory)?;
    write_whole(writer, bytes.as_slice()).map_err(|_| WriteFault::Write)
}

/// Writes the bytes of a patchset, as `write_patches` gives them. An interrupted write is made again.
pub fn write_patches_to<A: AllocHandle, W: Sink>(
    alloc: A,
    writer: &mut W,
    list: &PatchList<A>,
) -> Result<(), WriteFault>
    ensures ok { OnOk result
        (Appends (W.contents writer.old) (W.contents writer.new) (patch_list_bytes list.now)) }
    ensures err { IfErr result (λ fault.
        WritesFront fault (W.contents writer.old) (W.contents writer.new) (patch_list_bytes list.now)) }
    // Which answer comes when, as far as the outcomes of the writes are known.
    ensures reported { EndsWrites W.went W.failed result writer.old writer.new }
{
    let bytes = write_patches(alloc, list).map_err(|_| WriteFault::Memory)?;
    write_whole(writer, bytes.as_slice()).map_err(|_| WriteFault::Write)
}
