//! Converts a changeset to its inverse or to its patchset.
ghost use Rattle.std.specs.Prelude.{◌≡◌, ◌⊎◌, Err, false, IfSome, IfErr, IfOk, IsErrAnd};
ghost use Rattle.cap_value.specs.Memory.{ShowsUnlessMemory};
ghost use Rattle.cap_run.specs.Conversion.{converted_at, output_of, WritesOutput};
ghost use Rattle.cap_run.specs.Reads.{EndsReads, ShowsUnlessUnread};
ghost use Rattle.cap_run.specs.RunFault.{exit_status, input_fault, is_read, IsUnread, RunsNothing};
ghost use Rattle.cap_run.specs.Writes.{EndsWrites};

use crate::encoding::{encode, read_bytes};
use crate::output::write_output;
use crate::{Conversion, RunFault};
use cap_blob::{ChangesetRefusal, convert_bytes};
use cap_stream::{Sink, Source};
use cap_value::{AllocHandle, Fault};

/// Writes the inverse or the patchset of the changeset that the reader gives.
///
/// The whole blob is read and converted before anything is written. A failed read and out of memory may come
/// before any other answer.
pub fn convert_blob<A: AllocHandle, R: Source, W: Sink>(
    alloc: A,
    conversion: Conversion,
    reader: &mut R,
    writer: &mut W,
) -> Result<(), RunFault>
    // What is written, where it is known what the reader gives: the inverse or the patchset, a beginning of
    // it where a write failed, and else nothing.
    ensures written { IfSome (R.remaining reader.old) (λ given. IfOk (converted_at A conversion given)
        (λ output. WritesOutput output result (W.contents writer.old) (W.contents writer.new))) }
    // Input that is not hex, not a blob or a patchset is refused with its fault, where it is known what the
    // reader gives.
    ensures refused { IfSome (R.remaining reader.old) (λ given. IfErr (converted_at A conversion given)
        (λ fault. IsErrAnd result (λ f. (f ≡ fault) ⊎ IsUnread f))) }
    ensures just { IfSome (R.remaining reader.old) (λ given. IfErr result (λ fault.
        exit_status fault ≡ 1 → converted_at A conversion given ≡ Err fault)) }
    // When a failed read is reported, as far as the outcomes of the reads are known.
    ensures read_reported { EndsReads R.gave R.failed result reader.old reader.new }
    // When a failed write is reported, as far as the outcomes of the writes are known.
    ensures write_reported { EndsWrites W.went W.failed result writer.old writer.new }
    // Nothing is written where the input is refused, or out of memory.
    ensures silent { IfErr result (λ fault. exit_status fault ≡ 1 → writer.new ≡ writer.old) }
    ensures memory { result ≡ Err RunFault.OutOfMemory → writer.new ≡ writer.old }
{
    let output = read_output(alloc, conversion, reader)?;
    write_output(writer, output.as_slice())
}

// Reads the changeset and converts it.
fn read_output<A: AllocHandle, R: Source>(
    alloc: A,
    conversion: Conversion,
    reader: &mut R,
) -> Result<Vec<u8, A>, RunFault>
    ensures output { IfSome (R.remaining reader.old) (λ given.
        ShowsUnlessUnread (λ output. output.items) result (converted_at A conversion given)) }
    ensures read_reported { EndsReads R.gave R.failed result reader.old reader.new }
    ensures early { IfErr result RunsNothing }
{
    let bytes = read_bytes(alloc, conversion.encoding, reader)?;
    Ok(convert(alloc, conversion, bytes.as_slice())?)
}

// The output for the changeset with these bytes.
fn convert<A: AllocHandle>(
    alloc: A,
    conversion: Conversion,
    bytes: &[u8],
) -> Result<Vec<u8, A>, Fault<RunFault>>
    ensures output { ShowsUnlessMemory (λ output. output.items) result (output_of A conversion bytes.now) }
    ensures no_failed_read { IfErr result (λ fault. is_read (input_fault fault) ≡ false) }
    ensures early { IfErr result (λ fault. RunsNothing (input_fault fault)) }
{
    match convert_bytes(alloc, conversion.target, conversion.key_flags, bytes) {
        Ok(bytes) => Ok(encode(alloc, conversion.encoding, bytes)?),
        Err(Fault::Refused(ChangesetRefusal::Malformed(fault))) => {
            Err(Fault::Refused(RunFault::Blob(fault)))
        }
        Err(Fault::Refused(ChangesetRefusal::Patchset)) => Err(Fault::Refused(RunFault::Patchset)),
        Err(Fault::OutOfMemory) => Err(Fault::OutOfMemory),
    }
}
