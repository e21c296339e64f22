//! Makes one changeset or patchset of the blobs of an input.
ghost use Rattle.std.specs.Prelude.{◌≡◌, ◌⊎◌, Err, false, IfSome, IfErr, IfOk, IsErrAnd};
ghost use Rattle.std.specs.Option.{option_map};
ghost use Rattle.cap_value.specs.Memory.{ShowsUnlessMemory};
ghost use Rattle.cap_run.specs.Combination.{bytes_combined, combined_at, concatenated, first_rebased};
ghost use Rattle.cap_run.specs.Combination.{numbered, text_rebased};
ghost use Rattle.cap_run.specs.BlobList.{texts_in};
ghost use Rattle.cap_run.specs.Conversion.{WritesOutput};
ghost use Rattle.cap_run.specs.Reads.{EndsReads, ShowsUnlessUnread};
ghost use Rattle.cap_run.specs.RunFault.{exit_status, input_fault, is_read, IsUnread, RunsNothing};
ghost use Rattle.cap_run.specs.Writes.{EndsWrites};

use crate::blob_list::{add_blobs, first_text, listed_bytes, numbered_fault, rebase_fault};
use crate::encoding::encode;
use crate::fault::ListedFault;
use crate::input::read_whole;
use crate::output::write_output;
use crate::{Combination, CombinationKind, RunFault};
use cap_group::ChangeGroup;
use cap_rebase::Rebaser;
use cap_stream::{Sink, Source};
use cap_value::{AllocHandle, Fault};

/// Writes what the blobs that the reader gives make together: their concatenation, or the first of them, a
/// local changeset, rebased over the others, the buffers of applications in their order. Blobs are lines of
/// hex digits, or bytes, each behind its length as eight bytes, the most significant first. Without blobs it
/// is the empty changeset.
///
/// All blobs are read before anything is written. A failed read and out of memory may come before any other
/// answer.
pub fn combine_blobs<A: AllocHandle, R: Source, W: Sink>(
    alloc: A,
    combination: Combination,
    reader: &mut R,
    writer: &mut W,
) -> Result<(), RunFault>
    // What is written, where it is known what the reader gives: what the blobs make, a beginning of it where
    // a write failed, and else nothing.
    ensures written { IfSome (R.remaining reader.old) (λ given. IfOk (combined_at A combination given)
        (λ output. WritesOutput output result (W.contents writer.old) (W.contents writer.new))) }
    // A blob that is refused gives its fault with its number, where it is known what the reader gives.
    ensures refused { IfSome (R.remaining reader.old) (λ given. IfErr (combined_at A combination given)
        (λ fault. IsErrAnd result (λ f. (f ≡ fault) ⊎ IsUnread f))) }
    ensures just { IfSome (R.remaining reader.old) (λ given. IfErr result (λ fault.
        exit_status fault ≡ 1 → combined_at A combination given ≡ Err fault)) }
    // When a failed read is reported, as far as the outcomes of the reads are known.
    ensures read_reported { EndsReads R.gave R.failed result reader.old reader.new }
    // When a failed write is reported, as far as the outcomes of the writes are known.
    ensures write_reported { EndsWrites W.went W.failed result writer.old writer.new }
    // Nothing is written where the input is refused, or out of memory.
    ensures silent { IfErr result (λ fault. exit_status fault ≡ 1 → writer.new ≡ writer.old) }
    ensures memory { result ≡ Err RunFault.OutOfMemory → writer.new ≡ writer.old }
{
    let output = read_output(alloc, combination, reader)?;
    write_output(writer, output.as_slice())
}

// Reads the blobs and combines them.
fn read_output<A: AllocHandle, R: Source>(
    alloc: A,
    combination: Combination,
    reader: &mut R,
) -> Result<Vec<u8, A>, RunFault>
    ensures output { IfSome (R.remaining reader.old) (λ given.
        ShowsUnlessUnread (λ output. output.items) result (combined_at A combination given)) }
    ensures read_reported { EndsReads R.gave R.failed result reader.old reader.new }
    ensures early { IfErr result RunsNothing }
{
    let given = read_whole(alloc, reader)?;
    Ok(combined(alloc, combination, given.as_slice())?)
}

// The output for the blobs that were given.
fn combined<A: AllocHandle>(
    alloc: A,
    combination: Combination,
    given: &[u8],
) -> Result<Vec<u8, A>, Fault<RunFault>>
    ensures output { ShowsUnlessMemory (λ output. output.items) result
        (combined_at A combination given.now) }
    ensures no_failed_read { IfErr result (λ fault. is_read (input_fault fault) ≡ false) }
    ensures early { IfErr result (λ fault. RunsNothing (input_fault fault)) }
{
    let bytes = bytes_combined(alloc, combination, given)?;
    Ok(encode(alloc, combination.encoding, bytes)?)
}

// The bytes that the blobs make.
fn bytes_combined<A: AllocHandle>(
    alloc: A,
    combination: Combination,
    given: &[u8],
) -> Result<Vec<u8, A>, Fault<RunFault>>
    ensures bytes { ShowsUnlessMemory (λ bytes. bytes.items) result (bytes_combined A combination.kind
        combination.encoding combination.key_flags (texts_in combination.encoding given.now)) }
    ensures no_failed_read { IfErr result (λ fault. is_read (input_fault fault) ≡ false) }
    ensures early { IfErr result (λ fault. RunsNothing (input_fault fault)) }
{
    match combination.kind {
        CombinationKind::Concatenation => concatenated(alloc, combination, given),
        CombinationKind::Rebase => rebased(alloc, combination, given),
    }
}

// The concatenation of the blobs.
fn concatenated<A: AllocHandle>(
    alloc: A,
    combination: Combination,
    given: &[u8],
) -> Result<Vec<u8, A>, Fault<RunFault>>
    ensures bytes { ShowsUnlessMemory (λ bytes. bytes.items) result (concatenated A
        combination.encoding combination.key_flags (texts_in combination.encoding given.now)) }
    ensures no_failed_read { IfErr result (λ fault. is_read (input_fault fault) ≡ false) }
    ensures early { IfErr result (λ fault. RunsNothing (input_fault fault)) }
{
    let mut group = ChangeGroup::new(alloc);
    add_blobs(alloc, combination.encoding, 1, &mut group, given)?;
    Ok(group.bytes(combination.key_flags)?)
}

// The first of the blobs over the others.
fn rebased<A: AllocHandle>(
    alloc: A,
    combination: Combination,
    given: &[u8],
) -> Result<Vec<u8, A>, Fault<RunFault>>
    ensures bytes { ShowsUnlessMemory (λ bytes. bytes.items) result (first_rebased A
        combination.encoding combination.key_flags (texts_in combination.encoding given.now)) }
    ensures no_failed_read { IfErr result (λ fault. is_read (input_fault fault) ≡ false) }
    ensures early { IfErr result (λ fault. RunsNothing (input_fault fault)) }
{
    if given.is_empty() {
        return Ok(Vec::new(alloc));
    }
    let (local, others) = first_text(combination.encoding, given);
    let mut rebaser = Rebaser::new(alloc);
    add_blobs(alloc, combination.encoding, 2, &mut rebaser, others)?;
    local_rebased(alloc, combination, &rebaser, local)
}

// The first of the blobs, which has this text, over the buffers.
fn local_rebased<A: AllocHandle>(
    alloc: A,
    combination: Combination,
    rebaser: &Rebaser<A>,
    text: Option<&[u8]>,
) -> Result<Vec<u8, A>, Fault<RunFault>>
    ensures bytes { ShowsUnlessMemory (λ bytes. bytes.items) result (numbered combination.encoding 1
        (text_rebased combination.encoding combination.key_flags rebaser.now
        (option_map (λ t. t.now) text.entry))) }
    ensures no_failed_read { IfErr result (λ fault. is_read (input_fault fault) ≡ false) }
    ensures early { IfErr result (λ fault. RunsNothing (input_fault fault)) }
{
    match text_rebased(alloc, combination, rebaser, text) {
        Ok(bytes) => Ok(bytes),
        Err(Fault::Refused(why)) => {
            Err(Fault::Refused(numbered_fault(combination.encoding, 1, why)))
        }
        Err(Fault::OutOfMemory) => Err(Fault::OutOfMemory),
    }
}

// The changeset with this text over the buffers.
fn text_rebased<A: AllocHandle>(
    alloc: A,
    combination: Combination,
    rebaser: &Rebaser<A>,
    text: Option<&[u8]>,
) -> Result<Vec<u8, A>, Fault<ListedFault>>
    ensures { ShowsUnlessMemory (λ bytes. bytes.items) result (text_rebased combination.encoding
        combination.key_flags rebaser.now (option_map (λ t. t.now) text.entry)) }
{
    let local = listed_bytes(alloc, combination.encoding, text)?;
    match rebaser.rebase_bytes(combination.key_flags, local.as_slice()) {
        Ok(bytes) => Ok(bytes),
        Err(Fault::Refused(why)) => Err(Fault::Refused(rebase_fault(why))),
        Err(Fault::OutOfMemory) => Err(Fault::OutOfMemory),
    }
}
