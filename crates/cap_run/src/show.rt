//! Shows a changeset or a patchset.
ghost use Rattle.std.specs.Prelude.{◌≡◌, ◌⊎◌, Err, false, IfSome, IfErr, IfOk, IsErrAnd};
ghost use Rattle.cap_value.specs.Memory.{ShowsUnlessMemory};
ghost use Rattle.cap_run.specs.Conversion.{WritesOutput};
ghost use Rattle.cap_run.specs.Reads.{EndsReads, ShowsUnlessUnread};
ghost use Rattle.cap_run.specs.RunFault.{exit_status, input_fault, is_read, IsUnread, RunsNothing};
ghost use Rattle.cap_run.specs.Show.{blob_contents, input_contents, json_text, lines_text, shown_text};
ghost use Rattle.cap_run.specs.Show.{sql_text};
ghost use Rattle.cap_run.specs.Writes.{EndsWrites};

use crate::encoding::read_bytes;
use crate::output::write_output;
use crate::{Encoding, RunFault};
use cap_codec::{Contents, read_blob};
use cap_show::{
    changeset_json, changeset_sql, changeset_text, patchset_json, patchset_sql, patchset_text,
};
use cap_stream::{Sink, Source};
use cap_value::{AllocHandle, Fault, OutOfMemory};

/// How a blob is shown.
#[derive(Clone, Copy, Debug, PartialEq, Eq, Drop)]
pub enum Form {
    /// A line for the blob, for each group and for each change, or `empty`.
    Text,
    /// A SQL statement for each change.
    Sql,
    /// A JSON array with an object for each change, on a line.
    Json,
}

/// Shows the blob that the reader gives.
///
/// The whole blob is read before anything is written. The contracts say exactly which input is refused and
/// with which fault, where it is known what the reader gives. A failed read and out of memory may come before
/// any other answer.
pub fn show_blob<A: AllocHandle, R: Source, W: Sink>(
    alloc: A,
    form: Form,
    encoding: Encoding,
    reader: &mut R,
    writer: &mut W,
) -> Result<(), RunFault>
    // Input that is not hex, or not a blob, is refused with its fault, where it is known what the reader
    // gives.
    ensures refused { IfSome (R.remaining reader.old) (λ given. IfErr (input_contents A encoding given)
        (λ fault. IsErrAnd result (λ f. (f ≡ fault) ⊎ IsUnread f))) }
    ensures just { IfSome (R.remaining reader.old) (λ given. IfErr result (λ fault.
        exit_status fault ≡ 1 → input_contents A encoding given ≡ Err fault)) }
    // What is written, where it is known what the reader gives: the text of the blob in this form, or a
    // beginning of it where a write failed.
    ensures shown { IfSome (R.remaining reader.old) (λ given.
        IfOk (input_contents A encoding given) (λ contents. WritesOutput (shown_text form contents) result
        (W.contents writer.old) (W.contents writer.new))) }
    // When a failed read is reported, as far as the outcomes of the reads are known.
    ensures read_reported { EndsReads R.gave R.failed result reader.old reader.new }
    // When a failed write is reported, as far as the outcomes of the writes are known.
    ensures write_reported { EndsWrites W.went W.failed result writer.old writer.new }
    // Nothing is written where the input is refused, or out of memory.
    ensures silent { IfErr result (λ fault. exit_status fault ≡ 1 → writer.new ≡ writer.old) }
    ensures memory { result ≡ Err RunFault.OutOfMemory → writer.new ≡ writer.old }
{
    let blob = read_contents(alloc, encoding, reader)?;
    write_blob(alloc, form, &blob, writer)
}

// Reads the blob.
fn read_contents<A: AllocHandle, R: Source>(
    alloc: A,
    encoding: Encoding,
    reader: &mut R,
) -> Result<Contents<A>, RunFault>
    ensures contents { IfSome (R.remaining reader.old) (λ given.
        ShowsUnlessUnread (λ contents. contents) result (input_contents A encoding given)) }
    ensures read_reported { EndsReads R.gave R.failed result reader.old reader.new }
    ensures early { IfErr result RunsNothing }
{
    let bytes = read_bytes(alloc, encoding, reader)?;
    Ok(contents(alloc, bytes.as_slice())?)
}

// The content of the blob with these bytes.
fn contents<A: AllocHandle>(alloc: A, bytes: &[u8]) -> Result<Contents<A>, Fault<RunFault>>
    ensures contents { ShowsUnlessMemory (λ contents. contents) result (blob_contents A bytes.now) }
    ensures no_failed_read { IfErr result (λ fault. is_read (input_fault fault) ≡ false) }
    ensures early { IfErr result (λ fault. RunsNothing (input_fault fault)) }
{
    read_blob(alloc, bytes).map_err(|fault| match fault {
        Fault::Refused(fault) => Fault::Refused(RunFault::Blob(fault)),
        Fault::OutOfMemory => Fault::OutOfMemory,
    })
}

// Writes the content of the blob. All of its text is made before any of it is written.
fn write_blob<A: AllocHandle, W: Sink>(
    alloc: A,
    form: Form,
    blob: &Contents<A>,
    writer: &mut W,
) -> Result<(), RunFault>
    ensures shown { WritesOutput (shown_text form blob.now) result
        (W.contents writer.old) (W.contents writer.new) }
    ensures status { IfErr result (λ fault. exit_status fault ≡ 3) }
    ensures no_failed_read { IfErr result (λ fault. is_read fault ≡ false) }
    ensures write_reported { EndsWrites W.went W.failed result writer.old writer.new }
    ensures memory { result ≡ Err RunFault.OutOfMemory → writer.new ≡ writer.old }
{
    let text = shown(alloc, form, blob).map_err(|_| RunFault::OutOfMemory)?;
    write_output(writer, text.as_slice())
}

// The blob in this form.
fn shown<A: AllocHandle>(
    alloc: A,
    form: Form,
    blob: &Contents<A>,
) -> Result<Vec<u8, A>, OutOfMemory>
    ensures { IfOk result (λ text. text.items ≡ shown_text form blob.now) }
{
    match form {
        Form::Text => lines_text(alloc, blob),
        Form::Sql => sql_text(alloc, blob),
        Form::Json => json_text(alloc, blob),
    }
}

fn json_text<A: AllocHandle>(alloc: A, blob: &Contents<A>) -> Result<Vec<u8, A>, OutOfMemory>
    ensures { IfOk result (λ text. text.items ≡ json_text blob.now) }
{
    match blob {
        Contents::Changes(changes) => changeset_json(alloc, changes),
        Contents::Patches(patches) => patchset_json(alloc, patches),
    }
}

fn lines_text<A: AllocHandle>(alloc: A, blob: &Contents<A>) -> Result<Vec<u8, A>, OutOfMemory>
    ensures { IfOk result (λ text. text.items ≡ lines_text blob.now) }
{
    match blob {
        Contents::Changes(changes) => changeset_text(alloc, changes),
        Contents::Patches(patches) => patchset_text(alloc, patches),
    }
}

fn sql_text<A: AllocHandle>(alloc: A, blob: &Contents<A>) -> Result<Vec<u8, A>, OutOfMemory>
    ensures { IfOk result (λ text. text.items ≡ sql_text blob.now) }
{
    match blob {
        Contents::Changes(changes) => changeset_sql(alloc, changes),
        Contents::Patches(patches) => patchset_sql(alloc, patches),
    }
}
