//! The bytes of a blob in the input and in the output.
ghost use Rattle.std.specs.Prelude.{◌≡◌, false, IfErr, IfOk, IfSome};
ghost use Rattle.cap_value.specs.Memory.{ShowsUnlessMemory};
ghost use Rattle.hex.specs.Hex.{encode_lower};
ghost use Rattle.cap_run.specs.Encoding.{decoded, encoded};
ghost use Rattle.cap_run.specs.Reads.{EndsReads, ShowsUnlessUnread};
ghost use Rattle.cap_interpreter.specs.Lines.{on_a_line};
ghost use Rattle.cap_run.specs.RunFault.{input_fault, is_read, RunsNothing};

use crate::RunFault;
use crate::input::read_whole;
use cap_stream::Source;
use cap_value::{AllocHandle, Fault, OutOfMemory};
use hex::FromHexError;

/// How the bytes of a blob are read and written.
#[derive(Clone, Copy, Debug, PartialEq, Eq, Drop)]
pub enum Encoding {
    /// As hex digits: read in either case, with at most one line feed at their end, and written as a line in
    /// lower case.
    Hex,
    /// As they are.
    Binary,
}

// Reads the bytes of the blob that the reader gives.
pub(crate) fn read_bytes<A: AllocHandle, R: Source>(
    alloc: A,
    encoding: Encoding,
    reader: &mut R,
) -> Result<Vec<u8, A>, RunFault>
    ensures bytes { IfSome (R.remaining reader.old) (λ given.
        ShowsUnlessUnread (λ bytes. bytes.items) result (decoded encoding given)) }
    ensures read_reported { EndsReads R.gave R.failed result reader.old reader.new }
    ensures early { IfErr result RunsNothing }
{
    let given = read_whole(alloc, reader)?;
    Ok(decode(alloc, encoding, given)?)
}

// The bytes of the blob in what was given.
fn decode<A: AllocHandle>(
    alloc: A,
    encoding: Encoding,
    given: Vec<u8, A>,
) -> Result<Vec<u8, A>, Fault<RunFault>>
    ensures bytes { ShowsUnlessMemory (λ bytes. bytes.items) result (decoded encoding given.items) }
    ensures no_failed_read { IfErr result (λ fault. is_read (input_fault fault) ≡ false) }
    ensures early { IfErr result (λ fault. RunsNothing (input_fault fault)) }
{
    match encoding {
        Encoding::Hex => decode_hex(alloc, given.as_slice()),
        Encoding::Binary => Ok(given),
    }
}

// The bytes that these hex digits spell.
fn decode_hex<A: AllocHandle>(alloc: A, text: &[u8]) -> Result<Vec<u8, A>, Fault<RunFault>>
    ensures bytes { ShowsUnlessMemory (λ bytes. bytes.items) result (decoded Encoding.Hex text.now) }
    ensures no_failed_read { IfErr result (λ fault. is_read (input_fault fault) ≡ false) }
    ensures early { IfErr result (λ fault. RunsNothing (input_fault fault)) }
{
    let digits = text.strip_suffix(b"\n").unwrap_or(text);
    hex::decode(alloc, digits).map_err(|error| match error {
        FromHexError::OutOfMemory => Fault::OutOfMemory,
        _ => Fault::Refused(RunFault::NotHex),
    })
}

// The output for the bytes of a blob.
pub(crate) fn encode<A: AllocHandle>(
    alloc: A,
    encoding: Encoding,
    bytes: Vec<u8, A>,
) -> Result<Vec<u8, A>, OutOfMemory>
    ensures { IfOk result (λ output. output.items ≡ encoded encoding bytes.items) }
{
    match encoding {
        Encoding::Hex => encode_hex(alloc, bytes.as_slice()),
        Encoding::Binary => Ok(bytes),
    }
}

// The line of hex digits.
fn encode_hex<A: AllocHandle>(alloc: A, bytes: &[u8]) -> Result<Vec<u8, A>, OutOfMemory>
    ensures { IfOk result (λ line. line.items ≡ on_a_line (encode_lower bytes.now)) }
{
    let mut line = hex::encode(alloc, bytes)?.into_bytes();
    line.push(b'\n')?;
    Ok(line)
}
