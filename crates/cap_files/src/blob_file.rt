//! The blob in a file.
ghost use Rattle.std.specs.Prelude.{◌≡◌, ◌==◌, ◌<◌, ◌≤◌, ◌++◌, ◌∷◌, [], IfOk, IfSome, length};
ghost use Rattle.cap_value.specs.Memory.{ShowsUnlessMemory};
ghost use Rattle.cap_files.specs.FileBlob.{black, digits_blob, file_blob, hex_blob, is_white, no_digit};
ghost use Rattle.cap_files.specs.FileBlob.{no_digit_in, word_len};
ghost use Rattle.hex.specs.Hex.{encode_lower, is_hex_digit};

use cap_value::{AllocHandle, Fault, OutOfMemory};
use hex::FromHexError;
use thiserror::Error;

/// How a file has a blob.
#[derive(Clone, Copy, Debug, PartialEq, Eq, Drop)]
pub enum FileForm {
    /// As hex digits in either case, with white space before, between and after them, and at the beginning of
    /// the file the word that a reply has before them: `changeset`, `patchset` or `buffer` and a space.
    Hex,
    /// As they are.
    Bytes,
}

/// Why a file has no blob.
#[derive(Clone, Copy, Debug, PartialEq, Eq, Drop, Error)]
pub enum TextFault {
    /// It has no byte but white space.
    #[error("empty")]
    Empty,
    /// It begins with a hex digit, and this byte is neither one nor white space.
    #[error("not hex at {at}")]
    NotHex {
        /// The place of the byte, from 0.
        at: usize,
    },
    /// It has an odd number of hex digits.
    #[error("half a byte at the end of the hex digits")]
    HalfByte,
}

/// The blob in a file.
#[derive(Drop)]
pub struct FileBlob<A: AllocHandle> {
    /// How the file has it.
    pub form: FileForm,
    /// The bytes of the blob.
    pub bytes: Vec<u8, A>,
}

/// The blob in a file with these bytes. What begins with a hex digit is hex digits, `-` alone is the blob
/// without bytes, and all else is bytes. A line of a reply is taken as well: the word before its blob is passed
/// over.
pub fn file_blob<A: AllocHandle>(
    alloc: A,
    given: Vec<u8, A>,
) -> Result<FileBlob<A>, Fault<TextFault>>
    ensures { ShowsUnlessMemory (λ blob. (blob.form, blob.bytes.items)) result (file_blob given.items) }
{
    let word = word_len(given.as_slice());
    let digits = without_white(alloc, &given.as_slice()[word..])?;
    let [first, others @ ..] = digits.as_slice() else {
        return Err(Fault::Refused(TextFault::Empty));
    };
    if *first == b'-' && others.is_empty() {
        return Ok(FileBlob {
            form: FileForm::Hex,
            bytes: Vec::new(alloc),
        });
    }
    if !is_digit(*first) {
        return Ok(FileBlob {
            form: FileForm::Bytes,
            bytes: given,
        });
    }
    match no_digit_in(given.as_slice()) {
        Some(at) => Err(Fault::Refused(TextFault::NotHex { at })),
        None => decoded(alloc, digits.as_slice()),
    }
}

// The blob that these hex digits spell.
fn decoded<A: AllocHandle>(alloc: A, digits: &[u8]) -> Result<FileBlob<A>, Fault<TextFault>>
    ensures { ShowsUnlessMemory (λ blob. (blob.form, blob.bytes.items)) result (digits_blob digits.now) }
{
    match hex::decode(alloc, digits) {
        Ok(bytes) => Ok(FileBlob {
            form: FileForm::Hex,
            bytes,
        }),
        Err(FromHexError::OutOfMemory) => Err(Fault::OutOfMemory),
        Err(_) => Err(Fault::Refused(TextFault::HalfByte)),
    }
}

// The bytes that are no white space.
fn without_white<A: AllocHandle>(alloc: A, bytes: &[u8]) -> Result<Vec<u8, A>, OutOfMemory>
    ensures { IfOk result (λ found. found.items ≡ black bytes.now) }
{
    let mut found = Vec::new(alloc);
    for byte in bytes {
        if !is_white(*byte) {
            found.push(*byte)?;
        }
    }
    Ok(found)
}

// How long the word is that a reply has before its blob, with the space behind it.
fn word_len(given: &[u8]) -> usize
    ensures len { result ≡ word_len given.now }
    ensures bound { result ≤ length given.now }
{
    if given.starts_with(b"changeset ") {
        10
    } else if given.starts_with(b"patchset ") {
        9
    } else if given.starts_with(b"buffer ") {
        7
    } else {
        0
    }
}

// The place in the file of the first byte behind that word that is neither a hex digit nor white space.
fn no_digit_in(given: &[u8]) -> Option<usize>
    ensures { result ≡ no_digit_in given.now }
{
    let word = word_len(given);
    match no_digit(&given[word..]) {
        Some(at) => Some(word + at),
        None => None,
    }
}

// The place of the first byte that is neither a hex digit nor white space.
fn no_digit(bytes: &[u8]) -> Option<usize>
    ensures place { result ≡ no_digit 0 bytes.now }
    ensures bound { IfSome result (λ at. at < length bytes.now) }
{
    for (at, byte) in bytes.iter().enumerate() {
        if !is_white(*byte) && !is_digit(*byte) {
            return Some(at);
        }
    }
    None
}

fn is_white(byte: u8) -> bool
    ensures { result ≡ is_white byte }
{
    byte == b' ' || (9 <= byte && byte <= 13)
}

fn is_digit(byte: u8) -> bool
    ensures { result ≡ is_hex_digit byte }
{
    byte.is_ascii_hexdigit()
}

/// What a file has for a blob with these bytes: a line of hex digits, or the bytes.
pub fn file_text<A: AllocHandle>(
    alloc: A,
    form: FileForm,
    bytes: Vec<u8, A>,
) -> Result<Vec<u8, A>, OutOfMemory>
    ensures hex { IfOk result (λ text. form ≡ FileForm.Hex
        → text.items ≡ encode_lower bytes.items ++ 10 ∷ []) }
    ensures bytes { IfOk result (λ text. form ≡ FileForm.Bytes → text.items ≡ bytes.items) }
{
    match form {
        FileForm::Hex => {
            let mut line = hex::encode(alloc, bytes.as_slice())?.into_bytes();
            line.push(b'\n')?;
            Ok(line)
        }
        FileForm::Bytes => Ok(bytes),
    }
}
