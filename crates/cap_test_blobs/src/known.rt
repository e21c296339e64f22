//! Known blobs, and blobs read and written.
use cap_codec::{BlobFault, Contents, Decoder, read_blob, write_changes, write_patches};
use cap_value::{AllocHandle, Fault, OutOfMemory};
use std::alloc::Global;

/// The changeset that inserts the row (1, 'x') into `t`, a key and a value.
pub const INSERT: [u8; 20] = [
    0x54, 2, 1, 0, 0x74, 0, 0x12, 0, 1, 0, 0, 0, 0, 0, 0, 0, 1, 3, 1, 0x78,
];

/// The changeset that updates that row to (1, 'y').
pub const UPDATE: [u8; 24] = [
    0x54, 2, 1, 0, 0x74, 0, 0x17, 0, 1, 0, 0, 0, 0, 0, 0, 0, 1, 3, 1, 0x78, 0, 3, 1, 0x79,
];

/// The changeset that deletes the row (1, 'x').
pub const DELETE: [u8; 20] = [
    0x54, 2, 1, 0, 0x74, 0, 0x09, 0, 1, 0, 0, 0, 0, 0, 0, 0, 1, 3, 1, 0x78,
];

/// The patchset that updates the row to (1, 'y').
pub const UPDATE_PATCH: [u8; 20] = [
    0x50, 2, 1, 0, 0x74, 0, 0x17, 0, 1, 0, 0, 0, 0, 0, 0, 0, 1, 3, 1, 0x79,
];

/// The row gets the key 2: a delete and an insert.
pub const OTHER_KEY: [u8; 34] = [
    0x54, 2, 1, 0, 0x74, 0, 0x09, 0, 1, 0, 0, 0, 0, 0, 0, 0, 1, 3, 1, 0x78, 0x12, 0, 1, 0, 0, 0, 0,
    0, 0, 0, 2, 3, 1, 0x78,
];

/// Two rows into each of the tables `b` and `a`.
pub const TWO_TABLES: [u8; 68] = [
    0x54, 2, 1, 0, 0x62, 0, 0x12, 0, 1, 0, 0, 0, 0, 0, 0, 0, 1, 3, 1, 0x78, 0x12, 0, 1, 0, 0, 0, 0,
    0, 0, 0, 2, 3, 1, 0x79, 0x54, 2, 1, 0, 0x61, 0, 0x12, 0, 1, 0, 0, 0, 0, 0, 0, 0, 1, 3, 1, 0x78,
    0x12, 0, 1, 0, 0, 0, 0, 0, 0, 0, 2, 3, 1, 0x79,
];

/// A delete, an update and an insert.
pub const DIFFERENCE: [u8; 52] = [
    0x54, 2, 1, 0, 0x74, 0, 0x09, 0, 1, 0, 0, 0, 0, 0, 0, 0, 1, 3, 1, 0x61, 0x17, 0, 1, 0, 0, 0, 0,
    0, 0, 0, 3, 3, 1, 0x63, 0, 3, 1, 0x64, 0x12, 0, 1, 0, 0, 0, 0, 0, 0, 0, 4, 3, 1, 0x65,
];

/// The changeset that inserts that row, updates it to (1, 'y') and deletes it.
pub const CHANGES: [u8; 52] = [
    0x54, 2, 1, 0, 0x74, 0, 0x12, 0, 1, 0, 0, 0, 0, 0, 0, 0, 1, 3, 1, 0x78, 0x17, 0, 1, 0, 0, 0, 0,
    0, 0, 0, 1, 3, 1, 0x78, 0, 3, 1, 0x79, 0x09, 0, 1, 0, 0, 0, 0, 0, 0, 0, 1, 3, 1, 0x79,
];

/// The patchset that updates that row to (1, 'y') and deletes it.
pub const PATCHES: [u8; 31] = [
    0x50, 2, 1, 0, 0x74, 0, 0x17, 0, 1, 0, 0, 0, 0, 0, 0, 0, 1, 3, 1, 0x79, 0x09, 0, 1, 0, 0, 0, 0,
    0, 0, 0, 1,
];

pub(crate) fn write<A: AllocHandle>(
    alloc: A,
    blob: &Contents<A>,
) -> Result<Vec<u8, A>, OutOfMemory> {
    match blob {
        Contents::Changes(list) => write_changes(alloc, list),
        Contents::Patches(list) => write_patches(alloc, list),
    }
}

/// Whether the blob is written as these bytes.
pub(crate) fn is_written<A: AllocHandle>(
    alloc: A,
    blob: &Contents<A>,
    bytes: &[u8],
) -> Result<bool, OutOfMemory> {
    Ok(write(alloc, blob)?.as_slice() == bytes)
}

/// Whether the blob of the first bytes is written as the others.
pub(crate) fn reads_as(
    alloc: Global,
    bytes: &[u8],
    written: &[u8],
) -> Result<bool, Fault<BlobFault>> {
    let blob = read_blob(alloc, bytes)?;
    Ok(is_written(alloc, &blob, written)?)
}

/// The answer for a blob that is fed byte by byte.
pub(crate) fn read_slowly(
    alloc: Global,
    bytes: &[u8],
) -> Result<Contents<Global>, Fault<BlobFault>> {
    let mut decoder = Decoder::new(alloc);
    for byte in bytes {
        decoder.feed(&[*byte])?;
    }
    decoder.finish()
}
