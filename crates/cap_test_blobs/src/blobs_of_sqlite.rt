//! Bytes that SQLite 3.40.1 wrote, and takes again, of a table whose key has two columns.
use crate::known::write;
use cap_codec::{BlobFault, Contents, KeyFlags, read_blob, write_changes_with, write_patches_with};
use cap_value::Fault;
use std::alloc::Global;

/// What `sqlite3session_changeset` gave. The table is `t(a, b, c, d, primary key (b, d))` with the rows (0,
/// 7, 1, 7) and (0, 8, 1, 8), of which the second is deleted, after ('x', 1, NULL, 2) was inserted and `c`
/// set to 5 in the first. `00 01 00 02` are the key flags.
const CHANGESET: [u8; 112] = [
    0x54, 4, 0, 1, 0, 2, 0x74, 0, 9, 0, 1, 0, 0, 0, 0, 0, 0, 0, 0, 1, 0, 0, 0, 0, 0, 0, 0, 8, 1, 0,
    0, 0, 0, 0, 0, 0, 1, 1, 0, 0, 0, 0, 0, 0, 0, 8, 0x12, 0, 3, 1, 0x78, 1, 0, 0, 0, 0, 0, 0, 0, 1,
    5, 1, 0, 0, 0, 0, 0, 0, 0, 2, 0x17, 0, 0, 1, 0, 0, 0, 0, 0, 0, 0, 7, 1, 0, 0, 0, 0, 0, 0, 0, 1,
    1, 0, 0, 0, 0, 0, 0, 0, 7, 0, 0, 1, 0, 0, 0, 0, 0, 0, 0, 5, 0,
];

/// What `sqlite3session_patchset` gave of the same.
const PATCHSET: [u8; 82] = [
    0x50, 4, 0, 1, 0, 2, 0x74, 0, 9, 0, 1, 0, 0, 0, 0, 0, 0, 0, 8, 1, 0, 0, 0, 0, 0, 0, 0, 8, 0x12,
    0, 3, 1, 0x78, 1, 0, 0, 0, 0, 0, 0, 0, 1, 5, 1, 0, 0, 0, 0, 0, 0, 0, 2, 0x17, 0, 0, 1, 0, 0, 0,
    0, 0, 0, 0, 7, 1, 0, 0, 0, 0, 0, 0, 0, 5, 1, 0, 0, 0, 0, 0, 0, 0, 7,
];

/// The bytes with the key flags of SQLite's documentation.
fn with_ones<const N: usize>(bytes: &[u8; N]) -> [u8; N] {
    let mut ones = *bytes;
    if let Some(flag) = ones.get_mut(5) {
        *flag = 1;
    }
    ones
}

// Whether the first bytes read, and are written as these where the key flags are places, and as those where
// they are ones, which is the way of all other calls.
fn is_written_both_ways(
    alloc: Global,
    bytes: &[u8],
    places: &[u8],
    ones: &[u8],
) -> Result<bool, Fault<BlobFault>> {
    let blob = read_blob(alloc, bytes)?;
    Ok(
        write_with(alloc, KeyFlags::Places, &blob)?.as_slice() == places
            && write_with(alloc, KeyFlags::Ones, &blob)?.as_slice() == ones
            && write(alloc, &blob)?.as_slice() == ones,
    )
}

fn write_with(
    alloc: Global,
    flags: KeyFlags,
    blob: &Contents<Global>,
) -> Result<Vec<u8>, Fault<BlobFault>> {
    match blob {
        Contents::Changes(list) => Ok(write_changes_with(alloc, flags, list)?),
        Contents::Patches(list) => Ok(write_patches_with(alloc, flags, list)?),
    }
}

// Whether the bytes are a changeset of three changes of the table whose key is the second and fourth column.
fn is_of_the_table(alloc: Global, bytes: &[u8]) -> Result<bool, Fault<BlobFault>> {
    let Contents::Changes(list) = read_blob(alloc, bytes)? else {
        return Ok(false);
    };
    match list.groups().first() {
        None => Ok(false),
        Some(group) => {
            let flags = group.schema().flags();
            Ok(flags == [false, true, false, true].as_slice() && group.changes().len() == 3)
        }
    }
}

#[test]
fn a_changeset_of_sqlite(rt: HostRuntime) {
    let ones = with_ones(&CHANGESET);
    assert!(rt; is_of_the_table(rt.alloc(), &CHANGESET) == Ok(true));
    assert!(rt; is_written_both_ways(rt.alloc(), &CHANGESET, &CHANGESET, &ones) == Ok(true));
    assert!(rt; is_of_the_table(rt.alloc(), &ones) == Ok(true));
    assert!(rt; is_written_both_ways(rt.alloc(), &ones, &CHANGESET, &ones) == Ok(true));
}

#[test]
fn a_patchset_of_sqlite(rt: HostRuntime) {
    let ones = with_ones(&PATCHSET);
    assert!(rt; is_written_both_ways(rt.alloc(), &PATCHSET, &PATCHSET, &ones) == Ok(true));
    assert!(rt; is_written_both_ways(rt.alloc(), &ones, &PATCHSET, &ones) == Ok(true));
}
