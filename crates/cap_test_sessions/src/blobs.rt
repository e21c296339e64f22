//! Rebasing from bytes to bytes, and what is refused.
use crate::groups::prints;
use cap_apply::{Answer, Conflict, ConflictKind};
use cap_codec::{BlobFault, FaultKind, KeyFlags};
use cap_rebase::{BlobRefusal, RebaseRefusal, Rebaser, buffer_bytes};
use cap_value::Fault;
use std::alloc::Global;
use std::test::*;

// Both insert a row under 1, and the remote one is omitted.
const LOCAL: &str = "54030100007400120001000000000000000103016e030171";

const REMOTE: &str = "54030100007400120101000000000000000103016d030171";

const BUFFER: &str = "54030100007400120001000000000000000103016d030171";

const REBASED: &str = "54030100007400170001000000000000000103016d000003016e00";

const PATCHSET: &str = "50030100007400120001000000000000000103016d030171";

// A table t of two columns.
const OTHER: &str = "540201007400120001000000000000000103016d";

// Whether these are the bytes.
fn are(alloc: Global, bytes: &[u8], digits: &str) -> bool {
    match hex::decode(alloc, digits) {
        Ok(expected) => bytes == expected.as_slice(),
        Err(_) => false,
    }
}

// Adds a buffer, and answers why it was refused; none where it was not.
fn configure(alloc: Global, rebaser: &mut Rebaser<Global>, digits: &str) -> Option<BlobRefusal> {
    let bytes = hex::decode(alloc, digits).ok()?;
    match rebaser.configure_bytes(bytes.as_slice()) {
        Err(Fault::Refused(why)) => Some(why),
        _ => None,
    }
}

// Whether the changeset over the buffers has these bytes.
fn rebases_to(alloc: Global, rebaser: &Rebaser<Global>, local: &str, rebased: &str) -> bool {
    let Ok(bytes) = hex::decode(alloc, local) else {
        return false;
    };
    match rebaser.rebase_bytes(KeyFlags::Ones, bytes.as_slice()) {
        Ok(made) => are(alloc, made.as_slice(), rebased),
        Err(_) => false,
    }
}

// Why a changeset is refused; none where it is not.
fn refused(alloc: Global, rebaser: &Rebaser<Global>, digits: &str) -> Option<BlobRefusal> {
    let bytes = hex::decode(alloc, digits).ok()?;
    match rebaser.rebase_bytes(KeyFlags::Ones, bytes.as_slice()) {
        Err(Fault::Refused(why)) => Some(why),
        _ => None,
    }
}

// Whether the buffer of the remote change, omitted, has these bytes.
fn has_buffer(alloc: Global, remote: &str, buffer: &str) -> bool {
    let Ok(bytes) = hex::decode(alloc, remote) else {
        return false;
    };
    let conflicts = [Conflict {
        change: 0,
        kind: ConflictKind::Conflict,
        answer: Answer::Omit,
    }];
    match buffer_bytes(alloc, KeyFlags::Ones, bytes.as_slice(), &conflicts) {
        Ok(made) => are(alloc, made.as_slice(), buffer),
        Err(_) => false,
    }
}

#[test]
fn from_bytes_to_bytes(rt: HostRuntime) -> Result<(), Fail> {
    let alloc = rt.alloc();
    assert!(rt; has_buffer(alloc, REMOTE, BUFFER));
    let mut rebaser = Rebaser::new(alloc);
    assert!(rt; rebases_to(alloc, &rebaser, LOCAL, LOCAL));
    assert!(rt; configure(alloc, &mut rebaser, BUFFER).is_none());
    assert!(rt; rebases_to(alloc, &rebaser, LOCAL, REBASED));
    Ok(())
}

#[test]
fn blobs_that_are_refused(rt: HostRuntime) -> Result<(), Fail> {
    let alloc = rt.alloc();
    let mut rebaser = Rebaser::new(alloc);
    let columns = BlobRefusal::Columns(RebaseRefusal::OtherColumns { group: 0 });
    let malformed = BlobRefusal::Malformed(BlobFault {
        at: 0,
        kind: FaultKind::BadHeader,
    });
    assert!(rt; configure(alloc, &mut rebaser, BUFFER).is_none());
    assert!(rt; configure(alloc, &mut rebaser, PATCHSET) == Some(BlobRefusal::Patchset));
    assert!(rt; configure(alloc, &mut rebaser, OTHER) == Some(columns));
    assert!(rt; configure(alloc, &mut rebaser, "00") == Some(malformed));
    assert!(rt; refused(alloc, &rebaser, PATCHSET) == Some(BlobRefusal::Patchset));
    assert!(rt; refused(alloc, &rebaser, OTHER) == Some(columns));
    assert!(rt; refused(alloc, &rebaser, "00") == Some(malformed));
    assert!(rt; rebases_to(alloc, &rebaser, LOCAL, REBASED));
    Ok(())
}

#[test]
fn the_text_of_a_refusal(rt: HostRuntime) {
    let alloc = rt.alloc();
    let columns = BlobRefusal::Columns(RebaseRefusal::OtherColumns { group: 3 });
    assert!(rt; prints(alloc, &columns, "other columns in group 3"));
    assert!(rt; prints(alloc, &BlobRefusal::Patchset, "patchset"));
    let malformed = BlobRefusal::Malformed(BlobFault {
        at: 1,
        kind: FaultKind::Truncated,
    });
    assert!(rt; prints(alloc, &malformed, "D1 Truncated at 1"));
}
