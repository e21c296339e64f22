//! The buffers of applications.
use cap_apply::{Answer, Conflict, ConflictKind};
use cap_codec::{Contents, KeyFlags, read_blob, write_changes_with};
use cap_rebase::buffer_of;
use std::alloc::Global;
use std::test::*;

// An insert of (1, m) and an indirect delete of (2, n) in t, an insert into u, and an update of (4, p) in t.
const REMOTE: &str =
    "540201007400120001000000000000000103016d090101000000000000000203016e54010175001200010000000000000001\
    5402010074001700010000000000000004030170000301\
    71";

// The delete, replaced, and the update, omitted.
const MET: &str = "5402010074000901010000000000000002\
    03016e540201007400170001000000000000000403017000030171";

fn conflict(change: u64, kind: ConflictKind, answer: Answer) -> Conflict {
    Conflict {
        change,
        kind,
        answer,
    }
}

// Whether the changes that met these conflicts have these bytes.
fn meets(alloc: Global, remote: &str, conflicts: &[Conflict], met: &str) -> Option<bool> {
    let bytes = hex::decode(alloc, remote).ok()?;
    let Contents::Changes(list) = read_blob(alloc, bytes.as_slice()).ok()? else {
        return None;
    };
    let buffer = buffer_of(alloc, &list, conflicts).ok()?;
    let made = write_changes_with(alloc, KeyFlags::Ones, &buffer).ok()?;
    let expected = hex::decode(alloc, met).ok()?;
    Some(made.as_slice() == expected.as_slice())
}

#[test]
fn changes_that_met_a_conflict(rt: HostRuntime) -> Result<(), Fail> {
    let conflicts = [
        conflict(1, ConflictKind::Data, Answer::Replace),
        conflict(3, ConflictKind::NotFound, Answer::Omit),
    ];
    assert!(rt; meets(rt.alloc(), REMOTE, &conflicts, MET) == Some(true));
    assert!(rt; meets(rt.alloc(), REMOTE, &[], "") == Some(true));
    Ok(())
}
