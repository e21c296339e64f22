//! Changesets over buffers. The values are counted by hand from rows of three columns, of which the first is
//! the key: what a base had, what a client made of it, and what a hub did.
use cap_changes::ChangeList;
use cap_codec::{Contents, KeyFlags, read_blob, write_changes_with};
use cap_rebase::{RebaseRefusal, Rebaser};
use cap_value::Fault;
use std::alloc::Global;
use std::test::*;

// What the changesets of a case are: the local one, the buffers, and the rebased one.
struct Case<'a> {
    local: &'a str,
    buffers: &'a [&'a str],
    rebased: &'a str,
}

// A changeset, or none where the digits spell none.
fn changes(alloc: Global, digits: &str) -> Option<ChangeList<Global>> {
    let bytes = hex::decode(alloc, digits).ok()?;
    match read_blob(alloc, bytes.as_slice()) {
        Ok(Contents::Changes(list)) => Some(list),
        _ => None,
    }
}

// Configures a rebaser with each of these buffers: whether all are taken.
fn configure_all(alloc: Global, rebaser: &mut Rebaser<Global>, buffers: &[&str]) -> bool {
    for digits in buffers {
        let Some(buffer) = changes(alloc, digits) else {
            return false;
        };
        if rebaser.configure(buffer).is_err() {
            return false;
        }
    }
    true
}

// Whether the changeset over the buffers has these bytes.
fn rebases_to(alloc: Global, rebaser: &Rebaser<Global>, local: &str, rebased: &str) -> bool {
    let Some(list) = changes(alloc, local) else {
        return false;
    };
    let Ok(made) = rebaser.rebase(&list) else {
        return false;
    };
    match (
        write_changes_with(alloc, KeyFlags::Ones, &made),
        hex::decode(alloc, rebased),
    ) {
        (Ok(bytes), Ok(expected)) => bytes.as_slice() == expected.as_slice(),
        _ => false,
    }
}

fn holds(alloc: Global, case: &Case) -> bool {
    let mut rebaser = Rebaser::new(alloc);
    configure_all(alloc, &mut rebaser, case.buffers)
        && rebases_to(alloc, &rebaser, case.local, case.rebased)
}

// The number of the first case that does not hold, or how many there are.
fn first_wrong(alloc: Global, cases: &[Case]) -> usize {
    for (number, case) in cases.iter().enumerate() {
        if !holds(alloc, case) {
            return number;
        }
    }
    cases.len()
}

// One local change over one remote change.
const ONE_ROW: &[Case] = &[
    // No conflict: the client sets one column, the hub another.
    Case {
        local: "540301000074001700010000000000000001030161000003017800",
        buffers: &[""],
        rebased: "540301000074001700010000000000000001030161000003017800",
    },
    // Both insert, (1, n, q) and (1, m, q): omitted, equal and omitted, replaced.
    Case {
        local: "54030100007400120001000000000000000103016e030171",
        buffers: &["54030100007400120001000000000000000103016d030171"],
        rebased: "54030100007400170001000000000000000103016d000003016e00",
    },
    Case {
        local: "54030100007400120001000000000000000103016e030171",
        buffers: &["54030100007400120001000000000000000103016e030171"],
        rebased: "",
    },
    Case {
        local: "54030100007400120001000000000000000103016e030171",
        buffers: &["54030100007400120101000000000000000103016d030171"],
        rebased: "",
    },
    // Both update (1, a, b). The client sets x, the hub y and z, omitted: what the hub did is undone.
    Case {
        local: "540301000074001700010000000000000001030161000003017800",
        buffers: &["5403010000740017000100000000000000010301610301620003017903017a"],
        rebased: "54030100007400170001000000000000000103017903017a00030178030162",
    },
    // The client sets x and y, the hub r in place of x, replaced: y stays.
    Case {
        local: "54030100007400170001000000000000000103016103016200030178030179",
        buffers: &["540301000074001701010000000000000001030161000003017200"],
        rebased: "540301000074001700010000000000000001000301620000030179",
    },
    // Both set the same column, replaced.
    Case {
        local: "540301000074001700010000000000000001030161000003017800",
        buffers: &["540301000074001701010000000000000001030161000003017200"],
        rebased: "",
    },
    // The hub deletes what the client updates: omitted, replaced.
    Case {
        local: "540301000074001700010000000000000001030161000003017800",
        buffers: &["540301000074000900010000000000000001030161030162"],
        rebased: "540301000074001200010000000000000001030178030162",
    },
    Case {
        local: "540301000074001700010000000000000001030161000003017800",
        buffers: &["540301000074000901010000000000000001030161030162"],
        rebased: "",
    },
    // The client deletes what the hub updates, and what it deletes.
    Case {
        local: "540301000074000900010000000000000001030161030162",
        buffers: &["540301000074001700010000000000000001030161000003017900"],
        rebased: "540301000074000900010000000000000001030179030162",
    },
    Case {
        local: "540301000074000900010000000000000001030161030162",
        buffers: &["540301000074000900010000000000000001030161030162"],
        rebased: "",
    },
];

// Several remote changes of one row, an indirect local change, other rows and other tables.
const SEVERAL: &[Case] = &[
    // The client sets x and y; the hub sets r in place of x, omitted, and s in place of y, replaced.
    Case {
        local: "54030100007400170001000000000000000103016103016200030178030179",
        buffers: &[
            "540301000074001700010000000000000001030161000003017200",
            "540301000074001701010000000000000001000301620000030173",
        ],
        rebased: "540301000074001700010000000000000001030172000003017800",
    },
    // The hub deletes and inserts again, both omitted.
    Case {
        local: "540301000074001700010000000000000001030161000003017800",
        buffers: &[
            "540301000074000900010000000000000001030161030162",
            "54030100007400120001000000000000000103016d03016e",
        ],
        rebased: "54030100007400170001000000000000000103016d03016e00030178030162",
    },
    // Both insert, omitted; the hub then sets r, replaced.
    Case {
        local: "54030100007400120001000000000000000103016e030171",
        buffers: &[
            "54030100007400120001000000000000000103016d030170",
            "54030100007400170101000000000000000103016d000003017200",
        ],
        rebased: "540301000074001700010000000000000001000301700000030171",
    },
    // An indirect change stays one. The row under 2 and the table u, of other columns, are not in the buffer.
    Case {
        local: "54030100007400120101000000000000000103016e0301711200010000000000000002030170030171\
            54010175001200010000000000000001",
        buffers: &["54030100007400120001000000000000000103016d030171"],
        rebased: "54030100007400170101000000000000000103016d000003016e0012000100000000000000020301700301\
            7154010175001200010000000000000001",
    },
];

#[test]
fn one_remote_change(rt: HostRuntime) {
    assert!(rt; first_wrong(rt.alloc(), ONE_ROW) == 11);
}

#[test]
fn several_changes(rt: HostRuntime) {
    assert!(rt; first_wrong(rt.alloc(), SEVERAL) == 4);
}

// The group with other columns.
fn place(fault: Fault<RebaseRefusal>) -> Option<usize> {
    match fault {
        Fault::Refused(RebaseRefusal::OtherColumns { group }) => Some(group),
        Fault::OutOfMemory => None,
    }
}

// The place at which a changeset is refused as a buffer, and at which it is refused to be rebased.
fn refused_places(alloc: Global, known: &str, digits: &str) -> Option<(usize, usize)> {
    let mut rebaser = Rebaser::new(alloc);
    if !configure_all(alloc, &mut rebaser, &[known]) {
        return None;
    }
    let list = changes(alloc, digits)?;
    let rebased = place(rebaser.rebase(&list).err()?)?;
    let added = place(rebaser.configure(list).err()?)?;
    Some((added, rebased))
}

// An insert into v, and one into t, of which the buffer has three columns.
const OTHER_COLUMNS: &str =
    "54010176001200010000000000000001540201007400120001000000000000000103016d";

#[test]
fn other_columns(rt: HostRuntime) -> Result<(), Fail> {
    let known = "540301000074000900010000000000000001030161030162";
    assert!(rt; refused_places(rt.alloc(), known, OTHER_COLUMNS) == Some((1, 1)));
    Ok(())
}
