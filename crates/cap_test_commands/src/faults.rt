//! The text of each fault of a line, printed in two ways.

use cap_codec::{BlobFault, FaultKind};
use cap_script::{ScriptFault, print_fault};
use cap_value::Refusal;
use std::alloc::Global;

// The refusals of a command.
const REFUSALS: &[Refusal] = &[
    Refusal::TooLong,
    Refusal::BadSchema,
    Refusal::WrongWidth,
    Refusal::BadColumn,
    Refusal::Duplicate,
    Refusal::NoRow,
    Refusal::IdsSpent,
    Refusal::NoTable,
    Refusal::TableExists,
    Refusal::TooMany,
    Refusal::Stale {
        base: 1,
        now: 2,
        item: None,
    },
    Refusal::Stale {
        base: 1,
        now: 2,
        item: Some(7),
    },
    Refusal::BadFilter { at: 3 },
    Refusal::TooDeep,
    Refusal::Incompatible,
    Refusal::Aborted { at: 3 },
    Refusal::Misuse { at: 3 },
    Refusal::BadName,
    Refusal::NoSession,
    Refusal::NoDatabase,
    Refusal::NoMark,
];

// The faults of a blob.
const KINDS: &[FaultKind] = &[
    FaultKind::Truncated,
    FaultKind::BadHeader,
    FaultKind::BadVarint,
    FaultKind::BadName,
    FaultKind::BadOp,
    FaultKind::BadField,
    FaultKind::Real,
    FaultKind::BadText,
    FaultKind::BadRecord,
    FaultKind::Mixed,
];

// Whether the fault's `Display` prints what `print_fault` does.
fn is_printed_alike(alloc: Global, fault: ScriptFault) -> bool {
    match (format!(in alloc; "{fault}"), print_fault(alloc, fault)) {
        (Ok(displayed), Ok(printed)) => displayed.as_str() == printed.as_str(),
        _ => false,
    }
}

#[test]
fn a_syntax_fault_is_printed_alike(rt: HostRuntime) {
    let fault = ScriptFault::Syntax { line: 1, at: 20 };
    assert!(rt; is_printed_alike(rt.alloc(), fault));
}

#[test]
fn each_refusal_is_printed_alike(rt: HostRuntime) {
    for why in REFUSALS {
        let fault = ScriptFault::Limit { line: 3, why: *why };
        assert!(rt; is_printed_alike(rt.alloc(), fault));
    }
}

#[test]
fn each_fault_of_a_blob_is_printed_alike(rt: HostRuntime) {
    for kind in KINDS {
        let fault = BlobFault {
            at: 20,
            kind: *kind,
        };
        assert!(rt; is_printed_alike(rt.alloc(), ScriptFault::BadBlob { line: 3, fault }));
    }
}
