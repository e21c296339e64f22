//! The fault of a blob, and the refusal of a command, as C sees them.
ghost use Rattle.std.specs.Prelude.{◌≡◌};
ghost use Rattle.cap_c.specs.Fault.{kind_number, placed, placed_in_text};
ghost use Rattle.cap_connection.specs.declared.fault.TextFault.TheVariants.{InLine};
ghost use Rattle.cap_c.specs.Refusal.{filter_fault, overtaken, place_of, refusal_number, refused};

use cap_codec::{BlobFault, FaultKind};
use cap_connection::TextFault;
use cap_script::ScriptFault;
use cap_value::Refusal;

const SYNTAX: u32 = 1;

const LIMIT: u32 = 2;

const BAD_BLOB: u32 = 3;

/// Why a call is refused, and where. For bytes that are no blob: the number of the fault
/// (docs/manual/formats.md, "Reading"), and its offset. For a command: the number of the refusal
/// (docs/manual/rules.md, "Refusals"), and that of the refused operation or change, or of the item that has
/// changed, from 0. For a text that is no command or no filter `changecap.h` has both.
#[repr(C)]
#[derive(Clone, Copy, Drop)]
pub struct PlacedFault {
    pub kind: u32,
    pub at: usize,
}

impl PlacedFault {
    pub(crate) fn of(fault: BlobFault) -> Self
        ensures { result ≡ placed fault }
    {
        PlacedFault {
            kind: kind_number(fault.kind),
            at: fault.at,
        }
    }

    pub(crate) fn refused(at: Option<u64>, why: Refusal) -> Self
        ensures { result ≡ refused at why }
    {
        PlacedFault {
            kind: refusal_number(why),
            at: place_of(at, why) as usize,
        }
    }

    pub(crate) fn overtaken(front: u64) -> Self
        ensures { result ≡ overtaken front }
    {
        PlacedFault {
            kind: 0,
            at: front as usize,
        }
    }

    pub(crate) fn in_filter(why: Refusal) -> Self
        ensures { result ≡ filter_fault why }
    {
        match why {
            Refusal::BadFilter { at } => PlacedFault::refused(Some(at), why),
            _ => PlacedFault::refused(None, why),
        }
    }

    pub(crate) fn in_text(why: TextFault) -> Self
        ensures { result ≡ placed_in_text why }
    {
        match why {
            TextFault::NotOne => PlacedFault { kind: 0, at: 0 },
            TextFault::InLine(fault) => PlacedFault::in_line(fault),
        }
    }

    // The number of the kind, as the fault's text has it, and its offset.
    fn in_line(fault: ScriptFault) -> Self
        ensures { result ≡ placed_in_text (InLine fault) }
    {
        match fault {
            ScriptFault::Syntax { at, .. } => PlacedFault {
                kind: SYNTAX,
                at: at as usize,
            },
            ScriptFault::Limit { .. } => PlacedFault { kind: LIMIT, at: 0 },
            ScriptFault::BadBlob { fault, .. } => PlacedFault {
                kind: BAD_BLOB,
                at: fault.at,
            },
        }
    }
}

// The number of the refused operation or change, or of the item that has changed, or 0.
fn place_of(at: Option<u64>, why: Refusal) -> u64
    ensures { result ≡ place_of at why }
{
    match why {
        Refusal::Stale {
            item: Some(item),
            ..
        } => item,
        _ => at.unwrap_or(0),
    }
}

// The number, as `Refusal` has it.
fn refusal_number(why: Refusal) -> u32
    ensures { result ≡ refusal_number why }
{
    match why {
        Refusal::TooLong => 1,
        Refusal::BadSchema => 2,
        Refusal::WrongWidth => 3,
        Refusal::BadColumn => 4,
        Refusal::Duplicate => 5,
        Refusal::NoRow => 6,
        Refusal::IdsSpent => 7,
        Refusal::NoTable => 8,
        Refusal::TableExists => 9,
        Refusal::TooMany => 10,
        Refusal::Stale { .. } => 11,
        Refusal::BadFilter { .. } => 12,
        Refusal::TooDeep => 13,
        Refusal::Incompatible => 14,
        Refusal::Aborted { .. } => 15,
        Refusal::Misuse { .. } => 16,
        Refusal::BadName => 17,
        Refusal::NoSession => 18,
        Refusal::NoDatabase => 19,
        Refusal::NoMark => 20,
    }
}

fn kind_number(kind: FaultKind) -> u32
    ensures { result ≡ kind_number kind }
{
    match kind {
        FaultKind::Truncated => 1,
        FaultKind::BadHeader => 2,
        FaultKind::BadVarint => 3,
        FaultKind::BadName => 4,
        FaultKind::BadOp => 5,
        FaultKind::BadField => 6,
        FaultKind::Real => 7,
        FaultKind::BadText => 8,
        FaultKind::BadRecord => 9,
        FaultKind::Mixed => 10,
    }
}
