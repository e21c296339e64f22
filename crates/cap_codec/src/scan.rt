//! Scanning a prefix of a blob, change by change: how far it is complete, and whether it has a fault that no
//! further bytes can mend.

ghost use Rattle.std.specs.Prelude.{◌≡◌, IfSome, OnErr};
ghost use Rattle.cap_value.specs.Memory.{ShowsUnlessMemory};
ghost use Rattle.cap_codec.specs.Pieces.{part_at, part_as, IsPlace, IsScanned, Scans};

use crate::group::set_flags;
use crate::header::{fault, take_header};
use crate::missing::missing;
use crate::read::wrong_kind;
use cap_changes::{CHANGESET_KIND, Entry, Operation, PATCHSET_KIND, Patch, RowChange};
use cap_field::{BlobFault, FaultKind, place_of, take_byte};
use cap_value::{AllocHandle, Fault};

// Whether groups are of a changeset or of a patchset.
#[derive(Clone, Copy)]
enum Kind {
    Changes,
    Patches,
}

/// A position up to which the headers and changes of a blob are complete and without a fault.
#[derive(Drop)]
pub struct ScanPosition<A: AllocHandle> {
    // The kind of the blob's groups.
    kind: Kind,
    // The key flags of the current group's columns, none before the first header.
    flags: Vec<bool, A>,
    // How many bytes were scanned.
    at: usize,
    // Whatever follows, no fault but `Truncated` is there before the blob has this many bytes.
    due: usize,
}

// Passes the next change or header in a group of these columns, and answers the bytes behind it.
fn pass_part<'a, C: Entry, A: AllocHandle>(
    alloc: A,
    total: usize,
    flags: &mut Vec<bool, A>,
    bytes: &'a [u8],
) -> Result<&'a [u8], Fault<BlobFault>>
    ensures gives { ShowsUnlessMemory (λ rest. (flags.new.items, rest.now)) result
        (part_at C.one_at C.kind total flags.old.items bytes.now) }
    ensures kept { OnErr result (flags.new ≡ flags.old) }
{
    let (first, behind) = take_byte(total, bytes)?;
    if let Some(operation) = Operation::of(first) {
        return Ok(C::pass(total, flags.as_slice(), operation, behind)?);
    }
    if first != C::kind() {
        return Err(Fault::Refused(wrong_kind(first, place_of(total, bytes))));
    }
    let (header, rest) = take_header(total, behind)?;
    *flags = set_flags(alloc, header.flags)?;
    Ok(rest)
}

// The same in groups of this kind.
fn pass_as<'a, A: AllocHandle>(
    alloc: A,
    total: usize,
    kind: Kind,
    flags: &mut Vec<bool, A>,
    bytes: &'a [u8],
) -> Result<&'a [u8], Fault<BlobFault>>
    ensures gives { ShowsUnlessMemory (λ rest. (flags.new.items, rest.now)) result
        (part_as A kind total flags.old.items bytes.now) }
    ensures kept { OnErr result (flags.new ≡ flags.old) }
{
    match kind {
        Kind::Changes => pass_part::<RowChange<A>, A>(alloc, total, flags, bytes),
        Kind::Patches => pass_part::<Patch<A>, A>(alloc, total, flags, bytes),
    }
}

// Scans from a position, as far as the changes and headers are complete.
fn scan_from<A: AllocHandle>(
    alloc: A,
    bytes: &[u8],
    place: ScanPosition<A>,
) -> Result<Option<ScanPosition<A>>, Fault<BlobFault>>
    requires { IsPlace bytes.now place }
    ensures { Scans result bytes.now }
{
    let mut place = place;
    loop {
        let rest = &bytes[place.at..];
        match pass_as(alloc, bytes.len(), place.kind, &mut place.flags, rest) {
            Ok(behind) => place.at = place_of(bytes.len(), behind),
            Err(Fault::Refused(fault)) => {
                // Further bytes may mend a blob that ends too early.
                if fault.kind == FaultKind::Truncated {
                    let missing = missing::<A>(bytes.len(), rest);
                    place.due = bytes.len().saturating_add(missing);
                    return Ok(Some(place));
                }
                return Err(Fault::Refused(fault));
            }
            Err(Fault::OutOfMemory) => return Err(Fault::OutOfMemory),
        }
    }
}

/// Scans what is complete of these bytes, from a position on, once more is due. Refused with the fault that
/// no further bytes can mend.
#[tactic(auto, using(crate::proofs::Looking::first_leads, crate::proofs::Looking::quiet_now), unfolding(crate::specs::BlobReading::blob_at))]
pub fn scan<A: AllocHandle>(
    alloc: A,
    bytes: &[u8],
    place: Option<ScanPosition<A>>,
) -> Result<Option<ScanPosition<A>>, Fault<BlobFault>>
    requires { IfSome place (IsScanned bytes.now) }
    ensures { Scans result bytes.now }
{
    if let Some(place) = place {
        if bytes.len() < place.due {
            return Ok(Some(place));
        }
        return scan_from(alloc, bytes, place);
    }
    let kind = match bytes {
        [] => return Ok(None),
        [CHANGESET_KIND, ..] => Kind::Changes,
        [PATCHSET_KIND, ..] => Kind::Patches,
        _ => return Err(Fault::Refused(fault(0, FaultKind::BadHeader))),
    };
    let place = ScanPosition {
        kind,
        flags: Vec::new(alloc),
        at: 0,
        due: 0,
    };
    scan_from(alloc, bytes, place)
}
