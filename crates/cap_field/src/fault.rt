//! Faults of malformed blobs.

ghost use Rattle.std.specs.Prelude.{◌≡◌};
ghost use Rattle.cap_field.specs.FaultName.{kind_name};

use cap_value::Fault;
use std::error::Error;
use std::fmt;

/// The kinds of faults. The text of a kind is its number and name; the numbers never change.
#[derive(Clone, Copy, Debug, PartialEq, Eq, Drop)]
pub enum FaultKind {
    /// The blob ends inside a group's header or inside a change.
    Truncated,
    /// The first byte is no group kind, the column count is 0 or above 2,000, or no column is in the key.
    BadHeader,
    /// A varint is not in its shortest form, or longer than five bytes.
    BadVarint,
    /// A table's name is empty, longer than 255 bytes, or not UTF-8.
    BadName,
    /// A byte after a header or a change begins neither a change nor a group.
    BadOp,
    /// A field's type byte is unknown, or its length is above 1,000,000,000.
    BadField,
    /// A field is a REAL.
    Real,
    /// A text is not UTF-8.
    BadText,
    /// A field does not satisfy its requirement: defined or undefined where it must not be, or a NULL key
    /// field.
    BadRecord,
    /// A changeset's group follows a patchset's, or the other way round.
    Mixed,
}

impl FaultKind {
    /// The number and the name, as they are printed.
    #[tactic(auto, unfolding(crate::specs::FaultName::kind_name))]
    pub fn name(self) -> &'static str
        ensures name { result.now ≡ kind_name self }
    {
        match self {
            FaultKind::Truncated => "D1 Truncated",
            FaultKind::BadHeader => "D2 BadHeader",
            FaultKind::BadVarint => "D3 BadVarint",
            FaultKind::BadName => "D4 BadName",
            FaultKind::BadOp => "D5 BadOp",
            FaultKind::BadField => "D6 BadField",
            FaultKind::Real => "D7 Real",
            FaultKind::BadText => "D8 BadText",
            FaultKind::BadRecord => "D9 BadRecord",
            FaultKind::Mixed => "D10 Mixed",
        }
    }
}

impl fmt::Display for FaultKind {
    ghost use Rattle.std.specs.Prelude.{Some};
    ghost use Rattle.cap_field.specs.FaultName.{kind_name};

    ghost output = { λ kind. Some (kind_name kind) };

    fn fmt<W: fmt::Write>(&self, f: &mut fmt::Formatter<W>) -> fmt::Result {
        f.write_str(self.name())
    }
}

/// The first fault of a blob, from left to right.
#[derive(Clone, Copy, Debug, PartialEq, Eq, Drop)]
pub struct BlobFault {
    /// The offset of the part with the fault, or the blob's length where it ends too early.
    pub at: usize,
    /// What is wrong there.
    pub kind: FaultKind,
}

impl fmt::Display for BlobFault {
    ghost use Rattle.std.specs.Prelude.{Some};
    ghost use Rattle.cap_field.specs.FaultName.{fault_text};

    ghost output = { λ fault. Some (fault_text fault) };

    fn fmt<W: fmt::Write>(&self, f: &mut fmt::Formatter<W>) -> fmt::Result {
        write!(f, "{} at {}", self.kind, self.at)
    }
}

impl Error for BlobFault {}

impl From<BlobFault> for Fault<BlobFault> {
    ghost use Rattle.cap_value.specs.declared.memory.Fault.TheVariants.{Refused};

    ghost from_gives = { λ fault refused. refused ≡ Refused fault };

    fn from(fault: BlobFault) -> Fault<BlobFault> {
        Fault::Refused(fault)
    }
}
