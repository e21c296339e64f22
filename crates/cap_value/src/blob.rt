//! Blobs of at most 1,000,000,000 bytes.
ghost use Rattle.std.specs.Prelude.{◌≡◌, ◌≤◌, ℕ, List, length, IfOk};
ghost use Rattle.cap_value.specs.declared.limits.TheConstants.{VALUE_BYTES_MAX};
ghost use Rattle.std.specs.Result.{result_err};
ghost use Rattle.cap_value.specs.Memory.{AnswersUnlessMemory, RefusesFirst};
ghost use Rattle.cap_value.specs.Bytes.{AreBytes, within_limit};

use crate::limits::VALUE_BYTES_MAX;
use crate::{AllocHandle, Exact, Fault, OutOfMemory, Refusal};
use std::fmt::{self, Debug, Formatter, Write};
use std::marker::Model;
use std::sync::ArcSlice;

/// A blob of at most `VALUE_BYTES_MAX` bytes. Copies share the bytes.
#[derive(Drop)]
pub struct Blob<A: AllocHandle> {
    bytes: ArcSlice<u8, A>,
}

impl<A: AllocHandle> Model for Blob<A> {
    ghost use Rattle.std.specs.Prelude.{List, ℕ, ◌≤◌, length};
    ghost use Rattle.std.specs.Arc.{arc_slice_items};
    ghost use Rattle.cap_value.specs.declared.limits.TheConstants.{VALUE_BYTES_MAX};

    ghost Value = { List ℕ };

    ghost view = { λ b. arc_slice_items b.bytes };

    ghost invariant = { λ b. length (arc_slice_items b.bytes) ≤ VALUE_BYTES_MAX };
}

impl<A: AllocHandle> Blob<A> {
    /// The blob of these bytes. Refused with `TooLong` where they are more than `VALUE_BYTES_MAX`.
    pub fn new(alloc: A, bytes: &[u8]) -> Result<Self, Fault<Refusal>>
        ensures blob { AnswersUnlessMemory result (within_limit bytes.now) }
        ensures first { RefusesFirst (result_err (within_limit bytes.now)) result }
    {
        if bytes.len() > VALUE_BYTES_MAX {
            return Err(Fault::Refused(Refusal::TooLong));
        }
        Ok(Blob {
            bytes: ArcSlice::from_slice(alloc, bytes)?,
        })
    }

    /// The bytes, at most `VALUE_BYTES_MAX` of them.
    pub fn as_slice(&self) -> &[u8]
        ensures bytes { result.now ≡ self.now }
        ensures fits { length self.now ≤ VALUE_BYTES_MAX }
        ensures each { AreBytes self.now }
    {
        let bytes = self.bytes.as_slice();
        are_bytes(bytes);
        bytes
    }

    /// The same blob, which shares its bytes.
    pub fn copy(&self) -> Result<Self, OutOfMemory>
        ensures { IfOk result (λ copy. copy ≡ self.now) }
    {
        Ok(Blob {
            bytes: self.bytes.clone()?,
        })
    }
}

// Shows to a proof, which sees numbers, that each is a byte.
#[inline]
pub(crate) fn are_bytes(bytes: &[u8])
    ensures { AreBytes bytes.now }
{
    let _first = bytes.first();
}

impl<A: AllocHandle> Debug for Blob<A> {
    fn fmt<W: Write>(&self, f: &mut Formatter<W>) -> fmt::Result {
        Debug::fmt(&self.as_slice(), f)
    }
}

/// The same blob, which shares its bytes.
impl<A: AllocHandle> Clone for Blob<A> {
    ghost use Rattle.std.specs.Prelude.{◌≡◌};

    ghost is_clone = { λ blob clone. clone ≡ blob };

    fn clone(&self) -> Result<Self, OutOfMemory> {
        self.copy()
    }
}

impl<A: AllocHandle> Exact for Blob<A> {
    ghost exact = { λ blob clone same. same };
}
