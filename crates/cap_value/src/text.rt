//! Texts of at most 1,000,000,000 bytes.
ghost use Rattle.std.specs.Prelude.{◌≡◌, ◌≤◌, ℕ, List, length, IfOk, IsUtf8};
ghost use Rattle.std.specs.Result.{result_err};
ghost use Rattle.cap_value.specs.Memory.{AnswersUnlessMemory, RefusesFirst};
ghost use Rattle.cap_value.specs.Bytes.{AreBytes, within_limit};

use crate::blob::are_bytes;
use crate::limits::VALUE_BYTES_MAX;
use crate::{AllocHandle, Exact, Fault, OutOfMemory, Refusal};
use std::cmp::Ordering;
use std::fmt::{self, Debug, Formatter, Write};
use std::marker::Model;
use std::sync::ArcStr;

/// A text of at most `VALUE_BYTES_MAX` bytes of UTF-8. Copies share the bytes.
#[derive(Drop)]
pub struct Text<A: AllocHandle> {
    text: ArcStr<A>,
}

impl<A: AllocHandle> Model for Text<A> {
    ghost use Rattle.std.specs.Prelude.{List, ℕ, ◌≤◌, length};
    ghost use Rattle.std.specs.Arc.{arc_str_bytes};
    ghost use Rattle.cap_value.specs.declared.limits.TheConstants.{VALUE_BYTES_MAX};

    ghost Value = { List ℕ };

    ghost view = { λ t. arc_str_bytes t.text };

    ghost invariant = { λ t. length (arc_str_bytes t.text) ≤ VALUE_BYTES_MAX };
}

impl<A: AllocHandle> Text<A> {
    /// The text with these bytes. Refused with `TooLong` where they are more than `VALUE_BYTES_MAX`.
    pub fn new(alloc: A, text: &str) -> Result<Self, Fault<Refusal>>
        ensures text { AnswersUnlessMemory result (within_limit text.now) }
        ensures first { RefusesFirst (result_err (within_limit text.now)) result }
    {
        if text.len() > VALUE_BYTES_MAX {
            return Err(Fault::Refused(Refusal::TooLong));
        }
        Ok(Text {
            text: ArcStr::from_str(alloc, text)?,
        })
    }

    /// The text, which is at most `VALUE_BYTES_MAX` bytes long.
    pub fn as_str(&self) -> &str
        ensures bytes { result.now ≡ self.now }
        ensures fits { length self.now ≤ VALUE_BYTES_MAX }
        ensures utf8 { IsUtf8 self.now }
        ensures each { AreBytes self.now }
    {
        let text = self.text.as_str();
        are_bytes(text.as_bytes());
        text
    }

    /// The same text, which shares its bytes.
    pub fn copy(&self) -> Result<Self, OutOfMemory>
        ensures { IfOk result (λ copy. copy ≡ self.now) }
    {
        Ok(Text {
            text: self.text.clone()?,
        })
    }
}

impl<A: AllocHandle> Debug for Text<A> {
    fn fmt<W: Write>(&self, f: &mut Formatter<W>) -> fmt::Result {
        Debug::fmt(&self.as_str(), f)
    }
}

/// The same text, which shares its bytes.
impl<A: AllocHandle> Clone for Text<A> {
    ghost use Rattle.std.specs.Prelude.{◌≡◌};

    ghost is_clone = { λ text clone. clone ≡ text };

    fn clone(&self) -> Result<Self, OutOfMemory> {
        self.copy()
    }
}

impl<A: AllocHandle> Exact for Text<A> {
    ghost exact = { λ text clone same. same };
}
