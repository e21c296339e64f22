//! Whether one change is applied.
ghost use Rattle.std.specs.Prelude.{◌≡◌};
ghost use Rattle.cap_apply.specs.Policy.{is_made};

use crate::{Answer, ConflictKind, Policy};
use cap_value::Refusal;

/// By what a change is decided.
#[derive(Clone, Copy, Drop)]
pub struct Decision {
    /// Its number, counted from 0 over the whole blob.
    pub number: u64,
    /// The answer to its conflict, if it meets one.
    pub policy: Policy,
}

impl Decision {
    // Whether the change is applied, by its conflict, if any.
    pub(crate) fn is_made(self, conflict: Option<ConflictKind>) -> Result<bool, Refusal>
        ensures { result ≡ is_made self.policy self.number conflict }
    {
        let Some(kind) = conflict else {
            return Ok(true);
        };
        match (self.policy.answer(kind), kind) {
            (Answer::Omit, _) => Ok(false),
            (Answer::Abort, _) => Err(Refusal::Aborted { at: self.number }),
            (Answer::Replace, ConflictKind::NotFound) => Err(Refusal::Misuse { at: self.number }),
            (Answer::Replace, _) => Ok(true),
        }
    }
}
