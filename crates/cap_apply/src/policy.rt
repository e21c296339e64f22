//! The policy that answers conflicts.
ghost use Rattle.std.specs.Prelude.{◌≡◌};

use crate::ConflictKind;

/// The answer to a conflict (The Session Extension, "sqlite3changeset_apply").
#[derive(Clone, Copy, Debug, PartialEq, Eq, Drop)]
pub enum Answer {
    /// The change is omitted, and the blob goes on.
    Omit,
    /// The change is applied all the same. Where there is no row, this is a misuse, which rolls back the
    /// blob.
    Replace,
    /// The whole blob is rolled back.
    Abort,
}

/// The answer to each kind of conflict, in place of a conflict handler.
#[derive(Clone, Copy, Debug, PartialEq, Eq, Drop)]
pub struct Policy {
    /// The row has other values than the old values of the change.
    pub on_data: Answer,
    /// There is no row to update or delete.
    pub on_notfound: Answer,
    /// The key of an inserted row is taken.
    pub on_conflict: Answer,
}

impl Policy {
    ghost use Rattle.cap_apply.specs.Policy.{always, answer_to};

    /// The same answer to each kind.
    pub fn always(answer: Answer) -> Self
        ensures { result ≡ always answer }
    {
        Policy {
            on_data: answer,
            on_notfound: answer,
            on_conflict: answer,
        }
    }

    /// The answer to a kind of conflict.
    pub fn answer(self, kind: ConflictKind) -> Answer
        ensures { result ≡ answer_to self kind }
    {
        match kind {
            ConflictKind::Data => self.on_data,
            ConflictKind::NotFound => self.on_notfound,
            ConflictKind::Conflict => self.on_conflict,
        }
    }
}
