//! Words that are printed.
ghost use Rattle.std.specs.Prelude.{◌≡◌};
ghost use Rattle.cap_script.specs.Words.{answer_word, kind_word};

use cap_apply::{Answer, ConflictKind};

/// The word of an answer to a conflict.
pub fn answer_word(answer: Answer) -> &'static str
    ensures { result.now ≡ answer_word answer }
{
    match answer {
        Answer::Omit => "omit",
        Answer::Replace => "replace",
        Answer::Abort => "abort",
    }
}

/// The word of a kind of conflict.
pub fn kind_word(kind: ConflictKind) -> &'static str
    ensures { result.now ≡ kind_word kind }
{
    match kind {
        ConflictKind::Data => "data",
        ConflictKind::NotFound => "notfound",
        ConflictKind::Conflict => "conflict",
    }
}
