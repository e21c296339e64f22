//! What the numbers of an argument mean.
ghost use Rattle.std.specs.Prelude.{◌≡◌};
ghost use Rattle.cap_c.specs.Numbers.{answer_of, asked_of, buffered_answer_of, cause_of, key_flags_of};
ghost use Rattle.cap_c.specs.Numbers.{policy_of};

use cap_apply::{Answer, Policy};
use cap_codec::KeyFlags;
use cap_database::Cause;

/// The form of the key flags: `01` at each key column, or places within the key.
pub(crate) fn key_flags_of(number: u32) -> Option<KeyFlags>
    ensures { result ≡ key_flags_of number }
{
    match number {
        0 => Some(KeyFlags::Ones),
        1 => Some(KeyFlags::Places),
        _ => None,
    }
}

/// What a flag is to be: off, on, or only asked for.
pub(crate) fn asked_of(number: u32) -> Option<Option<bool>>
    ensures { result ≡ asked_of number }
{
    match number {
        0 => Some(Some(false)),
        1 => Some(Some(true)),
        2 => Some(None),
        _ => None,
    }
}

/// What causes an operation.
pub(crate) fn cause_of(number: u32) -> Option<Cause>
    ensures { result ≡ cause_of number }
{
    match number {
        0 => Some(Cause::Direct),
        1 => Some(Cause::Cascade),
        _ => None,
    }
}

/// The policy of these answers.
pub(crate) fn policy_of(on_data: u32, on_notfound: u32, on_conflict: u32) -> Option<Policy>
    ensures { result ≡ policy_of on_data on_notfound on_conflict }
{
    let on_data = answer_of(on_data)?;
    let on_notfound = answer_of(on_notfound)?;
    let on_conflict = answer_of(on_conflict)?;
    Some(Policy {
        on_data,
        on_notfound,
        on_conflict,
    })
}

/// The answer to a conflict.
pub(crate) fn answer_of(number: u32) -> Option<Answer>
    ensures { result ≡ answer_of number }
{
    match number {
        0 => Some(Answer::Omit),
        1 => Some(Answer::Replace),
        2 => Some(Answer::Abort),
        _ => None,
    }
}

/// The answer to a conflict in an application, which ABORT does not leave.
pub(crate) fn buffered_answer_of(number: u32) -> Option<Answer>
    ensures { result ≡ buffered_answer_of number }
{
    match number {
        0 => Some(Answer::Omit),
        1 => Some(Answer::Replace),
        _ => None,
    }
}
