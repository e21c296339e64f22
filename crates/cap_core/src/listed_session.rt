//! A live session as it is listed.
ghost use Rattle.std.specs.Prelude.{◌≡◌, IfOk};
ghost use Rattle.cap_core.specs.Listed.{listed_session};

use crate::NameList;
use crate::names::names_attached;
use cap_session::Session;
use cap_value::{AllocHandle, OutOfMemory};

/// A live session: its flags, its attached tables, and whether it has recorded a row.
#[derive(Drop)]
pub struct ListedSession<A: AllocHandle> {
    /// Its number.
    pub number: u64,
    /// Whether it records what commits change.
    pub enabled: bool,
    /// Its indirect flag.
    pub indirect: bool,
    /// Whether it has recorded no row.
    pub is_empty: bool,
    /// The names of its attached tables, in the order in which they were attached.
    pub attached: NameList<A>,
}

impl<A: AllocHandle> ListedSession<A> {
    // The session with this number.
    pub(crate) fn of(alloc: A, number: u64, session: &Session<A>) -> Result<Self, OutOfMemory>
        ensures { IfOk result (λ listed. listed ≡ listed_session (number, session.now)) }
    {
        Ok(ListedSession {
            number,
            enabled: session.is_enabled(),
            indirect: session.is_indirect(),
            is_empty: session.is_empty(),
            attached: names_attached(alloc, session)?,
        })
    }
}
