//! The live sessions as they are listed.
ghost use Rattle.std.specs.Prelude.{◌≡◌, IfOk};
ghost use Rattle.cap_core.specs.Listed.{listed_sessions};

use crate::ListedSession;
use cap_session::Sessions;
use cap_value::{AllocHandle, OutOfMemory};
use std::marker::Model;

/// The live sessions, in the order in which they were created.
pub struct SessionList<A: AllocHandle> {
    sessions: Vec<ListedSession<A>, A>,
}

impl<A: AllocHandle> Model for SessionList<A> {
    ghost use Rattle.std.specs.Prelude.{List};
    ghost use Rattle.cap_core.specs.declared.listed_session.ListedSession.{ListedSession};

    ghost Value = { List (ListedSession A) };

    ghost view = { λ l. l.sessions.items };
}

// A derived `Drop` would be opened in each caller's loop.
impl<A: AllocHandle> Drop for SessionList<A> {
    fn drop(self) {
        let SessionList { sessions: _ } = self;
    }
}

impl<A: AllocHandle> SessionList<A> {
    // These sessions.
    #[inline(never)]
    pub(crate) fn of(alloc: A, sessions: &Sessions<A>) -> Result<Self, OutOfMemory>
        ensures { IfOk result (λ list. list ≡ listed_sessions sessions.now) }
    {
        let live = sessions.numbered();
        let mut list = Vec::with_capacity(alloc, live.len())?;
        for (number, session) in live {
            list.push(ListedSession::of(alloc, *number, session)?)?;
        }
        Ok(SessionList { sessions: list })
    }

    /// The sessions.
    pub fn as_slice(&self) -> &[ListedSession<A>]
        ensures { result.now ≡ self.now }
    {
        self.sessions.as_slice()
    }
}
