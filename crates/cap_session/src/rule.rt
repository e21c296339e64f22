//! The rule by which a session attaches tables by itself.
ghost use Rattle.std.specs.Prelude.{◌≡◌, IfOk};
ghost use Rattle.cap_session.specs.Session.{accepts_by, all_unless_filter};

use cap_filter::TableFilter;
use cap_value::{AllocHandle, Name, OutOfMemory};

/// Which tables a session attaches by itself when one of their rows changes (SQLite's sqlite3session_attach
/// with no name, and sqlite3session_table_filter).
#[derive(Drop)]
pub enum AutomaticRule<A: AllocHandle> {
    /// No table.
    Nothing,
    /// Every table.
    All,
    /// The tables whose names the filter accepts.
    Filter(TableFilter<A>),
}

impl<A: AllocHandle> AutomaticRule<A> {
    pub(crate) fn accepts(&self, name: &Name<A>) -> bool
        ensures { result ≡ accepts_by self.now name.now }
    {
        match self {
            AutomaticRule::Nothing => false,
            AutomaticRule::All => true,
            AutomaticRule::Filter(filter) => filter.accepts(name),
        }
    }

    // Accepts every table, unless a filter is set.
    pub(crate) fn accept_all(&mut self)
        ensures { self.new ≡ all_unless_filter self.old }
    {
        match self {
            AutomaticRule::Filter(_) => {}
            _ => *self = AutomaticRule::All,
        }
    }

    pub(crate) fn copy(&self) -> Result<Self, OutOfMemory>
        ensures { IfOk result (λ copy. copy ≡ self.now) }
    {
        match self {
            AutomaticRule::Nothing => Ok(AutomaticRule::Nothing),
            AutomaticRule::All => Ok(AutomaticRule::All),
            AutomaticRule::Filter(filter) => Ok(AutomaticRule::Filter(filter.copy()?)),
        }
    }
}
