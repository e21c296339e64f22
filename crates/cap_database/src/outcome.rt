//! What a list of operations leaves.
ghost use Rattle.std.specs.Prelude.{◌≡◌};

use crate::{Change, Database};
use cap_value::AllocHandle;
use std::marker::Model;

/// What accepted operations leave: the database, and all their changes, in order.
#[derive(Drop)]
pub struct Outcome<A: AllocHandle> {
    database: Database<A>,
    changes: Vec<Change<A>, A>,
}

impl<A: AllocHandle> Model for Outcome<A> {
    ghost use Rattle.cap_database.specs.Outcome.{OutcomeState};

    ghost Value = { OutcomeState A };

    ghost view = { λ o. record { database = o.database; changes = o.changes.items } };
}

impl<A: AllocHandle> Outcome<A> {
    pub(crate) fn new(database: Database<A>, changes: Vec<Change<A>, A>) -> Self
        ensures { result ≡ record { database = database; changes = changes.items } }
    {
        Outcome { database, changes }
    }

    /// The database after the operations.
    pub fn database(&self) -> &Database<A>
        ensures { result.now ≡ self.now.database }
    {
        &self.database
    }

    /// The changes, in order.
    pub fn changes(&self) -> &[Change<A>]
        ensures { result.now ≡ self.now.changes }
    {
        self.changes.as_slice()
    }

    /// The database and the changes.
    pub fn into_parts(self) -> (Database<A>, Vec<Change<A>, A>)
        ensures database { result.0 ≡ self.database }
        ensures changes { result.1.items ≡ self.changes }
    {
        let Outcome { database, changes } = self;
        (database, changes)
    }
}
