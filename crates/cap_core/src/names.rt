//! Lists of names.
ghost use Rattle.std.specs.Prelude.{◌≡◌, ◌∷◌, ◌++◌, [], IfOk, OnOk};
ghost use Rattle.std.specs.Map.{keys_of};

use cap_database::Database;
use cap_session::Session;
use cap_tree::Tree;
use cap_value::{AllocHandle, Name, OutOfMemory};
use std::marker::Model;

/// Names of tables or of saved databases, in order.
pub struct NameList<A: AllocHandle> {
    names: Vec<Name<A>, A>,
}

impl<A: AllocHandle> Model for NameList<A> {
    ghost use Rattle.std.specs.Prelude.{List, ℕ};

    ghost Value = { List (List ℕ) };

    ghost view = { λ l. l.names.items };
}

// A derived `Drop` would be opened in each caller's loop.
impl<A: AllocHandle> Drop for NameList<A> {
    fn drop(self) {
        let NameList { names: _ } = self;
    }
}

impl<A: AllocHandle> NameList<A> {
    // No names. Takes no memory.
    fn empty(alloc: A) -> Self
        ensures { result ≡ [] }
    {
        NameList {
            names: Vec::new(alloc),
        }
    }

    // Adds a name, last.
    fn push(&mut self, name: &Name<A>) -> Result<(), OutOfMemory>
        ensures { OnOk result (self.new ≡ self.old ++ name.now ∷ []) }
    {
        self.names.push(name.copy()?)?;
        Ok(())
    }

    /// The names.
    pub fn as_slice(&self) -> &[Name<A>]
        ensures { result.now ≡ self.now }
    {
        self.names.as_slice()
    }
}

// The names of the saved databases.
#[inline(never)]
pub(crate) fn names_of<A: AllocHandle>(
    alloc: A,
    saved: &Tree<Name<A>, Database<A>, A>,
) -> Result<NameList<A>, OutOfMemory>
    ensures { IfOk result (λ names. names ≡ keys_of saved.now) }
{
    let mut names = NameList::empty(alloc);
    for (name, _database) in saved {
        names.push(name)?;
    }
    Ok(names)
}

// The names of the tables that a session has attached.
pub(crate) fn names_attached<A: AllocHandle>(
    alloc: A,
    session: &Session<A>,
) -> Result<NameList<A>, OutOfMemory>
    ensures { IfOk result (λ names. names ≡ keys_of session.now.tables) }
{
    let mut names = NameList::empty(alloc);
    for (name, _records) in session.attached() {
        names.push(name)?;
    }
    Ok(names)
}
