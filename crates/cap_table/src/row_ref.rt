//! Names of rows.
ghost use Rattle.std.specs.Prelude.{◌≡◌, IfOk};

use cap_row::Key;
use cap_value::{AllocHandle, OutOfMemory};

/// The name of a row within its table.
#[derive(Drop)]
pub enum RowRef<A: AllocHandle> {
    /// The row with this primary key.
    Key(Key<A>),
    /// The row without a key that has this id. The ids of a table start at 1.
    Loose(u64),
}

impl<A: AllocHandle> RowRef<A> {
    /// The same name, which shares the key.
    pub fn copy(&self) -> Result<Self, OutOfMemory>
        ensures { IfOk result (λ copy. copy ≡ self.now) }
    {
        match self {
            RowRef::Key(key) => Ok(RowRef::Key(key.copy()?)),
            RowRef::Loose(id) => Ok(RowRef::Loose(*id)),
        }
    }
}
