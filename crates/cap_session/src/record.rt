//! The record of one touched row.

use cap_row::Row;
use cap_value::{AllocHandle, Exact, OutOfMemory};

/// The record of a touched row.
#[derive(Drop)]
pub struct Record<A: AllocHandle> {
    /// The first image: the row under the key before the commit that touched it first, or, where a diff
    /// touched it first, the row of the saved table. `None` where there was none.
    pub image: Option<Row<A>>,
    /// The indirect flag: whether every touch of the key was indirect.
    pub indirect: bool,
}

impl<A: AllocHandle> Record<A> {
    ghost use Rattle.std.specs.Prelude.{◌≡◌, IfOk};

    /// A copy, which shares the row.
    pub fn copy(&self) -> Result<Self, OutOfMemory>
        ensures { IfOk result (λ copy. copy ≡ self.now) }
    {
        let image = match &self.image {
            Some(row) => Some(row.copy()?),
            None => None,
        };
        Ok(Record {
            image,
            indirect: self.indirect,
        })
    }
}

/// A clone shares the row.
impl<A: AllocHandle> Clone for Record<A> {
    ghost use Rattle.std.specs.Prelude.{◌≡◌};

    ghost is_clone = { λ row clone. clone ≡ row };

    fn clone(&self) -> Result<Self, OutOfMemory> {
        self.copy()
    }
}

impl<A: AllocHandle> Exact for Record<A> {
    ghost exact = { λ row clone same. same };
}
