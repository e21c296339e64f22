//! What is left of a change.
ghost use Rattle.std.specs.Prelude.{◌≡◌, None, Some, IfOk, IsTrue};
ghost use Rattle.cap_changes.specs.Fits.{change_fits};
ghost use Rattle.cap_rebase.specs.Flag as flag;
ghost use Rattle.cap_rebase.specs.Left.{change_in, IsLeft};

use crate::change::push_flagged;
use cap_changes::{EntryRef, RowChange};
use cap_value::{AllocHandle, OutOfMemory};
use std::marker::Model;

/// What is left of a change of a table, kept as its bytes; of some nothing is left.
#[derive(Drop)]
pub struct ChangeLeft<'s, A: AllocHandle> {
    // The columns of its table.
    flags: &'s [bool],
    // No bytes where nothing is left.
    bytes: Vec<u8, A>,
}

impl<'s, A: AllocHandle> Model for ChangeLeft<'s, A> {
    ghost use Rattle.std.specs.Prelude.{Option};
    ghost use Rattle.cap_changes.specs.declared.row_change.RowChange.{RowChange as Changed};
    ghost use Rattle.cap_rebase.specs.Left.{change_in, IsLeft};

    ghost Value = { Option (Changed A) };

    ghost view = { λ l. change_in l.flags.now l.bytes.items };

    ghost invariant = { λ l. IsLeft A l.flags.now l.bytes.items };
}

impl<'s, A: AllocHandle> ChangeLeft<'s, A> {
    // The change with these bytes, none where there are no bytes.
    pub(crate) fn of(flags: &'s [bool], bytes: Vec<u8, A>) -> Self
        requires { IsLeft A flags.now bytes.items }
        ensures { result ≡ change_in flags.now bytes.items }
    {
        ChangeLeft { flags, bytes }
    }

    // Nothing is left. Takes no memory.
    pub(crate) fn nothing(alloc: A, flags: &'s [bool]) -> Self
        ensures { result ≡ None }
    {
        ChangeLeft::of(flags, Vec::new(alloc))
    }

    // All of a change of a table with these columns.
    pub(crate) fn all(
        alloc: A,
        flags: &'s [bool],
        change: &EntryRef<'_, RowChange<A>>,
    ) -> Result<Self, OutOfMemory>
        requires { IsTrue (change_fits flags.now change.now) }
        ensures { IfOk result (λ left. left ≡ Some change.now) }
    {
        let bytes = Vec::from_slice(alloc, change.as_bytes())?;
        Ok(ChangeLeft::of(flags, bytes))
    }

    // The same with this indirect flag.
    pub(crate) fn flagged(
        alloc: A,
        flags: &'s [bool],
        indirect: bool,
        change: &EntryRef<'_, RowChange<A>>,
    ) -> Result<Self, OutOfMemory>
        requires { IsTrue (change_fits flags.now change.now) }
        ensures { IfOk result (λ left. left ≡ Some (flag.flagged indirect change.now)) }
    {
        // For the proof: a clause of `as_bytes` says that the fields are values.
        let _bytes = change.as_bytes();
        let mut bytes = Vec::new(alloc);
        push_flagged(&mut bytes, indirect, change.read())?;
        Ok(ChangeLeft::of(flags, bytes))
    }

    /// The change, if anything is left of it.
    pub fn get(&self) -> Option<EntryRef<'_, RowChange<A>>>
        ensures { result ≡ self.now }
    {
        if self.bytes.is_empty() {
            None
        } else {
            Some(EntryRef::of(self.flags, self.bytes.as_slice()))
        }
    }
}
