//! What changes of one row are together.
ghost use Rattle.std.specs.Prelude.{◌≡◌, ◌++◌, IsTrue, None, OnOk};
ghost use Rattle.std.specs.Option.{option_to_list};
ghost use Rattle.cap_group.specs.KeyedChanges.{change_after};

use crate::combine::Combine;
use crate::record::either;
use cap_changes::{EntryRef, TableGroup};
use cap_value::{AllocHandle, OutOfMemory};
use std::marker::{Model, PhantomData};
use std::mem;

// What the changes of one row are together, as its bytes, if they are a change.
pub(crate) struct Together<'a, C: Combine<A> + Drop, A: AllocHandle> {
    // The columns of their table.
    flags: &'a [bool],
    some: bool,
    // Whether there was one change so far, and its bytes. Of more than one they are those behind.
    is_only: bool,
    only: &'a [u8],
    bytes: Vec<u8, A>,
    // Where the next ones are written.
    spare: Vec<u8, A>,
    marker: PhantomData<C>,
}

impl<'a, C: Combine<A> + Drop, A: AllocHandle> Model for Together<'a, C, A> {
    ghost use Rattle.std.specs.Prelude.{IsTrue, None, Some, if◌then◌else◌};
    ghost use Rattle.cap_changes.specs.Stored.{IsEntry};
    ghost use Rattle.cap_group.specs.Place.{RowSoFar};

    ghost Value = { RowSoFar C };

    ghost view = { λ t. record {
      flags = t.flags.now;
      change = if t.some
          then Some (C.stored t.flags.now (if t.is_only then t.only.now else t.bytes.items)) else None;
    } };

    ghost invariant = { λ t. IsTrue t.some → IsEntry C.fits_in C.has_values C.bytes_of t.flags.now
        (C.stored t.flags.now (if t.is_only then t.only.now else t.bytes.items))
        (if t.is_only then t.only.now else t.bytes.items) };
}

// A derived `Drop` would be opened in each caller's loop.
impl<'a, C: Combine<A> + Drop, A: AllocHandle> Drop for Together<'a, C, A> {
    fn drop(self) {
        let Together {
            flags: _,
            some: _,
            is_only: _,
            only: _,
            bytes: _,
            spare: _,
            marker: _,
        } = self;
    }
}

impl<'a, C: Combine<A> + Drop, A: AllocHandle> Together<'a, C, A> {
    // No change so far.
    pub(crate) fn new(alloc: A, flags: &'a [bool]) -> Self
        ensures { result ≡ record { flags = flags.now; change = None } }
    {
        Together {
            flags,
            some: false,
            is_only: false,
            only: &[],
            bytes: Vec::new(alloc),
            spare: Vec::new(alloc),
            marker: PhantomData,
        }
    }

    // Adds a change of the row.
    pub(crate) fn add(&mut self, added: &EntryRef<'a, C>) -> Result<(), OutOfMemory>
        requires { IsTrue (C.fits_in self.old.flags added.now) }
        ensures { OnOk result (self.new ≡ record self.old {
          change = change_after C.combined self.old.flags self.old.change added.now;
        }) }
    {
        let only = added.as_bytes();
        if !self.some {
            self.only = only;
            self.is_only = true;
            self.some = true;
            return Ok(());
        }
        // For the proof: what the changes become is a change of their row.
        C::keeps_row();
        self.spare.clear();
        let present = EntryRef::of(self.flags, either(self.is_only, self.only, &self.bytes));
        self.some = C::push_combined(&mut self.spare, self.flags, &present, added)?;
        self.is_only = false;
        mem::swap(&mut self.bytes, &mut self.spare);
        Ok(())
    }

    // Appends the change, if there is one, to a group of its table. The next change is of another row.
    pub(crate) fn finish(&mut self, group: &mut TableGroup<C, A>) -> Result<(), OutOfMemory>
        requires { group.old.schema ≡ self.old.flags }
        ensures row { OnOk result (self.new ≡ record self.old { change = None }) }
        ensures group { OnOk result (group.new ≡ record group.old {
          changes = group.old.changes ++ option_to_list self.old.change;
        }) }
    {
        if !self.some {
            return Ok(());
        }
        group.push(either(self.is_only, self.only, &self.bytes))?;
        self.some = false;
        Ok(())
    }
}
