//! Changesets and patchsets as lists of groups.
ghost use Rattle.std.specs.Prelude.{◌≡◌, ◌++◌, ◌∷◌, [], IfOk, OnOk, OnErr};
ghost use Rattle.cap_changes.specs.Entries.{AreFitting};
ghost use Rattle.cap_changes.specs.Invert.{inverse_list_of};

use crate::{Entry, Patch, RowChange, TableGroup};
use cap_value::{AllocHandle, OutOfMemory};
use std::marker::Model;

/// A changeset: groups of changes.
pub type ChangeList<A> = GroupList<RowChange<A>, A>;

/// A patchset: groups of its changes.
pub type PatchList<A> = GroupList<Patch<A>, A>;

/// A list of groups: a changeset or a patchset. The changes of each fit its columns.
#[derive(Drop)]
pub struct GroupList<C: Entry, A: AllocHandle> {
    groups: Vec<TableGroup<C, A>, A>,
}

impl<C: Entry, A: AllocHandle> Model for GroupList<C, A> {
    ghost use Rattle.std.specs.Prelude.{List};
    ghost use Rattle.cap_changes.specs.Entries.{AreFitting, TableEntries};

    ghost Value = { List (TableEntries C) };

    ghost view = { λ l. l.groups.items };

    ghost invariant = { λ l. AreFitting C.fits_in l.groups.items };
}

impl<C: Entry, A: AllocHandle> GroupList<C, A> {
    /// The empty list. Takes no memory.
    pub fn new(alloc: A) -> Self
        ensures { result ≡ [] }
    {
        GroupList {
            groups: Vec::new(alloc),
        }
    }

    /// Appends a group. On `OutOfMemory` the list is unchanged.
    pub fn push(&mut self, group: TableGroup<C, A>) -> Result<(), OutOfMemory>
        ensures ok { OnOk result (self.new ≡ self.old ++ group ∷ []) }
        ensures err { OnErr result (self.new ≡ self.old) }
    {
        group.fits();
        self.groups.push(group)?;
        Ok(())
    }

    /// The groups, in order.
    pub fn groups(&self) -> &[TableGroup<C, A>]
        ensures { result.now ≡ self.now }
    {
        self.groups.as_slice()
    }

    /// A law of every list: the schema of each group has a key column, and its changes fit it. The call does
    /// nothing.
    pub fn groups_fit(&self)
        ensures { AreFitting C.fits_in self.now }
    {
        let _groups = &self.groups;
    }
}

impl<A: AllocHandle> ChangeList<A> {
    /// The list with the inverse of each change written over it.
    pub(crate) fn into_inverse(self) -> Result<Self, OutOfMemory>
        ensures { IfOk result (λ inverse. inverse ≡ inverse_list_of self) }
    {
        let GroupList { mut groups } = self;
        for group in groups.iter_mut() {
            group.invert()?;
            group.fits();
        }
        Ok(GroupList { groups })
    }
}
