//! Captures: the changes of a session as a list and as bytes.
ghost use Rattle.std.specs.Prelude.{◌≡◌, [], ◌++◌, Some, IfOk, IsTrue};
ghost use Rattle.std.specs.List.{cons_option};
ghost use Rattle.std.specs.Option.{option_copied, option_map};
ghost use Rattle.cap_row.specs.Schema.{has_key};
ghost use Rattle.cap_tree.specs.Tree.{get};
ghost use Rattle.cap_changes.specs.Patch.{patch_list_of};
ghost use Rattle.cap_changes.specs.Touched.{is_changed};
ghost use Rattle.cap_codec.specs.Changeset.{list_bytes, list_bytes_with};
ghost use Rattle.cap_codec.specs.Patchset.{patch_list_bytes, patch_list_bytes_with};
ghost use Rattle.cap_core.specs.Capture.{changes_of, session_changes, table_changes};
ghost use Rattle.cap_core.specs.CanCapture.{are_own_records, are_own_tables, is_own_session};

use crate::changeset::changeset_of;
use cap_changes::{ChangeList, Group, is_changed, to_patches};
use cap_codec::{KeyFlags, write_patches_with};
use cap_database::Database;
use cap_session::{Attached, Records, Session};
use cap_table::Table;
use cap_value::{AllocHandle, Name, OutOfMemory};
use std::marker::Model;

/// The changes of a session at the moment of the capture, and the version of the tables then. It shares the
/// records of the session and the rows of the tables as they were, and is made without a visit to any of
/// them. The list and the bytes are made for whoever asks, as often as they are asked for: out of memory
/// there changes nothing, and the capture stays.
#[derive(Drop)]
pub struct Capture<A: AllocHandle> {
    version: u64,
    session: Session<A>,
    main: Database<A>,
}

impl<A: AllocHandle> Model for Capture<A> {
    ghost use Rattle.std.specs.Prelude.{IsTrue};
    ghost use Rattle.cap_core.specs.CanCapture.{is_own_session};
    ghost use Rattle.cap_core.specs.Capture.{CaptureState, session_changes};

    ghost Value = { CaptureState A };

    ghost view = { λ c. record {
      version = c.version;
      changes = session_changes c.main c.session;
    } };

    ghost invariant = { λ c. IsTrue (is_own_session c.main c.session) };
}

impl<A: AllocHandle> Capture<A> {
    // What the session captures against the tables of this version.
    pub(crate) fn new(version: u64, session: Session<A>, main: Database<A>) -> Self
        requires { IsTrue (is_own_session main session) }
        ensures { result ≡ record { version = version; changes = session_changes main session } }
    {
        Capture {
            version,
            session,
            main,
        }
    }

    /// The version of the tables at the moment of the capture.
    pub fn version(&self) -> u64
        ensures { result ≡ self.now.version }
    {
        self.version
    }

    /// The bytes of the changeset (The Session Extension, "sqlite3session_changeset").
    pub fn changeset(&self, alloc: A) -> Result<Vec<u8, A>, OutOfMemory>
        ensures { IfOk result (λ bytes. bytes.items ≡ list_bytes self.now.changes) }
    {
        self.changeset_with(alloc, KeyFlags::Ones)
    }

    /// The bytes of the changeset, with these key flags. `KeyFlags::Places` gives the bytes that SQLite's
    /// code writes; SQLite's applier needs them where the key has several columns.
    pub fn changeset_with(&self, alloc: A, key_flags: KeyFlags) -> Result<Vec<u8, A>, OutOfMemory>
        ensures { IfOk result (λ bytes. bytes.items ≡ list_bytes_with key_flags self.now.changes) }
    {
        changeset_of(alloc, key_flags, self.session.attached(), &self.main)
    }

    /// The bytes of the patchset (The Session Extension, "sqlite3session_patchset").
    pub fn patchset(&self, alloc: A) -> Result<Vec<u8, A>, OutOfMemory>
        ensures { IfOk result (λ bytes. bytes.items ≡ patch_list_bytes (patch_list_of self.now.changes)) }
    {
        self.patchset_with(alloc, KeyFlags::Ones)
    }

    /// The bytes of the patchset, with these key flags.
    pub fn patchset_with(&self, alloc: A, key_flags: KeyFlags) -> Result<Vec<u8, A>, OutOfMemory>
        ensures { IfOk result (λ bytes. bytes.items
            ≡ patch_list_bytes_with key_flags (patch_list_of self.now.changes)) }
    {
        let changes = self.changes(alloc)?;
        let patches = to_patches(alloc, &changes)?;
        write_patches_with(alloc, key_flags, &patches)
    }

    /// The changes: tables in the order in which they were attached, and within a table in the order of the
    /// keys.
    pub fn changes(&self, alloc: A) -> Result<ChangeList<A>, OutOfMemory>
        ensures { IfOk result (λ list. list ≡ self.now.changes) }
    {
        changes_of(alloc, self.session.attached(), &self.main)
    }
}

// The changes of the attached tables, from each first image to the present row.
pub(crate) fn changes_of<A: AllocHandle>(
    alloc: A,
    attached: Attached<'_, A>,
    main: &Database<A>,
) -> Result<ChangeList<A>, OutOfMemory>
    requires { IsTrue (are_own_tables main.now attached) }
    ensures { IfOk result (λ list. list ≡ changes_of main.now attached.entry) }
{
    let mut list = ChangeList::new(alloc);
    for (name, records) in attached {
        let group = changes_of_table(alloc, name, records, main.table(name))?;
        list = with_group(list, group)?;
    }
    Ok(list)
}

// The list with the group appended, if there is one.
fn with_group<A: AllocHandle>(
    mut list: ChangeList<A>,
    group: Option<Group<A>>,
) -> Result<ChangeList<A>, OutOfMemory>
    ensures { IfOk result (λ l. l ≡ list ++ cons_option group []) }
{
    match group {
        Some(group) => {
            list.push(group)?;
            Ok(list)
        }
        None => Ok(list),
    }
}

// The changes of an attached table, if there are any.
fn changes_of_table<A: AllocHandle>(
    alloc: A,
    name: &Name<A>,
    records: &Records<A>,
    table: Option<&Table<A>>,
) -> Result<Option<Group<A>>, OutOfMemory>
    requires { IsTrue (are_own_records (option_map (λ t. t.schema) (option_copied table)) records.now) }
    ensures { IfOk result (λ group. group
        ≡ table_changes (name.now, records.now) (option_copied table.entry)) }
{
    match table {
        Some(table) => group_of(alloc, name, records, table),
        None => Ok(None),
    }
}

fn group_of<A: AllocHandle>(
    alloc: A,
    name: &Name<A>,
    records: &Records<A>,
    table: &Table<A>,
) -> Result<Option<Group<A>>, OutOfMemory>
    requires { IsTrue (are_own_records (Some table.now.schema) records.now) }
    ensures { IfOk result (λ group. group ≡ table_changes (name.now, records.now) (Some table.now)) }
{
    let rows = table.keyed();
    if !table.schema().has_key() {
        return Ok(None);
    }
    let mut group = Group::new(alloc, name.copy()?, table.schema().copy()?);
    for (key, kept) in records {
        let now = rows.get(key);
        if is_changed(kept.image.as_ref(), now) {
            group.push_between(kept.indirect, kept.image.as_ref(), now)?;
        }
    }
    if group.changes().is_empty() {
        return Ok(None);
    }
    Ok(Some(group))
}
