//! What is at a position of a blob: the table, the change, and its fields.
ghost use Rattle.std.specs.Prelude.{◌≡◌};
ghost use Rattle.std.specs.Option.{option_copied};
ghost use Rattle.cap_changes.specs.FieldReading.{field_of};
ghost use Rattle.cap_connection.specs.Fields.{change_new, change_old, entry_at, new_at, old_at};
ghost use Rattle.cap_connection.specs.Fields.{head_at, head_of_change, head_of_patch};
ghost use Rattle.cap_connection.specs.Fields.{patch_new, patch_old};
ghost use Rattle.cap_connection.specs.Fields.{schema_at, table_at};

use crate::iter_position::Position;
use cap_changes::{ChangeList, ChangeRef, EntryRef, Patch, PatchList, PatchRef, RowChange};
use cap_codec::{Contents, Operation};
use cap_field::ValueRef;
use cap_row::Schema;
use cap_value::Name;
use std::alloc::Global;

/// What a change does to its row, and whether it is indirect.
#[derive(Clone, Copy, Drop)]
pub struct ChangeHead {
    /// What it does.
    pub operation: Operation,
    /// Whether it is indirect.
    pub indirect: bool,
}

/// The table of a group.
pub(crate) fn table_at(contents: &Contents<Global>, group: usize) -> Option<&Name<Global>>
    ensures { option_copied result ≡ table_at contents.now group }
{
    match contents {
        Contents::Changes(list) => match list.groups().get(group) {
            Some(group) => Some(group.table()),
            None => None,
        },
        Contents::Patches(list) => match list.groups().get(group) {
            Some(group) => Some(group.table()),
            None => None,
        },
    }
}

/// The columns of a group's table.
pub(crate) fn schema_at(contents: &Contents<Global>, group: usize) -> Option<&Schema<Global>>
    ensures { option_copied result ≡ schema_at contents.now group }
{
    match contents {
        Contents::Changes(list) => match list.groups().get(group) {
            Some(group) => Some(group.schema()),
            None => None,
        },
        Contents::Patches(list) => match list.groups().get(group) {
            Some(group) => Some(group.schema()),
            None => None,
        },
    }
}

/// The head of a change.
pub(crate) fn head_at(contents: &Contents<Global>, position: Position) -> Option<ChangeHead>
    ensures { result ≡ head_at contents.now position }
{
    match contents {
        Contents::Changes(list) => match list.groups().get(position.group) {
            Some(group) => match group.changes().get(position.change) {
                Some(change) => Some(head_of_change(&change)),
                None => None,
            },
            None => None,
        },
        Contents::Patches(list) => match list.groups().get(position.group) {
            Some(group) => match group.changes().get(position.change) {
                Some(patch) => Some(head_of_patch(&patch)),
                None => None,
            },
            None => None,
        },
    }
}

fn head_of_change(change: &EntryRef<'_, RowChange<Global>>) -> ChangeHead
    ensures { result ≡ head_of_change change.now }
{
    match change.read() {
        ChangeRef::Insert { indirect, .. } => ChangeHead {
            operation: Operation::Insert,
            indirect,
        },
        ChangeRef::Update { indirect, .. } => ChangeHead {
            operation: Operation::Update,
            indirect,
        },
        ChangeRef::Delete { indirect, .. } => ChangeHead {
            operation: Operation::Delete,
            indirect,
        },
    }
}

fn head_of_patch(patch: &EntryRef<'_, Patch<Global>>) -> ChangeHead
    ensures { result ≡ head_of_patch patch.now }
{
    match patch.read() {
        PatchRef::Insert { indirect, .. } => ChangeHead {
            operation: Operation::Insert,
            indirect,
        },
        PatchRef::Update { indirect, .. } => ChangeHead {
            operation: Operation::Update,
            indirect,
        },
        PatchRef::Delete { indirect, .. } => ChangeHead {
            operation: Operation::Delete,
            indirect,
        },
    }
}

/// The value of a column before a change, where it is defined.
pub(crate) fn old_at(
    contents: &Contents<Global>,
    position: Position,
    column: usize,
) -> Option<ValueRef<'_>>
    ensures { field_of result ≡ old_at contents.now position column }
{
    match contents {
        Contents::Changes(list) => old_in_changes(list, position, column),
        Contents::Patches(list) => old_in_patches(list, position, column),
    }
}

/// The value of a column after a change, where it is defined.
pub(crate) fn new_at(
    contents: &Contents<Global>,
    position: Position,
    column: usize,
) -> Option<ValueRef<'_>>
    ensures { field_of result ≡ new_at contents.now position column }
{
    match contents {
        Contents::Changes(list) => new_in_changes(list, position, column),
        Contents::Patches(list) => new_in_patches(list, position, column),
    }
}

fn old_in_changes(
    list: &ChangeList<Global>,
    position: Position,
    column: usize,
) -> Option<ValueRef<'_>>
    ensures { field_of result ≡ entry_at (λ group change. change_old change column) list.now position }
{
    match list.groups().get(position.group) {
        Some(group) => match group.changes().get(position.change) {
            Some(change) => change_old(&change, column),
            None => None,
        },
        None => None,
    }
}

fn new_in_changes(
    list: &ChangeList<Global>,
    position: Position,
    column: usize,
) -> Option<ValueRef<'_>>
    ensures { field_of result ≡ entry_at (λ group change. change_new change column) list.now position }
{
    match list.groups().get(position.group) {
        Some(group) => match group.changes().get(position.change) {
            Some(change) => change_new(&change, column),
            None => None,
        },
        None => None,
    }
}

fn old_in_patches(
    list: &PatchList<Global>,
    position: Position,
    column: usize,
) -> Option<ValueRef<'_>>
    ensures { field_of result
        ≡ entry_at (λ group patch. patch_old group.schema patch column) list.now position }
{
    match list.groups().get(position.group) {
        Some(group) => match group.changes().get(position.change) {
            Some(patch) => patch_old(group.schema(), &patch, column),
            None => None,
        },
        None => None,
    }
}

fn new_in_patches(
    list: &PatchList<Global>,
    position: Position,
    column: usize,
) -> Option<ValueRef<'_>>
    ensures { field_of result
        ≡ entry_at (λ group patch. patch_new group.schema patch column) list.now position }
{
    match list.groups().get(position.group) {
        Some(group) => match group.changes().get(position.change) {
            Some(patch) => patch_new(group.schema(), &patch, column),
            None => None,
        },
        None => None,
    }
}

fn change_old<'a>(change: &EntryRef<'a, RowChange<Global>>, column: usize) -> Option<ValueRef<'a>>
    ensures { field_of result ≡ change_old change.now column }
{
    match change.read() {
        ChangeRef::Insert { .. } => None,
        ChangeRef::Update { old, .. } => old.get(column),
        ChangeRef::Delete { old, .. } => old.get(column),
    }
}

fn change_new<'a>(change: &EntryRef<'a, RowChange<Global>>, column: usize) -> Option<ValueRef<'a>>
    ensures { field_of result ≡ change_new change.now column }
{
    match change.read() {
        ChangeRef::Insert { new, .. } => new.get(column),
        ChangeRef::Update { new, .. } => new.get(column),
        ChangeRef::Delete { .. } => None,
    }
}

fn patch_old<'a>(
    schema: &Schema<Global>,
    patch: &EntryRef<'a, Patch<Global>>,
    column: usize,
) -> Option<ValueRef<'a>>
    ensures { field_of result ≡ patch_old schema.now patch.now column }
{
    match patch.read() {
        PatchRef::Insert { .. } => None,
        PatchRef::Update { new, .. } => if schema.is_key(column) {
            new.get(column)
        } else {
            None
        },
        PatchRef::Delete { key, .. } => key.get(column),
    }
}

fn patch_new<'a>(
    schema: &Schema<Global>,
    patch: &EntryRef<'a, Patch<Global>>,
    column: usize,
) -> Option<ValueRef<'a>>
    ensures { field_of result ≡ patch_new schema.now patch.now column }
{
    match patch.read() {
        PatchRef::Insert { new, .. } => new.get(column),
        PatchRef::Update { new, .. } => if schema.is_key(column) {
            None
        } else {
            new.get(column)
        },
        PatchRef::Delete { .. } => None,
    }
}
