//! One operation on one table, and its changes.
ghost use Rattle.std.specs.Prelude.{◌≡◌, IfOk, OnErr, Some};
ghost use Rattle.cap_value.specs.Memory.{LeavesUnlessMemory, RefusesFirst};
ghost use Rattle.cap_database.specs.Operation.{act, changed_rows, changes_to, changes_made, refused_act};
ghost use Rattle.cap_database.specs.Operation.{keyed_row};
ghost use Rattle.cap_table.specs.Operation.{key_of_name};

use crate::{Action, Assignments, Cause, Change, Op};
use cap_row::{Key, Row};
use cap_table::{Replaced, RowRef, Table};
use cap_value::{AllocHandle, Fault, Name, OutOfMemory, Refusal};

/// The changes of an accepted operation.
#[derive(Drop)]
pub struct Effect<A: AllocHandle> {
    /// The change, or the first of an update's two: that of the old row's key.
    pub first: Change<A>,
    /// The second change of an update: that of the new row's key.
    pub second: Option<Change<A>>,
}

impl<A: AllocHandle> Effect<A> {
    // Makes an operation on its table.
    #[tactic(auto, using(crate::proofs::StepLemmas::refused_act_first))]
    pub(crate) fn make(table: &mut Table<A>, op: &Op<A>) -> Result<Self, Fault<Refusal>>
        ensures table { LeavesUnlessMemory result (act table.old op.now.action) table.new }
        ensures kept { OnErr result (table.new ≡ table.old) }
        ensures changes { IfOk result (λ step. changes_made step ≡ changes_to op.now.table op.now.cause
            (changed_rows table.old op.now.action)) }
        ensures first { RefusesFirst (refused_act table.old op.now.action) result }
    {
        match make_all(table, op) {
            Ok(step) => Ok(step),
            Err(Fault::Refused(why)) => Err(Fault::Refused(why)),
            Err(Fault::OutOfMemory) => match refused(table, &op.action) {
                Some(why) => Err(Fault::Refused(why)),
                None => Err(Fault::OutOfMemory),
            },
        }
    }
}

// Makes an operation on its table, and may ask for memory before it is refused.
fn make_all<A: AllocHandle>(table: &mut Table<A>, op: &Op<A>) -> Result<Effect<A>, Fault<Refusal>>
    ensures table { LeavesUnlessMemory result (act table.old op.now.action) table.new }
    ensures kept { OnErr result (table.new ≡ table.old) }
    ensures changes { IfOk result (λ step. changes_made step ≡ changes_to op.now.table op.now.cause
        (changed_rows table.old op.now.action)) }
{
    match &op.action {
        Action::Insert(row) => insert(table, op, row),
        Action::Update(name, fields) => update(table, op, name, fields),
        Action::Delete(name) => delete(table, op, name),
    }
}

// What an operation is refused before memory is needed.
fn refused<A: AllocHandle>(table: &Table<A>, action: &Action<A>) -> Option<Refusal>
    ensures { result ≡ refused_act table.now action.now }
{
    match action {
        Action::Insert(row) => table.refused_insert(row),
        Action::Update(name, fields) => table.refused_update(name, fields.fields()),
        Action::Delete(name) => table.refused_delete(name),
    }
}

fn insert<A: AllocHandle>(
    table: &mut Table<A>,
    op: &Op<A>,
    row: &Row<A>,
) -> Result<Effect<A>, Fault<Refusal>>
    ensures table { LeavesUnlessMemory result (act table.old (Action.Insert row.now)) table.new }
    ensures kept { OnErr result (table.new ≡ table.old) }
    ensures changes { IfOk result (λ step. changes_made step ≡ changes_to op.now.table op.now.cause
        (changed_rows table.old (Action.Insert row.now))) }
{
    let name = op.table.copy()?;
    let key = table.insert(row.copy()?)?;
    Ok(Effect {
        first: change(name, key, op.cause, None),
        second: None,
    })
}

fn update<A: AllocHandle>(
    table: &mut Table<A>,
    op: &Op<A>,
    name: &RowRef<A>,
    fields: &Assignments<A>,
) -> Result<Effect<A>, Fault<Refusal>>
    ensures table { LeavesUnlessMemory result (act table.old (Action.Update name.now fields.now)) table.new }
    ensures kept { OnErr result (table.new ≡ table.old) }
    ensures changes { IfOk result (λ step. changes_made step ≡ changes_to op.now.table op.now.cause
        (changed_rows table.old (Action.Update name.now fields.now))) }
{
    let (first, second) = (op.table.copy()?, op.table.copy()?);
    let old = key_named(name)?;
    let Replaced { key, row } = table.update(name, fields.fields())?;
    Ok(Effect {
        first: change(first, old, op.cause, keyed_row(name, row)),
        second: Some(change(second, key, op.cause, None)),
    })
}

fn delete<A: AllocHandle>(
    table: &mut Table<A>,
    op: &Op<A>,
    name: &RowRef<A>,
) -> Result<Effect<A>, Fault<Refusal>>
    ensures table { LeavesUnlessMemory result (act table.old (Action.Delete name.now)) table.new }
    ensures kept { OnErr result (table.new ≡ table.old) }
    ensures changes { IfOk result (λ step. changes_made step ≡ changes_to op.now.table op.now.cause
        (changed_rows table.old (Action.Delete name.now))) }
{
    let first = op.table.copy()?;
    let key = key_named(name)?;
    let row = table.delete(name)?;
    Ok(Effect {
        first: change(first, key, op.cause, keyed_row(name, row)),
        second: None,
    })
}

fn change<A: AllocHandle>(
    table: Name<A>,
    key: Option<Key<A>>,
    cause: Cause,
    before: Option<Row<A>>,
) -> Change<A>
    ensures { result ≡ record { table = table; key = key; cause = cause; before = before } }
{
    Change {
        table,
        key,
        cause,
        before,
    }
}

// The row of this name, where it has a key.
fn keyed_row<A: AllocHandle>(name: &RowRef<A>, row: Row<A>) -> Option<Row<A>>
    ensures { result ≡ keyed_row name.now (Some row) }
{
    match name {
        RowRef::Key(_) => Some(row),
        RowRef::Loose(_) => None,
    }
}

// The key of the row of this name, none of a loose row.
fn key_named<A: AllocHandle>(name: &RowRef<A>) -> Result<Option<Key<A>>, OutOfMemory>
    ensures { IfOk result (λ key. key ≡ key_of_name name.now) }
{
    match name {
        RowRef::Key(key) => Ok(Some(key.copy()?)),
        RowRef::Loose(_) => Ok(None),
    }
}
