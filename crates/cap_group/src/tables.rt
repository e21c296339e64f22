//! The tables of a changegroup, in the order of their first change. Each has the changes of the blobs, one after
//! the other.
ghost use Rattle.std.specs.Prelude.{◌≡◌, ◌++◌, ◌∷◌, [], ◌<◌, length, map, position};
ghost use Rattle.std.specs.Prelude.{IfOk, IsTrue, OnErr, OnOk, Some};
ghost use Rattle.cap_row.specs.Schema.{flags_eq};
ghost use Rattle.cap_value.specs.Bytes.{bytes_eq};
ghost use Rattle.cap_codec.specs.Writable.{has_some};
ghost use Rattle.cap_value.specs.Memory.{LeavesUnlessMemory};
ghost use Rattle.cap_group.specs.ChangeGroup.{groups_of, with_group, with_groups};
ghost use Rattle.cap_group.specs.Grown.{IsGrown, before};
ghost use Rattle.cap_group.specs.KeyedChanges.{keyed_of};

use crate::GroupRefusal;
use crate::combine::Combine;
use crate::one_each::one_each;
use cap_changes::{GroupList, TableGroup};
use cap_value::{AllocHandle, Fault, Name, OutOfMemory};

// Adds the changes of groups, one after the other.
pub(crate) fn add_groups<C: Combine<A> + Drop, A: AllocHandle>(
    alloc: A,
    tables: &mut Vec<TableGroup<C, A>, A>,
    groups: &[TableGroup<C, A>],
) -> Result<(), Fault<GroupRefusal>>
    ensures content { LeavesUnlessMemory result
        (with_groups C.key C.combined 0 (map (keyed_of C.key C.combined) tables.old.items) groups.now)
        (map (keyed_of C.key C.combined) tables.new.items) }
    ensures kept { OnErr result (tables.new.items ≡ tables.old.items) }
{
    let mut steps = Vec::new(alloc);
    match push_groups(tables, &mut steps, groups) {
        Ok(()) => Ok(()),
        Err(fault) => {
            go_back(tables, &mut steps);
            Err(fault)
        }
    }
}

// A step that added a group: the index of its table, and how many changes that had, or none where it is new.
type Step = (usize, Option<usize>);

// Takes the steps back, the last one first.
#[tactic(auto, using(crate::proofs::GrownLemmas::going_back))]
fn go_back<C: Combine<A> + Drop, A: AllocHandle>(
    tables: &mut Vec<TableGroup<C, A>, A>,
    steps: &mut Vec<Step, A>,
)
    ensures { tables.new.items ≡ before steps.old.items tables.old.items }
{
    while let Some((index, count)) = steps.pop() {
        match count {
            None => tables.truncate(index),
            Some(count) if index < tables.len() => tables[index].truncate(count),
            Some(_) => {}
        }
    }
}

fn push_groups<C: Combine<A> + Drop, A: AllocHandle>(
    tables: &mut Vec<TableGroup<C, A>, A>,
    steps: &mut Vec<Step, A>,
    groups: &[TableGroup<C, A>],
) -> Result<(), Fault<GroupRefusal>>
    ensures content { LeavesUnlessMemory result
        (with_groups C.key C.combined 0 (map (keyed_of C.key C.combined) tables.old.items) groups.now)
        (map (keyed_of C.key C.combined) tables.new.items) }
    ensures steps { before steps.new.items tables.new.items ≡ before steps.old.items tables.old.items }
{
    for (place, group) in groups.iter().enumerate() {
        if has_change(group) {
            push_group(tables, steps, place, group)?;
        }
    }
    Ok(())
}

// Adds the changes of a group, which is number `place` of its blob.
fn push_group<C: Combine<A> + Drop, A: AllocHandle>(
    tables: &mut Vec<TableGroup<C, A>, A>,
    steps: &mut Vec<Step, A>,
    place: usize,
    group: &TableGroup<C, A>,
) -> Result<(), Fault<GroupRefusal>>
    ensures content { LeavesUnlessMemory result
        (with_group C.key C.combined place (map (keyed_of C.key C.combined) tables.old.items) group.now)
        (map (keyed_of C.key C.combined) tables.new.items) }
    ensures steps { before steps.new.items tables.new.items ≡ before steps.old.items tables.old.items }
{
    match index_of(tables, group.table()) {
        Some(index) => push_at(tables, steps, index, place, group),
        None => Ok(push_copy(tables, steps, group)?),
    }
}

// Adds the table of a group, of which there is none so far.
#[tactic(auto, using(crate::proofs::GrownLemmas::going_back))]
fn push_copy<C: Combine<A> + Drop, A: AllocHandle>(
    tables: &mut Vec<TableGroup<C, A>, A>,
    steps: &mut Vec<Step, A>,
    group: &TableGroup<C, A>,
) -> Result<(), OutOfMemory>
    ensures ok { OnOk result (tables.new.items ≡ tables.old.items ++ group.now ∷ []) }
    ensures steps { before steps.new.items tables.new.items ≡ before steps.old.items tables.old.items }
{
    steps.push((tables.len(), None))?;
    tables.push(group.copy()?)?;
    Ok(())
}

// Adds the changes of a group to the table at the index, which has its name.
fn push_at<C: Combine<A> + Drop, A: AllocHandle>(
    tables: &mut [TableGroup<C, A>],
    steps: &mut Vec<Step, A>,
    index: usize,
    place: usize,
    group: &TableGroup<C, A>,
) -> Result<(), Fault<GroupRefusal>>
    requires within { index < length tables.old }
    requires at { position (λ table. bytes_eq table.table group.now.table) tables.old ≡ Some index }
    ensures content { LeavesUnlessMemory result
        (with_group C.key C.combined place (map (keyed_of C.key C.combined) tables.old) group.now)
        (map (keyed_of C.key C.combined) tables.new) }
    ensures steps { before steps.new.items tables.new ≡ before steps.old.items tables.old }
{
    let table = &mut tables[index];
    if table.schema() == group.schema() {
        if steps.push((index, Some(table.changes().len()))).is_err() {
            return Err(Fault::OutOfMemory);
        }
        Ok(push_changes(table, group)?)
    } else {
        Err(Fault::Refused(GroupRefusal::OtherColumns { group: place }))
    }
}

// Appends the changes of another group of the same columns.
fn push_changes<C: Combine<A> + Drop, A: AllocHandle>(
    table: &mut TableGroup<C, A>,
    group: &TableGroup<C, A>,
) -> Result<(), OutOfMemory>
    requires { IsTrue (flags_eq table.old.schema group.now.schema) }
    ensures changes { OnOk result (table.new ≡ record table.old {
      changes = table.old.changes ++ group.now.changes;
    }) }
    ensures grown { IsGrown table.old table.new }
{
    for change in group.changes() {
        table.push(change.as_bytes())?;
    }
    Ok(())
}

// The index of the table of the name, if there is one.
fn index_of<C: Combine<A> + Drop, A: AllocHandle>(
    tables: &[TableGroup<C, A>],
    name: &Name<A>,
) -> Option<usize>
    ensures { result ≡ position (λ table. bytes_eq table.table name.now) tables.now }
{
    tables.iter().position(|table| table.table() == name)
}

// Whether the group has a change.
#[tactic(auto, using(crate::proofs::GroupLemmas::some_is))]
pub(crate) fn has_change<C: Combine<A> + Drop, A: AllocHandle>(group: &TableGroup<C, A>) -> bool
    ensures { result ≡ has_some group.now.changes }
{
    !group.changes().is_empty()
}

// The tables that have changes, each as a group of a list with one change for each row.
#[tactic(auto, using(crate::proofs::GroupLemmas::groups_more))]
pub(crate) fn groups_of<C: Combine<A> + Drop, A: AllocHandle>(
    alloc: A,
    tables: &[TableGroup<C, A>],
) -> Result<GroupList<C, A>, OutOfMemory>
    ensures { IfOk result (λ list. list ≡ groups_of (map (keyed_of C.key C.combined) tables.now)) }
{
    let mut list = GroupList::new(alloc);
    for table in tables {
        let made = one_each(alloc, table)?;
        if has_change(&made) {
            list.push(made)?;
        }
    }
    Ok(list)
}

// How many changes there are. No proof rests on it.
pub(crate) fn count_of<C: Combine<A> + Drop, A: AllocHandle>(tables: &[TableGroup<C, A>]) -> usize {
    let mut count = 0usize;
    for table in tables {
        count = count.wrapping_add(table.changes().len());
    }
    count
}

// Makes the changes of each table one for each row.
#[tactic(auto, using(crate::proofs::GroupLemmas::set_same))]
pub(crate) fn merge_each<C: Combine<A> + Drop, A: AllocHandle>(
    alloc: A,
    tables: &mut [TableGroup<C, A>],
) -> Result<(), OutOfMemory>
    ensures { map (keyed_of C.key C.combined) tables.new ≡ map (keyed_of C.key C.combined) tables.old }
{
    for number in 0..tables.len() {
        tables[number] = one_each(alloc, &tables[number])?;
    }
    Ok(())
}
