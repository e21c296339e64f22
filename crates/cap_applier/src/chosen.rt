//! The part of a blob that is of the tables that a filter accepts.
ghost use Rattle.std.specs.Prelude.{◌≡◌, ◌+◌, ◌++◌, ◌∷◌, [], IfOk, OnOk, length};
ghost use Rattle.cap_applier.specs.Chosen.{accepted_groups, accepted_in, accepted_numbers, each_number};
ghost use Rattle.cap_applier.specs.Chosen.{groups_from, numbering_in, numbering_of, numbers_from, own_number};
ghost use Rattle.cap_applier.specs.Chosen.{passed_changes, passed_groups, passed_of};

use crate::{Numbering, Passed};
use cap_changes::{Entries, Entry, GroupList, TableGroup};
use cap_codec::Contents;
use cap_filter::TableFilter;
use cap_value::{AllocHandle, OutOfMemory};

/// What a filter leaves of a blob.
#[derive(Drop)]
pub struct Chosen<A: AllocHandle> {
    /// The groups of the tables that it accepts, in their order.
    pub contents: Contents<A>,
    /// The numbers that they and their changes have in the whole blob.
    pub numbering: Numbering<A>,
}

/// What the filter leaves of the blob, with bytes of its own.
pub fn chosen_of<A: AllocHandle>(
    alloc: A,
    filter: &TableFilter<A>,
    blob: &Contents<A>,
) -> Result<Chosen<A>, OutOfMemory>
    ensures contents { IfOk result (λ chosen. chosen.contents ≡ accepted_in filter.now blob.now) }
    ensures numbering { IfOk result (λ chosen. chosen.numbering ≡ numbering_in filter.now blob.now) }
{
    match blob {
        Contents::Changes(list) => Ok(Chosen {
            contents: Contents::Changes(accepted_groups(alloc, filter, list.groups())?),
            numbering: numbering_of(alloc, filter, list.groups())?,
        }),
        Contents::Patches(list) => Ok(Chosen {
            contents: Contents::Patches(accepted_groups(alloc, filter, list.groups())?),
            numbering: numbering_of(alloc, filter, list.groups())?,
        }),
    }
}

fn numbering_of<C: Entry, A: AllocHandle>(
    alloc: A,
    filter: &TableFilter<A>,
    groups: &[TableGroup<C, A>],
) -> Result<Numbering<A>, OutOfMemory>
    ensures { IfOk result (λ numbering. numbering ≡ numbering_of filter.now groups.now) }
{
    Ok(Numbering {
        changes: numbers_of(alloc, filter, groups)?,
        groups: group_numbers(alloc, filter, groups)?,
        passed: passed_of(filter, groups)?,
    })
}

fn accepted_groups<C: Entry + Drop, A: AllocHandle>(
    alloc: A,
    filter: &TableFilter<A>,
    groups: &[TableGroup<C, A>],
) -> Result<GroupList<C, A>, OutOfMemory>
    ensures { IfOk result (λ list. list ≡ accepted_groups filter.now groups.now) }
{
    let mut list = GroupList::new(alloc);
    for group in groups {
        put_accepted(filter, group, &mut list)?;
    }
    Ok(list)
}

fn put_accepted<C: Entry + Drop, A: AllocHandle>(
    filter: &TableFilter<A>,
    group: &TableGroup<C, A>,
    list: &mut GroupList<C, A>,
) -> Result<(), OutOfMemory>
    ensures { OnOk result (list.new ≡ list.old ++ accepted_groups filter.now (group.now ∷ [])) }
{
    if filter.accepts(group.table()) {
        list.push(group.copy()?)
    } else {
        Ok(())
    }
}

// The numbers of the changes of the groups that it accepts.
fn numbers_of<C: Entry, A: AllocHandle>(
    alloc: A,
    filter: &TableFilter<A>,
    groups: &[TableGroup<C, A>],
) -> Result<Vec<u64, A>, OutOfMemory>
    ensures { IfOk result (λ numbers. numbers.items ≡ numbers_from filter.now 0 groups.now) }
{
    let mut numbers = Vec::new(alloc);
    let mut first = 0u64;
    for group in groups {
        first = put_accepted_numbers(filter, first, group, &mut numbers)?;
    }
    Ok(numbers)
}

// Puts those of one group, and answers the number behind them.
fn put_accepted_numbers<C: Entry, A: AllocHandle>(
    filter: &TableFilter<A>,
    first: u64,
    group: &TableGroup<C, A>,
    numbers: &mut Vec<u64, A>,
) -> Result<u64, OutOfMemory>
    ensures put { OnOk result (numbers.new.items
        ≡ numbers.old.items ++ accepted_numbers filter.now first group.now) }
    ensures next { IfOk result (λ next. next ≡ first + length group.now.changes) }
{
    // No memory holds a blob with this many changes.
    let Some(next) = first.checked_add(group.changes().len() as u64) else {
        return Err(OutOfMemory);
    };
    if filter.accepts(group.table()) {
        put_numbers(first, group.changes(), numbers)?;
    }
    Ok(next)
}

// Puts a number for each change, from the first on.
fn put_numbers<C: Entry, A: AllocHandle>(
    first: u64,
    changes: Entries<'_, C>,
    numbers: &mut Vec<u64, A>,
) -> Result<(), OutOfMemory>
    ensures { OnOk result (numbers.new.items ≡ numbers.old.items ++ each_number first changes.entry) }
{
    let mut number = first;
    for _change in changes {
        numbers.push(number)?;
        let Some(next) = number.checked_add(1) else {
            return Err(OutOfMemory);
        };
        number = next;
    }
    Ok(())
}

// The numbers of the groups that it accepts.
fn group_numbers<C: Entry, A: AllocHandle>(
    alloc: A,
    filter: &TableFilter<A>,
    groups: &[TableGroup<C, A>],
) -> Result<Vec<u64, A>, OutOfMemory>
    ensures { IfOk result (λ numbers. numbers.items ≡ groups_from filter.now 0 groups.now) }
{
    let mut numbers = Vec::new(alloc);
    let mut number = 0u64;
    for group in groups {
        number = put_own_number(filter, number, group, &mut numbers)?;
    }
    Ok(numbers)
}

// Puts that of one group, and answers the number behind it.
fn put_own_number<C: Entry, A: AllocHandle>(
    filter: &TableFilter<A>,
    number: u64,
    group: &TableGroup<C, A>,
    numbers: &mut Vec<u64, A>,
) -> Result<u64, OutOfMemory>
    ensures put { OnOk result (numbers.new.items
        ≡ numbers.old.items ++ own_number filter.now number group.now) }
    ensures next { IfOk result (λ next. next ≡ number + 1) }
{
    // No memory holds a blob with this many groups.
    let Some(next) = number.checked_add(1) else {
        return Err(OutOfMemory);
    };
    if filter.accepts(group.table()) {
        numbers.push(number)?;
    }
    Ok(next)
}

fn passed_of<C: Entry, A: AllocHandle>(
    filter: &TableFilter<A>,
    groups: &[TableGroup<C, A>],
) -> Result<Passed, OutOfMemory>
    ensures { IfOk result (λ passed. passed ≡ passed_of filter.now groups.now) }
{
    let mut passed = Passed {
        groups: 0,
        changes: 0,
    };
    for group in groups {
        passed = passed_with(filter, group, passed)?;
    }
    Ok(passed)
}

// With one group more, where the filter does not accept its table.
fn passed_with<C: Entry, A: AllocHandle>(
    filter: &TableFilter<A>,
    group: &TableGroup<C, A>,
    passed: Passed,
) -> Result<Passed, OutOfMemory>
    ensures groups { IfOk result (λ with. with.groups
        ≡ passed.groups + passed_groups filter.now (group.now ∷ [])) }
    ensures changes { IfOk result (λ with. with.changes
        ≡ passed.changes + passed_changes filter.now (group.now ∷ [])) }
{
    if filter.accepts(group.table()) {
        return Ok(passed);
    }
    // No memory holds a blob with this many groups or changes.
    let Some(groups) = passed.groups.checked_add(1) else {
        return Err(OutOfMemory);
    };
    match passed.changes.checked_add(group.changes().len() as u64) {
        Some(changes) => Ok(Passed { groups, changes }),
        None => Err(OutOfMemory),
    }
}
