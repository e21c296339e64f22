//! The rows that an application looks at.
ghost use Rattle.std.specs.Prelude.{◌≡◌, ◌++◌, IfOk, OnOk, map};
ghost use Rattle.std.specs.Option.{option_copied};
ghost use Rattle.cap_applier.specs.Looked.{looked_in, row_named};

use crate::progress::is_accepted;
use cap_apply::BlobChange;
use cap_changes::TableGroup;
use cap_filter::TableFilter;
use cap_row::Key;
use cap_value::{AllocHandle, Name, OutOfMemory};

/// A row: the name of its table, and its key.
pub type RowOf<A> = (Name<A>, Key<A>);

// The rows that the changes name, of the groups whose table the filter accepts.
pub(crate) fn looked_in<C: BlobChange<A>, A: AllocHandle>(
    alloc: A,
    filter: Option<&TableFilter<A>>,
    groups: &[TableGroup<C, A>],
) -> Result<Vec<RowOf<A>, A>, OutOfMemory>
    ensures { IfOk result (λ rows. rows.items
        ≡ looked_in C.requested (option_copied filter.entry) groups.now) }
{
    let mut rows = Vec::new(alloc);
    for group in groups {
        if is_accepted(filter, group.table()) {
            push_rows(alloc, &mut rows, group)?;
        }
    }
    Ok(rows)
}

fn push_rows<C: BlobChange<A>, A: AllocHandle>(
    alloc: A,
    rows: &mut Vec<RowOf<A>, A>,
    group: &TableGroup<C, A>,
) -> Result<(), OutOfMemory>
    ensures { OnOk result (rows.new.items
        ≡ rows.old.items ++ map (row_named C.requested group.now) group.now.changes) }
{
    let (table, columns) = (group.table(), group.schema());
    for change in group.changes() {
        let request = C::request(&change, columns);
        let key = request.key(alloc, columns)?;
        rows.push((table.copy()?, key))?;
    }
    Ok(())
}
