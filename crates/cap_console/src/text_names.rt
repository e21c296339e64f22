//! The text of a blob with names for its columns.
use crate::columns::{TableColumns, columns_of};
use cap_changes::{
    ChangeRef, Entry, EntryRef, GroupList, Patch, PatchRef, RecordRef, RowChange, TableGroup,
};
use cap_codec::Contents;
use cap_show::ValueText;
use std::alloc::{AllocError, Global};

/// The text of a blob, in which each defined field stands behind the name of its column, or `c` and its number
/// where it has none.
pub fn named_text(
    alloc: Global,
    contents: &Contents<Global>,
    all: &[TableColumns],
) -> Result<String, AllocError> {
    let mut text = String::new(alloc);
    match contents {
        Contents::Changes(list) => push_groups(&mut text, "changeset\n", list, all)?,
        Contents::Patches(list) => push_groups(&mut text, "patchset\n", list, all)?,
    }
    Ok(text)
}

// What a group holds, as a line.
trait NamedEntry: Entry {
    fn push_line(
        change: &EntryRef<'_, Self>,
        text: &mut String,
        names: &[String],
    ) -> Result<(), AllocError>
    where
        Self: Sized;
}

impl NamedEntry for RowChange<Global> {
    fn push_line(
        change: &EntryRef<'_, Self>,
        text: &mut String,
        names: &[String],
    ) -> Result<(), AllocError> {
        match change.read() {
            ChangeRef::Insert { indirect, new } => {
                push_operation(text, "insert", indirect)?;
                push_record(text, new, names)?;
            }
            ChangeRef::Update { indirect, old, new } => {
                push_operation(text, "update", indirect)?;
                text.push_str("old ")?;
                push_record(text, old, names)?;
                text.push_str(" new ")?;
                push_record(text, new, names)?;
            }
            ChangeRef::Delete { indirect, old } => {
                push_operation(text, "delete", indirect)?;
                push_record(text, old, names)?;
            }
        }
        text.push_str("\n")
    }
}

impl NamedEntry for Patch<Global> {
    fn push_line(
        change: &EntryRef<'_, Self>,
        text: &mut String,
        names: &[String],
    ) -> Result<(), AllocError> {
        match change.read() {
            PatchRef::Insert { indirect, new } => {
                push_operation(text, "insert", indirect)?;
                push_record(text, new, names)?;
            }
            PatchRef::Update { indirect, new } => {
                push_operation(text, "update", indirect)?;
                push_record(text, new, names)?;
            }
            PatchRef::Delete { indirect, key } => {
                push_operation(text, "delete", indirect)?;
                push_record(text, key, names)?;
            }
        }
        text.push_str("\n")
    }
}

fn push_operation(text: &mut String, operation: &str, indirect: bool) -> Result<(), AllocError> {
    let flag = if indirect { "indirect" } else { "direct" };
    write!(text, "{operation} {flag} ")
}

fn push_groups<C: NamedEntry>(
    text: &mut String,
    kind: &str,
    list: &GroupList<C, Global>,
    all: &[TableColumns],
) -> Result<(), AllocError> {
    if list.groups().is_empty() {
        return text.push_str("empty\n");
    }
    text.push_str(kind)?;
    for group in list.groups() {
        push_group(text, group, columns_of(all, group.table().as_str()))?;
    }
    Ok(())
}

fn push_group<C: NamedEntry>(
    text: &mut String,
    group: &TableGroup<C, Global>,
    names: &[String],
) -> Result<(), AllocError> {
    let table = group.table().as_str();
    write!(text, "group {table} ")?;
    for is_key in group.schema().flags() {
        text.push_str(if *is_key { "k" } else { "v" })?;
    }
    text.push_str("\n")?;
    for change in group.changes() {
        C::push_line(&change, text, names)?;
    }
    Ok(())
}

fn push_record(
    text: &mut String,
    of: RecordRef<'_, Global>,
    names: &[String],
) -> Result<(), AllocError> {
    let mut before = "(";
    let mut column = 0usize;
    for field in of {
        if let Some(value) = field {
            text.push_str(before)?;
            push_name(text, column, names)?;
            write!(text, "={}", ValueText::<Global>::of_ref(value))?;
            before = ",";
        }
        column = column.saturating_add(1);
    }
    if before == "(" {
        text.push_str("(")?;
    }
    text.push_str(")")
}

fn push_name(text: &mut String, column: usize, names: &[String]) -> Result<(), AllocError> {
    match names.get(column) {
        Some(name) => text.push_str(name.as_str()),
        None => write!(text, "c{column}"),
    }
}
