//! Names for the columns of tables.
use cap_changes::{Entry, GroupList};
use cap_codec::Contents;
use std::alloc::{AllocError, Global};

/// The names of a table's columns, in their order.
#[derive(Drop)]
pub struct TableColumns {
    pub table: String,
    pub columns: Vec<String>,
}

/// What `T=NAME,..` says, or none where it is not of this form or has a name twice.
pub fn table_columns(alloc: Global, text: &str) -> Result<Option<TableColumns>, AllocError> {
    let Some((table, names)) = text.split_once('=') else {
        return Ok(None);
    };
    let mut columns = Vec::new(alloc);
    for name in names.split(',') {
        if name.is_empty() || has_name(columns.as_slice(), name) {
            return Ok(None);
        }
        columns.push(String::from_str(alloc, name)?)?;
    }
    let table = String::from_str(alloc, table)?;
    Ok(Some(TableColumns { table, columns }))
}

fn has_name(names: &[String], wanted: &str) -> bool {
    for name in names {
        if name.as_str() == wanted {
            return true;
        }
    }
    false
}

// The names of the columns of this table; none where it has none.
pub(crate) fn columns_of<'a>(all: &'a [TableColumns], table: &str) -> &'a [String] {
    for one in all {
        if one.table.as_str() == table {
            return one.columns.as_slice();
        }
    }
    &[]
}

// The name of the column that is called `c` and its number.
pub(crate) fn column_name<'a>(names: &'a [String], column: &'a str) -> &'a str {
    match column.strip_prefix('c') {
        Some(digits) => name_or(names, digits.parse::<usize>().ok(), column),
        None => column,
    }
}

fn name_or<'a>(names: &'a [String], number: Option<usize>, column: &'a str) -> &'a str {
    match number {
        Some(number) => match names.get(number) {
            Some(name) => name.as_str(),
            None => column,
        },
        None => column,
    }
}

/// A table that has another number of columns than names, with both numbers.
#[derive(Clone, Copy, Drop)]
pub struct OtherWidth<'a> {
    pub table: &'a str,
    pub columns: usize,
    pub names: usize,
}

/// The first table of a blob that has another number of columns than it has names.
pub fn other_width<'a>(
    all: &[TableColumns],
    contents: &'a Contents<Global>,
) -> Option<OtherWidth<'a>> {
    match contents {
        Contents::Changes(list) => other_width_in(all, list),
        Contents::Patches(list) => other_width_in(all, list),
    }
}

fn other_width_in<'a, C: Entry>(
    all: &[TableColumns],
    list: &'a GroupList<C, Global>,
) -> Option<OtherWidth<'a>> {
    for group in list.groups() {
        let table = group.table().as_str();
        let (columns, names) = (group.schema().width(), columns_of(all, table).len());
        if names != 0 && names != columns {
            return Some(OtherWidth {
                table,
                columns,
                names,
            });
        }
    }
    None
}
