//! How many bytes of a blob each of its tables has.
use cap_changes::{Entry, GroupList, TableGroup};
use cap_codec::{Contents, take_header};
use std::alloc::{AllocError, Global};

/// The summary of a blob with these bytes, which has a line for each table, with the number of bytes that the table
/// has on each line too.
pub fn with_sizes(
    alloc: Global,
    summary: &str,
    bytes: &[u8],
    contents: &Contents<Global>,
) -> Result<String, AllocError> {
    match contents {
        Contents::Changes(list) => with_sizes_of(alloc, summary, bytes, list),
        Contents::Patches(list) => with_sizes_of(alloc, summary, bytes, list),
    }
}

fn with_sizes_of<C: Entry>(
    alloc: Global,
    summary: &str,
    bytes: &[u8],
    list: &GroupList<C, Global>,
) -> Result<String, AllocError> {
    let mut text = String::new(alloc);
    let (mut lines, mut rest) = (summary, bytes);
    for group in list.groups() {
        let table = group.table().as_str();
        let behind = behind_group(group, rest).unwrap_or(&[]);
        let size = rest.len().saturating_sub(behind.len());
        if let Some((counts, others)) = counts_of(lines, table) {
            writeln!(text, "{table}{counts}, bytes {size}")?;
            lines = others;
        }
        rest = behind;
    }
    Ok(text)
}

// What stands on the first line behind the name of its table, and the other lines. A name may have a line feed.
fn counts_of<'a>(lines: &'a str, table: &str) -> Option<(&'a str, &'a str)> {
    lines.strip_prefix(table)?.split_once('\n')
}

// The bytes behind a group, of those from its kind on.
fn behind_group<'a, C: Entry>(group: &TableGroup<C, Global>, bytes: &'a [u8]) -> Option<&'a [u8]> {
    let (_, header) = bytes.split_first()?;
    let (_, rest) = take_header(bytes.len(), header).ok()?;
    rest.get(group.as_bytes().len()..)
}
