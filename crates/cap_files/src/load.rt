//! The lines of a workload that make the tables and rows of a dump.
ghost use Rattle.std.specs.Prelude.{◌≡◌, ◌++◌, ◌∷◌, [], OnOk, option_copied, string_bytes};
ghost use Rattle.std.specs.List.{flat_map, list_all};
ghost use Rattle.cap_value.specs.Memory.{LeavesUnlessMemory, RefusesFirst, ShowsUnlessMemory};
ghost use Rattle.cap_filter.specs.Tokens.{is_word_byte};
ghost use Rattle.cap_files.specs.Load as spec;
ghost use Rattle.cap_files.specs.Load.{apply_line, column_text, columns_of, create_line, is_letter, is_word};
ghost use Rattle.cap_files.specs.Load.{refused_blob, with_group, with_groups, with_table};
ghost use Rattle.cap_files.specs.Summary.{is_change};
ghost use Rattle.cap_files.specs.declared.counts.Counted.TheVariants.{Inserts};

use cap_changes::{ChangeRef, EntryRef, Group, RowChange};
use cap_codec::Contents;
use cap_filter::is_word_byte;
use cap_row::Schema;
use cap_value::{AllocHandle, Fault, Name, OutOfMemory};
use thiserror::Error;

/// Why a blob is no dump of which a workload can be made. Groups are counted from 0.
#[derive(Clone, Copy, Debug, PartialEq, Eq, Drop, Error)]
pub enum LoadFault {
    /// It is a patchset.
    #[error("patchset")]
    Patchset,
    /// The table of a group has a name that is no word, so that no line can name it.
    #[error("a name that is no word in group {group}")]
    NoWord {
        /// The number of the group.
        group: usize,
    },
    /// A group has an UPDATE or a DELETE.
    #[error("a change that is no INSERT in group {group}")]
    NoInsert {
        /// The number of the group.
        group: usize,
    },
    /// The table of a group has other columns, or another key, than where it was created.
    #[error("other columns in group {group}")]
    OtherColumns {
        /// The number of the group.
        group: usize,
    },
}

/// A table that is created.
#[derive(Drop)]
pub struct CreatedTable<A: AllocHandle> {
    pub name: Name<A>,
    pub schema: Schema<A>,
}

/// The lines of a workload that make the tables and rows of a dump with these bytes: `create` for each table
/// that is not among those that were created before, to which it is added, and `apply` for the whole. A dump
/// without groups has no line.
pub fn load_lines<A: AllocHandle>(
    alloc: A,
    contents: &Contents<A>,
    bytes: &[u8],
    created: &mut Vec<CreatedTable<A>, A>,
) -> Result<String<A>, Fault<LoadFault>>
    ensures lines { ShowsUnlessMemory (λ lines. (string_bytes lines, created.new.items)) result
        (spec.load_lines contents.now bytes.now created.old.items) }
    ensures first { RefusesFirst (refused_blob contents.now) result }
{
    let Contents::Changes(list) = contents else {
        return Err(Fault::Refused(LoadFault::Patchset));
    };
    let mut lines = String::new(alloc);
    if list.groups().is_empty() {
        return Ok(lines);
    }
    push_groups(list.groups(), created, &mut lines)?;
    push_apply(alloc, bytes, &mut lines)?;
    Ok(lines)
}

// Appends the lines that create the tables of these groups.
fn push_groups<A: AllocHandle>(
    groups: &[Group<A>],
    created: &mut Vec<CreatedTable<A>, A>,
    lines: &mut String<A>,
) -> Result<(), Fault<LoadFault>>
    ensures { LeavesUnlessMemory result
        (with_groups 0 groups.now (string_bytes lines.old, created.old.items))
        (string_bytes lines.new, created.new.items) }
{
    for (at, group) in groups.iter().enumerate() {
        push_group(at, group, created, lines)?;
    }
    Ok(())
}

fn push_group<A: AllocHandle>(
    at: usize,
    group: &Group<A>,
    created: &mut Vec<CreatedTable<A>, A>,
    lines: &mut String<A>,
) -> Result<(), Fault<LoadFault>>
    ensures { LeavesUnlessMemory result
        (with_group at group.now (string_bytes lines.old, created.old.items))
        (string_bytes lines.new, created.new.items) }
{
    if !is_word(group.table().as_str().as_bytes()) {
        return Err(Fault::Refused(LoadFault::NoWord { group: at }));
    }
    if !has_inserts_alone(group) {
        return Err(Fault::Refused(LoadFault::NoInsert { group: at }));
    }
    push_table(at, group, created, lines)
}

// Appends the line that creates the table of a group, unless it was created.
fn push_table<A: AllocHandle>(
    at: usize,
    group: &Group<A>,
    created: &mut Vec<CreatedTable<A>, A>,
    lines: &mut String<A>,
) -> Result<(), Fault<LoadFault>>
    ensures { LeavesUnlessMemory result
        (with_table at group.now (string_bytes lines.old, created.old.items)
        (columns_of group.now.table created.old.items))
        (string_bytes lines.new, created.new.items) }
{
    match columns_of(group.table(), created.as_slice()) {
        Some(schema) if schema == group.schema() => Ok(()),
        Some(_) => Err(Fault::Refused(LoadFault::OtherColumns { group: at })),
        None => Ok(create(group, created, lines)?),
    }
}

fn create<A: AllocHandle>(
    group: &Group<A>,
    created: &mut Vec<CreatedTable<A>, A>,
    lines: &mut String<A>,
) -> Result<(), OutOfMemory>
    ensures lines { OnOk result (string_bytes lines.new
        ≡ string_bytes lines.old ++ create_line group.now.table group.now.schema) }
    ensures created { OnOk result (created.new.items
        ≡ created.old.items ++ record { name = group.now.table; schema = group.now.schema } ∷ []) }
{
    push_create(group.table().as_str(), group.schema().flags(), lines)?;
    let table = CreatedTable {
        name: group.table().copy()?,
        schema: group.schema().copy()?,
    };
    created.push(table)?;
    Ok(())
}

// The columns of the table with this name, if it was created.
fn columns_of<'a, A: AllocHandle>(
    name: &Name<A>,
    created: &'a [CreatedTable<A>],
) -> Option<&'a Schema<A>>
    ensures { option_copied result ≡ columns_of name.now created.now }
{
    for table in created {
        if table.name == *name {
            return Some(&table.schema);
        }
    }
    None
}

#[tactic(auto, unfolding(crate::specs::Load::create_line))]
fn push_create<A: AllocHandle>(
    table: &str,
    flags: &[bool],
    lines: &mut String<A>,
) -> Result<(), OutOfMemory>
    ensures { OnOk result (string_bytes lines.new
        ≡ string_bytes lines.old ++ create_line table.now flags.now) }
{
    lines.push_str("create ")?;
    lines.push_str(table)?;
    lines.push_str(" ")?;
    push_columns(flags, lines)?;
    lines.push_str("\n")
}

fn push_columns<A: AllocHandle>(flags: &[bool], lines: &mut String<A>) -> Result<(), OutOfMemory>
    ensures { OnOk result (string_bytes lines.new
        ≡ string_bytes lines.old ++ flat_map column_text flags.now) }
{
    for is_key in flags {
        lines.push_str(if *is_key { "k" } else { "v" })?;
    }
    Ok(())
}

#[tactic(auto, unfolding(crate::specs::Load::apply_line))]
fn push_apply<A: AllocHandle>(
    alloc: A,
    bytes: &[u8],
    lines: &mut String<A>,
) -> Result<(), OutOfMemory>
    ensures { OnOk result (string_bytes lines.new ≡ string_bytes lines.old ++ apply_line bytes.now) }
{
    let digits = hex::encode(alloc, bytes)?;
    lines.push_str("apply x'")?;
    lines.push_str(digits.as_str())?;
    lines.push_str("' abort abort abort\n")
}

// Whether a workload can name a table so.
fn is_word(name: &[u8]) -> bool
    ensures { result ≡ is_word name.now }
{
    match name {
        [first, others @ ..] => is_letter(*first) && has_word_bytes_alone(others),
        [] => false,
    }
}

fn has_word_bytes_alone(bytes: &[u8]) -> bool
    ensures { result ≡ list_all is_word_byte bytes.now }
{
    for byte in bytes {
        if !is_word_byte(*byte) {
            return false;
        }
    }
    true
}

fn is_letter(byte: u8) -> bool
    ensures { result ≡ is_letter byte }
{
    byte.is_ascii_alphabetic() || byte == b'_'
}

fn has_inserts_alone<A: AllocHandle>(group: &Group<A>) -> bool
    ensures { result ≡ list_all (is_change Inserts) group.now.changes }
{
    for change in group.changes() {
        if !is_insert(&change) {
            return false;
        }
    }
    true
}

fn is_insert<A: AllocHandle>(change: &EntryRef<'_, RowChange<A>>) -> bool
    ensures { result ≡ is_change Inserts change.now }
{
    match change.read() {
        ChangeRef::Insert { .. } => true,
        ChangeRef::Update { .. } => false,
        ChangeRef::Delete { .. } => false,
    }
}
