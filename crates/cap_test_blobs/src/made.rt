//! Change lists made by hand of plain data.
use cap_changes::{ChangeList, Group, to_patches};
use cap_codec::{push_value, write_changes, write_patches};
use cap_field::{push_int, push_text};
use cap_row::Schema;
use cap_value::{Fault, Name, OutOfMemory, Refusal, Value};
use std::alloc::Global;

/// A key and a text, each of which may be undefined.
pub type Fields = (Option<i64>, Option<&'static str>);

fn push_fields(out: &mut Vec<u8>, (key, text): Fields) -> Result<(), OutOfMemory> {
    match key {
        None => out.push(0)?,
        Some(key) => push_int(out, key)?,
    }
    match text {
        None => Ok(out.push(0)?),
        Some(text) => push_text(out, text),
    }
}

// The bytes of a change. An insert has no old record, and a delete no new one.
fn change(alloc: Global, old: Option<Fields>, new: Option<Fields>) -> Result<Vec<u8>, OutOfMemory> {
    let operation = match (old, new) {
        (_, None) => 0x09,
        (None, Some(_)) => 0x12,
        (Some(_), Some(_)) => 0x17,
    };
    let mut bytes = vec![in alloc; operation, 0]?;
    if let Some(old) = old {
        push_fields(&mut bytes, old)?;
    }
    if let Some(new) = new {
        push_fields(&mut bytes, new)?;
    }
    Ok(bytes)
}

/// A group without changes.
pub(crate) fn group(
    alloc: Global,
    table: &str,
    flags: &[bool],
) -> Result<Group<Global>, Fault<Refusal>> {
    let name = Name::new(alloc, table)?;
    let schema = Schema::new(alloc, flags)?;
    if !schema.has_key() {
        return Err(Fault::Refused(Refusal::BadSchema));
    }
    Ok(Group::new(alloc, name, schema))
}

fn put(group: &mut Group<Global>, change: &[u8]) -> Result<(), Fault<Refusal>> {
    match group.push_read(change.len(), change) {
        Ok([]) => Ok(()),
        Err(Fault::OutOfMemory) => Err(Fault::OutOfMemory),
        _ => Err(Fault::Refused(Refusal::WrongWidth)),
    }
}

/// The changeset of one change of the table `t`, a key and a value, with these bytes.
pub(crate) fn of_one(alloc: Global, change: &[u8]) -> Result<ChangeList<Global>, Fault<Refusal>> {
    let mut changes = group(alloc, "t", &[true, false])?;
    put(&mut changes, change)?;
    let mut list = ChangeList::new(alloc);
    list.push(changes)?;
    Ok(list)
}

/// Whether the changeset of this change is written as these bytes, and its patchset as those.
pub(crate) fn is_list(
    alloc: Global,
    (old, new): (Option<Fields>, Option<Fields>),
    changeset: &[u8],
    patchset: &[u8],
) -> Result<bool, Fault<Refusal>> {
    let change = change(alloc, old, new)?;
    let list = of_one(alloc, change.as_slice())?;
    let patches = to_patches(alloc, &list)?;
    Ok(
        write_changes(alloc, &list)?.as_slice() == changeset
            && write_patches(alloc, &patches)?.as_slice() == patchset,
    )
}

// An insert with this value behind the key.
fn insert_of(alloc: Global, value: &Value<Global>) -> Result<Vec<u8>, OutOfMemory> {
    let mut insert = vec![in alloc; 0x12, 1]?;
    push_int(&mut insert, 1)?;
    push_value(&mut insert, value)?;
    Ok(insert)
}

/// The bytes of a value as the second field of an insert, which stand behind the first 17 bytes.
pub(crate) fn field(alloc: Global, value: Value<Global>) -> Option<Vec<u8>> {
    let insert = insert_of(alloc, &value).ok()?;
    let list = of_one(alloc, insert.as_slice()).ok()?;
    let bytes = write_changes(alloc, &list).ok()?;
    Vec::from_slice(alloc, bytes.get(17..)?).ok()
}

// An insert of so many numbers.
fn numbers(alloc: Global, count: usize) -> Result<Vec<u8>, OutOfMemory> {
    let mut insert = vec![in alloc; 0x12, 0]?;
    for _ in 0..count {
        push_int(&mut insert, 1)?;
    }
    Ok(insert)
}

/// A group of 2,000 key columns, and an insert.
pub(crate) fn wide_insert(alloc: Global) -> Result<Group<Global>, Fault<Refusal>> {
    let mut wide = group(alloc, "t", &[true; 2000])?;
    let insert = numbers(alloc, 2000)?;
    put(&mut wide, insert.as_slice())?;
    Ok(wide)
}
