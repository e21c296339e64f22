//! Rows of a key and a text, their names, and what a table has of them.
use cap_field::ValueRef;
use cap_row::{Key, Row, Schema};
use cap_table::{RowName, RowRef, Table};
use cap_value::{AllocHandle, Fault, OutOfMemory, Refusal, Value};

/// The name of a row as plain data.
#[derive(Clone, Copy, Drop)]
pub enum At {
    Key(i64),
    Loose(u64),
}

/// The value of a key column, NULL where there is no key.
pub(crate) fn key_value<A: AllocHandle>(key: Option<i64>) -> Value<A> {
    match key {
        None => Value::Null,
        Some(key) => Value::Int(key),
    }
}

pub(crate) fn row<A: AllocHandle>(
    alloc: A,
    key: Option<i64>,
    text: &str,
) -> Result<Row<A>, Fault<Refusal>> {
    let text = Value::text(alloc, text)?;
    Ok(pair(alloc, key_value(key), text)?)
}

fn pair<A: AllocHandle>(alloc: A, key: Value<A>, text: Value<A>) -> Result<Row<A>, OutOfMemory> {
    Row::new(vec![in alloc; key, text]?)
}

pub(crate) fn key<A: AllocHandle>(alloc: A, number: i64) -> Result<Key<A>, OutOfMemory> {
    match Key::new(alloc, vec![in alloc; Value::Int(number)]?)? {
        Some(key) => Ok(key),
        None => Err(OutOfMemory),
    }
}

pub(crate) fn named<A: AllocHandle>(alloc: A, at: At) -> Result<RowRef<A>, OutOfMemory> {
    match at {
        At::Key(number) => Ok(RowRef::Key(key(alloc, number)?)),
        At::Loose(id) => Ok(RowRef::Loose(id)),
    }
}

/// The schema of a key and a text.
pub(crate) fn schema<A: AllocHandle>(alloc: A) -> Result<Schema<A>, Fault<Refusal>> {
    Schema::new(alloc, &[true, false])
}

pub(crate) fn has_text<A: AllocHandle>(row: &Row<A>, text: &str) -> bool {
    match row.get(1) {
        Some(ValueRef::Text(found)) => found == text,
        _ => false,
    }
}

fn is_named<A: AllocHandle>(name: RowName<'_, A>, at: At) -> bool {
    match (name, at) {
        (RowName::Key(key), At::Key(number)) => key.get(0) == Some(&Value::Int(number)),
        (RowName::Loose(id), At::Loose(number)) => id == number,
        _ => false,
    }
}

/// Whether the table has just these rows, in their order.
pub(crate) fn has_rows<A: AllocHandle>(table: &Table<A>, expected: &[(At, &str)]) -> bool {
    let mut rest = expected.iter();
    for (name, row) in table.scan() {
        let Some((at, text)) = rest.next() else {
            return false;
        };
        if !is_named(name, *at) || !has_text(row, text) {
            return false;
        }
    }
    rest.next().is_none()
}

/// Why a call is refused by the rules, or nothing where it is not.
pub(crate) fn refusal<T: Drop>(answer: Result<T, Fault<Refusal>>) -> Option<Refusal> {
    match answer {
        Err(Fault::Refused(why)) => Some(why),
        _ => None,
    }
}
