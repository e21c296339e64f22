//! Schemas, rows and keys at their limits, and in their order.
use crate::refused::{Call, requests_refused};
use cap_field::ValueRef;
use cap_row::{COLUMNS_MAX, Key, Row, RowBuilder, Schema, key_of};
use cap_value::{AllocHandle, Fault, OutOfMemory, Refusal, Value};
use std::alloc::Global;

fn numbers<A: AllocHandle>(alloc: A, numbers: &[i64]) -> Result<Vec<Value<A>, A>, OutOfMemory> {
    let mut values = Vec::new(alloc);
    for number in numbers {
        values.push(Value::Int(*number))?;
    }
    Ok(values)
}

fn row(alloc: Global, values: &[i64]) -> Result<Row<Global>, OutOfMemory> {
    Row::new(numbers(alloc, values)?)
}

fn key(alloc: Global, values: &[i64]) -> Result<Option<Key<Global>>, OutOfMemory> {
    Key::new(alloc, numbers(alloc, values)?)
}

fn is_refused(alloc: Global, flags: &[bool]) -> bool {
    match Schema::new(alloc, flags) {
        Err(fault) => fault == Fault::Refused(Refusal::BadSchema),
        Ok(_schema) => false,
    }
}

// How many columns the schema of the flags has, and whether one is of the key, where its copy is the same.
fn columns(alloc: Global, flags: &[bool]) -> Option<(usize, bool)> {
    let schema = Schema::new(alloc, flags).ok()?;
    let copy = schema.copy().ok()?;
    copy.same(&schema)
        .then_some((schema.width(), schema.has_key()))
}

// Whether the first, the second and the third column are of the key.
fn key_columns(alloc: Global, flags: &[bool]) -> Option<(bool, bool, bool)> {
    let schema = Schema::new(alloc, flags).ok()?;
    Some((schema.is_key(0), schema.is_key(1), schema.is_key(2)))
}

#[test]
fn schemas_have_1_to_2000_columns(rt: HostRuntime) {
    let flags = [true; COLUMNS_MAX + 1];
    assert!(rt; columns(rt.alloc(), &flags[1..]) == Some((2_000, true)));
    assert!(rt; is_refused(rt.alloc(), &flags) && is_refused(rt.alloc(), &[]));
    assert!(rt; key_columns(rt.alloc(), &[false, true]) == Some((false, true, false)));
}

// Whether the key of the row is of these values; of none where there is no key.
fn has_key(
    alloc: Global,
    flags: &[bool],
    row: Result<Row<Global>, OutOfMemory>,
    values: &[i64],
) -> Result<bool, Fault<Refusal>> {
    let row = row?;
    let schema = Schema::new(alloc, flags)?;
    if row.width() != schema.width() {
        return Ok(false);
    }
    let found = key_of(alloc, &schema, &row)?;
    Ok(found == key(alloc, values)?)
}

// Whether the key is the same as its copy, and has no value past its last. There is none of no values.
fn is_copied(alloc: Global, values: &[i64]) -> Result<bool, OutOfMemory> {
    match key(alloc, values)? {
        None => Ok(false),
        Some(key) => Ok(key.same(&key.copy()?) && key.get(key.width()).is_none()),
    }
}

fn is_less(alloc: Global, values: &[i64], others: &[i64]) -> Result<bool, OutOfMemory> {
    Ok(key(alloc, values)? < key(alloc, others)?)
}

// A row of 1 and NULL.
fn unset(alloc: Global) -> Result<Row<Global>, OutOfMemory> {
    Row::new(vec![in alloc; Value::Int(1), Value::Null]?)
}

#[test]
fn keys_are_the_values_of_key_columns(rt: HostRuntime) {
    let (flags, values) = ([true, false, true, true], [1, 2, 3, 4]);
    let one = row(rt.alloc(), &values);
    assert!(rt; has_key(rt.alloc(), &flags, one, &[1, 3, 4]) == Ok(true));
    let one = row(rt.alloc(), &values);
    assert!(rt; has_key(rt.alloc(), &[false; 4], one, &[]) == Ok(true));
    assert!(rt; has_key(rt.alloc(), &[true, true], unset(rt.alloc()), &[]) == Ok(true));
    assert!(rt; is_less(rt.alloc(), &[1, 3], &[1, 3, 4]) == Ok(true));
    assert!(rt; is_copied(rt.alloc(), &[1, 3]) == Ok(true));
    assert!(rt; is_copied(rt.alloc(), &[1, 3, 4]) == Ok(true));
    assert!(rt; is_copied(rt.alloc(), &[]) == Ok(false));
}

// The row of 1, 2 and 3 with these fields set, whose first is the key.
fn set(alloc: Global, fields: &[(usize, Value<Global>)]) -> Result<Row<Global>, Fault<Refusal>> {
    let schema = Schema::new(alloc, &[true, false, false])?;
    let row = row(alloc, &[1, 2, 3])?;
    if row.width() != schema.width() {
        return Ok(row);
    }
    row.with_fields(alloc, &schema, fields)
}

fn is_bad_column(alloc: Global, columns: &[usize]) -> Result<bool, OutOfMemory> {
    let mut fields = Vec::new(alloc);
    for column in columns {
        fields.push((*column, Value::Int(0)))?;
    }
    match set(alloc, &fields) {
        Err(fault) => Ok(fault == Fault::Refused(Refusal::BadColumn)),
        Ok(_row) => Ok(false),
    }
}

// Whether the row is printed so, is the same as its copy, and has three values.
fn is_row(alloc: Global, row: &Row<Global>, text: &str) -> Option<bool> {
    let printed = format!(in alloc; "{row:?}").ok()?;
    let copy = row.copy().ok()?;
    let is_as_printed = printed.as_str() == text && copy.same(row);
    Some(is_as_printed && row.width() == 3 && row.get(3).is_none())
}

// Whether the row with these fields set is printed so.
fn sets(alloc: Global, fields: &[(usize, Value<Global>)], text: &str) -> bool {
    match set(alloc, fields) {
        Ok(row) => is_row(alloc, &row, text) == Some(true),
        Err(_) => false,
    }
}

#[test]
fn updates_set_just_their_fields(rt: HostRuntime) {
    let fields = [(2, Value::Int(9)), (0, Value::Null)];
    assert!(rt; sets(rt.alloc(), &fields, "Row([Null, Int(2), Int(9)])"));
    assert!(rt; sets(rt.alloc(), &[], "Row([Int(1), Int(2), Int(3)])"));
    assert!(rt; is_bad_column(rt.alloc(), &[3]) == Ok(true));
    assert!(rt; is_bad_column(rt.alloc(), &[1, 0, 1]) == Ok(true));
}

// 130 bytes, whose length is a varint of two.
const LONG: &str = "01234567890123456789012345678901234567890123456789012345678901234\
     01234567890123456789012345678901234567890123456789012345678901234";

// Whether a builder that is taken again makes both rows, of which the second has a value of the first.
fn are_built(alloc: Global) -> Option<bool> {
    let mut builder = RowBuilder::new(alloc);
    builder.push_int(-1).ok()?;
    builder.push_text(LONG).ok()?;
    builder.push_null().ok()?;
    builder.push_blob(b"\x00\xff").ok()?;
    let first = builder.row().ok()?;
    builder.clear();
    let mut fields = first.fields();
    fields.pass();
    builder.push_next(&mut fields).ok()?;
    builder.push(&Value::Int(7)).ok()?;
    let second = builder.finish().ok()?;
    Some(is_first(&first) && is_second(&second) && !first.same(&second))
}

fn is_first(row: &Row<Global>) -> bool {
    let is_front = match (row.get(0), row.get(1)) {
        (Some(ValueRef::Int(number)), Some(ValueRef::Text(text))) => number == -1 && text == LONG,
        _ => false,
    };
    let is_rest = match (row.get(2), row.get(3)) {
        (Some(ValueRef::Null), Some(ValueRef::Blob(bytes))) => bytes == b"\x00\xff".as_slice(),
        _ => false,
    };
    is_front && is_rest && row.width() == 4
}

fn is_second(row: &Row<Global>) -> bool {
    match (row.get(0), row.get(1)) {
        (Some(ValueRef::Text(text)), Some(ValueRef::Int(number))) => text == LONG && number == 7,
        _ => false,
    }
}

#[test]
fn a_builder_makes_row_after_row(rt: HostRuntime) {
    assert!(rt; are_built(rt.alloc()) == Some(true));
}

// Whether the record of the row of 1 and NULL is appended.
fn is_written(alloc: Global) -> Option<bool> {
    let row = unset(alloc).ok()?;
    let mut out = vec![in alloc; 9u8].ok()?;
    row.write_to(&mut out).ok()?;
    let record = b"\x09\x01\x00\x00\x00\x00\x00\x00\x00\x01\x05";
    Some(out.as_slice() == record.as_slice())
}

#[test]
fn a_row_is_written_as_its_record(rt: HostRuntime) {
    assert!(rt; is_written(rt.alloc()) == Some(true));
}

// The row of 1, 2, 3 and 4, whose third field is set to a text.
fn updated<A: AllocHandle>(alloc: A, schema: &Schema<A>) -> Result<Row<A>, Fault<Refusal>> {
    let row = Row::new(numbers(alloc, &[1, 2, 3, 4])?)?;
    if row.width() != schema.width() {
        return Ok(row);
    }
    let text = Value::text(alloc, "a text that is stored")?;
    row.with_fields(alloc, schema, &[(2, text)])
}

// The key of that row, and one of numbers: whether there are both.
pub(crate) fn make<A: AllocHandle>(alloc: A) -> Result<bool, Fault<Refusal>> {
    let schema = Schema::new(alloc, &[true, true, false, true])?;
    let row = updated(alloc, &schema)?;
    if row.width() != schema.width() || key_of(alloc, &schema, &row)?.is_none() {
        return Ok(false);
    }
    Ok(Key::new(alloc, numbers(alloc, &[1, 2, 3])?)?.is_some())
}

#[test]
fn each_allocation_may_be_refused(rt: HostRuntime) {
    assert!(rt; requests_refused(rt.alloc(), Call::MakeRows) >= 8);
}
