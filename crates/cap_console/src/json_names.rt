//! The JSON of a blob with other names for its columns, or with an object a line.
use crate::columns::{TableColumns, column_name, columns_of};
use json::{Scratch, Value, Writer};
use std::alloc::{AllocError, Global};

/// The JSON of a blob, an array with an object for each change, with names for its columns: as an array again, or
/// with a line for each object.
pub fn named_json(
    alloc: Global,
    text: &[u8],
    all: &[TableColumns],
    is_lines: bool,
) -> Result<Vec<u8>, AllocError> {
    let mut scratch = Scratch::new(alloc);
    let Ok(document) = Value::from_slice(alloc, text, &mut scratch) else {
        return Err(AllocError);
    };
    let Value::Array(changes) = &document else {
        return Err(AllocError);
    };
    if is_lines {
        lines(alloc, changes.as_slice(), all)
    } else {
        array(alloc, changes.as_slice(), all)
    }
}

fn lines(
    alloc: Global,
    changes: &[Value<'_>],
    all: &[TableColumns],
) -> Result<Vec<u8>, AllocError> {
    let mut text = Vec::new(alloc);
    for change in changes {
        let mut writer = Writer::new(text);
        write_change(&mut writer, change, all)?;
        text = writer.into_inner();
        text.push(b'\n')?;
    }
    Ok(text)
}

fn array(
    alloc: Global,
    changes: &[Value<'_>],
    all: &[TableColumns],
) -> Result<Vec<u8>, AllocError> {
    let mut writer = Writer::new(Vec::new(alloc));
    writer.begin_array()?;
    for change in changes {
        write_change(&mut writer, change, all)?;
    }
    writer.end_array()?;
    let mut text = writer.into_inner();
    text.push(b'\n')?;
    Ok(text)
}

fn write_change(
    writer: &mut Writer<Global>,
    change: &Value<'_>,
    all: &[TableColumns],
) -> Result<(), AllocError> {
    let Value::Object(members) = change else {
        return Ok(());
    };
    let names = match change.get("table") {
        Some(Value::String(table)) => columns_of(all, table),
        _ => &[],
    };
    writer.begin_object()?;
    for (name, value) in members {
        writer.key(name)?;
        write_member(writer, value, names)?;
    }
    writer.end_object()
}

// The table, the operation, the indirect flag, the key, or a record.
fn write_member(
    writer: &mut Writer<Global>,
    value: &Value<'_>,
    names: &[String],
) -> Result<(), AllocError> {
    match value {
        Value::String(text) => writer.string(text),
        Value::Bool(flag) => writer.boolean(*flag),
        Value::Array(columns) => write_key(writer, columns.as_slice(), names),
        Value::Object(fields) => write_record(writer, fields.as_slice(), names),
        _ => writer.null(),
    }
}

fn write_key(
    writer: &mut Writer<Global>,
    columns: &[Value<'_>],
    names: &[String],
) -> Result<(), AllocError> {
    writer.begin_array()?;
    for column in columns {
        if let Value::String(column) = column {
            writer.string(column_name(names, column))?;
        }
    }
    writer.end_array()
}

fn write_record(
    writer: &mut Writer<Global>,
    fields: &[(&str, Value<'_>)],
    names: &[String],
) -> Result<(), AllocError> {
    writer.begin_object()?;
    for (column, value) in fields {
        writer.key(column_name(names, column))?;
        write_value(writer, value)?;
    }
    writer.end_object()
}

fn write_value(writer: &mut Writer<Global>, value: &Value<'_>) -> Result<(), AllocError> {
    match value {
        Value::Number(_) => writer.i64(value.as_i64().unwrap_or(0)),
        Value::String(text) => writer.string(text),
        Value::Object(members) => write_blob(writer, members.as_slice()),
        _ => writer.null(),
    }
}

fn write_blob(
    writer: &mut Writer<Global>,
    members: &[(&str, Value<'_>)],
) -> Result<(), AllocError> {
    writer.begin_object()?;
    for (name, value) in members {
        writer.key(name)?;
        if let Value::String(digits) = value {
            writer.string(digits)?;
        }
    }
    writer.end_object()
}
