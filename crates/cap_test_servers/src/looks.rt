//! What a transaction looked at and was answered, as plain data.
use cap_database::Action;
use cap_field::ValueRef;
use cap_row::Row;
use cap_table::{RowRef, Scan};
use cap_txn::{Answer, AnsweredCall, Asked, Item};
use cap_value::{Refusal, Value};
use std::alloc::Global;

// An item of a footprint, of the table t.
#[derive(Clone, Copy, Drop)]
pub(crate) enum Looked {
    Table,
    Row(i64),
    Scan,
    NextId,
}

// A row of a number and a text.
type Fields<'a> = (i64, &'a str);

// What a call was answered.
pub(crate) enum Told<'a> {
    Done,
    Refused(Refusal),
    Row(Fields<'a>),
    Rows(&'a [Fields<'a>]),
    Mark(u64),
}

// Whether the name is that of the row with this key.
fn is_key(row: &RowRef<Global>, number: i64) -> bool {
    match row {
        RowRef::Key(key) => match key.get(0) {
            Some(Value::Int(found)) => *found == number && key.fields().len() == 1,
            _ => false,
        },
        RowRef::Loose(_) => false,
    }
}

fn is_item(item: &Item<Global>, looked: Looked) -> bool {
    let is_it = match looked {
        Looked::Table => matches!(item, Item::Table(_)),
        Looked::Row(number) => match item {
            Item::Row(_, row) => is_key(row, number),
            _ => false,
        },
        Looked::Scan => matches!(item, Item::Scan(_)),
        Looked::NextId => matches!(item, Item::NextId(_)),
    };
    is_it && item.table().as_str() == "t"
}

// Whether these are the items of a footprint, in order.
pub(crate) fn are_items(items: &[Item<Global>], looked: &[Looked]) -> bool {
    if items.len() != looked.len() {
        return false;
    }
    for (item, looked) in items.iter().zip(looked) {
        if !is_item(item, *looked) {
            return false;
        }
    }
    true
}

fn is_row(row: &Row<Global>, fields: Fields<'_>) -> bool {
    match (row.get(0), row.get(1)) {
        (Some(ValueRef::Int(number)), Some(ValueRef::Text(text))) => {
            (number, text) == fields && row.width() == 2
        }
        _ => false,
    }
}

fn are_rows(rows: Scan<'_, Global>, expected: &[Fields<'_>]) -> bool {
    let mut expected = expected.iter();
    for (_name, row) in rows {
        match expected.next() {
            Some(fields) if is_row(row, *fields) => {}
            _ => return false,
        }
    }
    expected.next().is_none()
}

fn is_answer(answer: &Answer<Global>, told: &Told<'_>) -> bool {
    match told {
        Told::Done => matches!(answer, Answer::Done),
        Told::Refused(why) => match answer {
            Answer::Refused(found) => found == why,
            _ => false,
        },
        Told::Row(fields) => match answer {
            Answer::Row(Some(row)) => is_row(row, *fields),
            _ => false,
        },
        Told::Rows(expected) => match answer {
            Answer::Rows(rows) => are_rows(rows.scan(), expected),
            _ => false,
        },
        Told::Mark(number) => match answer {
            Answer::Mark(mark) => mark.number == *number,
            _ => false,
        },
    }
}

// The word of a call.
fn word(call: &Asked<Global>) -> &'static str {
    match call {
        Asked::Op(op) => match &op.action {
            Action::Insert(_) => "insert",
            Action::Update(_, _) => "update",
            Action::Delete(_) => "delete",
        },
        Asked::Get(_, _) => "get",
        Asked::Scan(_) => "scan",
        Asked::Savepoint => "savepoint",
        Asked::BackTo(_) => "back",
    }
}

// Whether these are the calls of a trace and their answers, in order.
pub(crate) fn is_trace(trace: &[AnsweredCall<Global>], expected: &[(&str, Told<'_>)]) -> bool {
    if trace.len() != expected.len() {
        return false;
    }
    for (entry, (call, told)) in trace.iter().zip(expected) {
        if word(&entry.call) != *call || !is_answer(&entry.answer, told) {
            return false;
        }
    }
    true
}
