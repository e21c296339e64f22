//! Conflicts that are answered one by one.
use crate::answered::answered_by_a_policy;
use cap_applier::{Applier, MergeRefusal, RowConflict};
use cap_apply::{Answer, Applied, ConflictKind, Policy};
use cap_codec::{Contents, read_blob};
use cap_database::Database;
use cap_field::ValueRef;
use cap_filter::TableFilter;
use cap_row::{Key, Row, Schema};
use cap_table::RowRef;
use cap_value::{Fault, Name, Refusal, Value};
use std::alloc::Global;

// A key, a time and a text: (1,5,'a'), (2,9,'b') and (3,1,'c') are inserted into t.
const ROWS: &str =
    "54030100007400120001000000000000000101000000000000000503016112000100000000000000020100000000000000\
    090301621200010000000000000003010000000000000001030163";

// Inserts (1,7,'x') and (2,3,'y') into t, updates row 3 from (0,'o') to (4,'n'), and deletes row 4.
const CHANGES: &str =
    "54030100007400120001000000000000000101000000000000000703017812000100000000000000020100000000000000\
    03030179170001000000000000000301000000000000000003016f0001000000000000000403016e090001000000000000\
    000401000000000000000003016f";

// Inserts (5,1,'p') into t, and then (5,2,'q').
const TWICE: &str =
    "54030100007400120001000000000000000501000000000000000103017012000100000000000000050100000000000000\
    02030171";

// Inserts (6,1,'r') into t, and (6,1,'r') into u.
const TWO_TABLES: &str =
    "54030100007400120001000000000000000601000000000000000103017254030100007500120001000000000000000601\
    0000000000000001030172";

fn contents(alloc: Global, digits: &str) -> Option<Contents<Global>> {
    let bytes = hex::decode(alloc, digits).ok()?;
    read_blob(alloc, bytes.as_slice()).ok()
}

fn create(alloc: Global, database: &mut Database<Global>, name: &str) -> Option<()> {
    let schema = Schema::new(alloc, &[true, false, false]).ok()?;
    database.create(Name::new(alloc, name).ok()?, schema).ok()
}

// A database with tables t and u, and the rows in t.
fn begun(alloc: Global) -> Option<Database<Global>> {
    let mut database = Database::empty(alloc);
    create(alloc, &mut database, "t")?;
    create(alloc, &mut database, "u")?;
    let applied = answered(alloc, &database, ROWS, Answer::Abort)?;
    let (database, _, _) = applied.into_parts();
    Some(database)
}

// The blob applied, where each conflict is answered so.
fn answered(
    alloc: Global,
    database: &Database<Global>,
    digits: &str,
    answer: Answer,
) -> Option<Applied<Global>> {
    answered_by_a_policy(
        alloc,
        database,
        contents(alloc, digits)?,
        Policy::always(answer),
    )
    .ok()
}

fn applier(
    alloc: Global,
    database: &Database<Global>,
    digits: &str,
    filter: Option<TableFilter<Global>>,
) -> Option<Applier<Global>> {
    Applier::new(alloc, database, contents(alloc, digits)?, filter).ok()
}

// Whether the row has this time and text.
fn is_row(row: &Row<Global>, time: i64, text: &str) -> bool {
    match (row.get(1), row.get(2)) {
        (Some(ValueRef::Int(found)), Some(ValueRef::Text(letters))) => {
            found == time && letters == text
        }
        _ => false,
    }
}

// Whether the table has a row under the key with this time and text.
fn has_row(
    alloc: Global,
    database: &Database<Global>,
    table: &str,
    key: i64,
    time: i64,
    text: &str,
) -> Option<bool> {
    let name = Name::new(alloc, table).ok()?;
    let key = Key::new(alloc, vec![in alloc; Value::Int(key)].ok()?).ok()??;
    let row = database.get(&name, &RowRef::Key(key)).ok()??;
    Some(is_row(row, time, text))
}

fn row(alloc: Global, key: i64, time: i64, text: &str) -> Option<Row<Global>> {
    let text = Value::text(alloc, text).ok()?;
    let fields = vec![in alloc; Value::Int(key), Value::Int(time), text].ok()?;
    Row::new(fields).ok()
}

// The newest time wins: a row that is older than 6 is replaced.
fn newest(conflict: &RowConflict<Global>) -> Answer {
    match &conflict.row {
        Some(row) => match row.get(1) {
            Some(ValueRef::Int(time)) if time < 6 => Answer::Replace,
            _ => Answer::Omit,
        },
        None => Answer::Omit,
    }
}

// The changes applied, where the newest time wins, and how many conflicts there were.
fn newest_wins(alloc: Global, database: &Database<Global>) -> Option<Applied<Global>> {
    let mut applier = applier(alloc, database, CHANGES, None)?;
    for _ in 0..4 {
        let answer = newest(applier.conflict()?);
        applier = applier.answer(answer).ok()?;
    }
    applier.finish().ok()
}

// Whether this is what is applied and omitted, and there were four conflicts.
fn reports(applied: &Applied<Global>) -> bool {
    let report = applied.report();
    report.applied() == 2
        && report.omitted() == [1u64, 3].as_slice()
        && report.conflicts().len() == 4
}

// Keys of rows of t, with their times and texts.
type Rows = &'static [(i64, i64, &'static str)];

// The rows before the changes, and after them.
const BEFORE: Rows = &[(1, 5, "a"), (2, 9, "b"), (3, 1, "c")];

const AFTER: Rows = &[(1, 7, "x"), (2, 9, "b"), (3, 4, "n")];

fn has_rows(alloc: Global, database: &Database<Global>, rows: Rows) -> bool {
    for (key, time, text) in rows {
        if has_row(alloc, database, "t", *key, *time, text) != Some(true) {
            return false;
        }
    }
    true
}

// Whether the rows after the changes are those, and the database that they are applied to is as before.
fn is_newest(alloc: Global, database: &Database<Global>) -> bool {
    match newest_wins(alloc, database) {
        Some(applied) => {
            let is_made = reports(&applied) && has_rows(alloc, applied.database(), AFTER);
            is_made && has_rows(alloc, database, BEFORE)
        }
        None => false,
    }
}

fn keeps_the_newest(alloc: Global) -> bool {
    match begun(alloc) {
        Some(database) => is_newest(alloc, &database),
        None => false,
    }
}

#[test]
fn the_newest_time_wins(rt: HostRuntime) {
    assert!(rt; keeps_the_newest(rt.alloc()));
}

// The kind, the number and the place of the conflict, and whether the row that it met is (5,1,'p').
fn shown(applier: &Applier<Global>) -> Option<(ConflictKind, u64, usize, bool)> {
    let conflict = applier.conflict()?;
    let met = match &conflict.row {
        Some(row) => is_row(row, 1, "p"),
        None => false,
    };
    Some((conflict.kind, applier.number(), applier.change(), met))
}

// Why a row may not stand there; None where it may.
fn refusal(applier: &Applier<Global>, row: Option<Row<Global>>) -> Option<MergeRefusal> {
    applier.merge_refusal(&row?).ok()?
}

// The row in place of the change, and the rest applied.
fn merged(applier: Applier<Global>, row: Option<Row<Global>>) -> Option<Applied<Global>> {
    let row = row?;
    match applier.merge_refusal(&row) {
        Ok(None) => applier.merge(row).ok()?.finish().ok(),
        _ => None,
    }
}

// Whether (5,3,'pq') is a change of its own, and the row that is left.
fn is_merged(alloc: Global, applier: Applier<Global>) -> bool {
    match merged(applier, row(alloc, 5, 3, "pq")) {
        Some(applied) => {
            let is_omitted = applied.report().omitted() == [1u64].as_slice();
            let is_left = has_row(alloc, applied.database(), "t", 5, 3, "pq") == Some(true);
            is_omitted && is_left && applied.changes().len() == 3
        }
        None => false,
    }
}

// Whether it stands at its conflict, and takes a row with the key of the change alone.
fn takes_a_row(alloc: Global, applier: Applier<Global>) -> bool {
    let is_shown = shown(&applier) == Some((ConflictKind::Conflict, 1, 1, true));
    let other = refusal(&applier, row(alloc, 6, 3, "pq"));
    let is_merged = is_merged(alloc, applier);
    is_shown && other == Some(MergeRefusal::OtherKey) && is_merged
}

fn merges(alloc: Global) -> Option<bool> {
    let database = begun(alloc)?;
    let applier = applier(alloc, &database, TWICE, None)?;
    Some(takes_a_row(alloc, applier))
}

#[test]
fn a_merged_row_in_place_of_a_change(rt: HostRuntime) {
    assert!(rt; merges(rt.alloc()) == Some(true));
}

fn why(fault: Fault<Refusal>) -> Option<Refusal> {
    match fault {
        Fault::Refused(why) => Some(why),
        Fault::OutOfMemory => None,
    }
}

// The answer is refused with this.
fn refused_answer(applier: Option<Applier<Global>>, answer: Answer) -> Option<Refusal> {
    match applier?.answer(answer) {
        Err(fault) => why(fault),
        Ok(_applier) => None,
    }
}

// Why an application is aborted.
fn aborted(alloc: Global) -> Option<Refusal> {
    let database = begun(alloc)?;
    refused_answer(applier(alloc, &database, TWICE, None), Answer::Abort)
}

#[test]
fn an_answer_that_ends_the_application(rt: HostRuntime) {
    assert!(rt; aborted(rt.alloc()) == Some(Refusal::Aborted { at: 1 }));
}

// The numbers of the groups that are passed over, and whether u has the row and t has not.
fn filtered(alloc: Global, database: &Database<Global>) -> Option<bool> {
    let filter = TableFilter::parse(alloc, "is u").ok()?;
    let applier = applier(alloc, database, TWO_TABLES, Some(filter))?;
    let is_passed = applier.passed() == [0u64].as_slice();
    let applied = applier.finish().ok()?;
    let is_there = has_row(alloc, applied.database(), "u", 6, 1, "r") == Some(true);
    let is_absent = has_row(alloc, applied.database(), "t", 6, 1, "r").is_none();
    let is_skipped = !applied.report().skipped().is_empty();
    Some(is_passed && is_there && is_absent && !is_skipped)
}

fn is_filtered(alloc: Global) -> Option<bool> {
    let database = begun(alloc)?;
    filtered(alloc, &database)
}

#[test]
fn a_table_that_the_filter_does_not_accept(rt: HostRuntime) {
    assert!(rt; is_filtered(rt.alloc()) == Some(true));
}
