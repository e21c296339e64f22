//! Dumps of databases, which are loaded into others.
use crate::recorded::create;
use cap_codec::{KeyFlags, read_blob};
use cap_core::Command;
use cap_database::{Database, run_ops};
use cap_dump::{dump, dump_all, dump_and_load, load};
use cap_row::Schema;
use cap_script::parse;
use cap_value::{Fault, Name, Refusal};
use std::alloc::Global;
use std::test::*;

// An empty table e with a key of two columns, and a table t with rows of each type of value.
const TABLES: &str =
    "5403010200650054040100000074001200010000000000000001030178050401001200010000000000000002030001\
    ffffffffffffffff0400";

// A table t with the row (1,'x').
const ROW: &str = "5402010074001200010000000000000001030178";

// The same row as a patchset.
const PATCHSET: &str = "5002010074001200010000000000000001030178";

// What a database without tables refuses: an update, a delete, a row twice, and a table twice.
const REFUSED: &[(&str, Refusal)] = &[
    (
        "540201007400170001000000000000000103017800030179",
        Refusal::Aborted { at: 0 },
    ),
    (
        "5402010074000900010000000000000001030178",
        Refusal::Aborted { at: 0 },
    ),
    (
        "54020100740012000100000000000000010301781200010000000000000001030179",
        Refusal::Aborted { at: 1 },
    ),
    ("540201007400540201007400", Refusal::TableExists),
];

// What a load of these bytes answers: the database, or the refusal where there is one.
fn loaded(
    alloc: Global,
    database: &Database<Global>,
    digits: &str,
) -> Result<Database<Global>, Option<Refusal>> {
    let Ok(bytes) = hex::decode(alloc, digits) else {
        return Err(None);
    };
    let Ok(blob) = read_blob(alloc, bytes.as_slice()) else {
        return Err(None);
    };
    match load(alloc, database, &blob) {
        Ok(after) => Ok(after),
        Err(Fault::Refused(why)) => Err(Some(why)),
        Err(Fault::OutOfMemory) => Err(None),
    }
}

fn refusal(alloc: Global, database: &Database<Global>, digits: &str) -> Option<Refusal> {
    match loaded(alloc, database, digits) {
        Ok(_) => None,
        Err(why) => why,
    }
}

// Whether the dumps of these tables, one behind the other, have these bytes.
fn dumps(alloc: Global, database: &Database<Global>, tables: &[&str], digits: &str) -> bool {
    let Ok(expected) = hex::decode(alloc, digits) else {
        return false;
    };
    match all_dumped(alloc, database, tables) {
        Some(made) => made.as_slice() == expected.as_slice(),
        None => false,
    }
}

fn all_dumped(
    alloc: Global,
    database: &Database<Global>,
    tables: &[&str],
) -> Option<Vec<u8, Global>> {
    let mut all = Vec::new(alloc);
    for table in tables {
        let name = Name::new(alloc, table).ok()?;
        let bytes = dump(alloc, KeyFlags::Places, database, &name).ok()?;
        all.extend_from_slice(bytes.as_slice()).ok()?;
    }
    Some(all)
}

// Whether the dump of all tables has these bytes.
fn dumps_all(alloc: Global, database: &Database<Global>, digits: &str) -> bool {
    let Ok(expected) = hex::decode(alloc, digits) else {
        return false;
    };
    match dump_all(alloc, KeyFlags::Places, database) {
        Ok(made) => made.as_slice() == expected.as_slice(),
        Err(_) => false,
    }
}

// Whether these bytes are loaded, and dumped as those, table by table and all at once.
fn loads_as(alloc: Global, digits: &str, tables: &[&str], again: &str) -> bool {
    match loaded(alloc, &Database::empty(alloc), digits) {
        Ok(made) => dumps(alloc, &made, tables, again) && dumps_all(alloc, &made, again),
        Err(_) => false,
    }
}

#[test]
fn tables_are_dumped_and_loaded(rt: HostRuntime) -> Result<(), Fail> {
    let alloc = rt.alloc();
    assert!(rt; loads_as(alloc, TABLES, &["e", "t"], TABLES));
    assert!(rt; loads_as(alloc, ROW, &["t"], ROW));
    assert!(rt; loads_as(alloc, PATCHSET, &["t"], ROW));
    assert!(rt; loads_as(alloc, "", &[], ""));
    Ok(())
}

#[test]
fn loads_that_are_refused(rt: HostRuntime) -> Result<(), Fail> {
    let alloc = rt.alloc();
    let empty = Database::empty(alloc);
    for (digits, why) in REFUSED {
        assert!(rt; refusal(alloc, &empty, digits) == Some(*why));
    }
    let mut taken = Database::empty(alloc);
    assert!(rt; create(alloc, &mut taken, "t"));
    assert!(rt; refusal(alloc, &taken, TABLES) == Some(Refusal::TableExists));
    Ok(())
}

// Makes a table u without key columns.
fn create_without_key(alloc: Global, database: &mut Database<Global>) -> bool {
    let Ok(name) = Name::new(alloc, "u") else {
        return false;
    };
    match Schema::new(alloc, &[false]) {
        Ok(schema) => database.create(name, schema).is_ok(),
        Err(_) => false,
    }
}

// The database after a commit.
fn committed(alloc: Global, database: &Database<Global>, text: &str) -> Option<Database<Global>> {
    let parsed = parse(alloc, text).ok()?;
    match &parsed.lines.first()?.command {
        Command::Commit(batch) => {
            let (after, _) = run_ops(alloc, database, batch.ops()).ok()?.into_parts();
            Some(after)
        }
        _ => None,
    }
}

// Whether the table t is dumped and loaded as these bytes, with the other key flags between.
fn comes_again(alloc: Global, database: &Database<Global>, digits: &str) -> bool {
    let Ok(name) = Name::new(alloc, "t") else {
        return false;
    };
    match dump_and_load(alloc, KeyFlags::Ones, database, &name) {
        Ok(again) => dumps(alloc, &again, &["t"], digits),
        Err(_) => false,
    }
}

#[test]
fn rows_without_a_key_are_left_out(rt: HostRuntime) -> Result<(), Fail> {
    let alloc = rt.alloc();
    let mut tables = Database::empty(alloc);
    assert!(rt; create(alloc, &mut tables, "t"));
    assert!(rt; create_without_key(alloc, &mut tables));
    let text = "commit insert t (1,'x') ; insert t (null,'y') ; insert u ('z')";
    let rows = committed(alloc, &tables, text).ok_or("rows")?;
    assert!(rt; dumps(alloc, &rows, &["t", "u"], ROW));
    assert!(rt; dumps_all(alloc, &rows, ROW));
    assert!(rt; comes_again(alloc, &rows, ROW));
    assert!(rt; all_dumped(alloc, &rows, &["v"]).is_none());
    Ok(())
}
