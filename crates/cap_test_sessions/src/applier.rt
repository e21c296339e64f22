//! Blobs are applied with each request for memory refused. What comes of a change under each answer of a
//! policy is in the program's examples (examples/apply).
use crate::recorded::create;
use cap_apply::{Answer, Applied, Policy, apply};
use cap_codec::{Contents, read_blob};
use cap_database::Database;
use cap_field::ValueRef;
use cap_row::Row;
use cap_test_support::Memory;
use cap_value::{AllocHandle, Fault, Name};
use linked_list_allocator::LocalHeap;
use std::test::Fail;

// Blobs of one change of the row with key 1 of the table t, a key and a value, written out by hand.
const CHANGE_INSERT: &[u8] = &[
    0x54, 2, 1, 0, 0x74, 0, 0x12, 0, 1, 0, 0, 0, 0, 0, 0, 0, 1, 3, 1, 0x79,
];

const CHANGE_UPDATE: &[u8] = &[
    0x54, 2, 1, 0, 0x74, 0, 0x17, 0, 1, 0, 0, 0, 0, 0, 0, 0, 1, 3, 1, 0x78, 0, 3, 1, 0x79,
];

const PATCH_DELETE: &[u8] = &[0x50, 2, 1, 0, 0x74, 0, 0x09, 0, 1, 0, 0, 0, 0, 0, 0, 0, 1];

// The insert of the row (1,'q'), to which they are applied.
const FIRST_ROW: &[u8] = &[
    0x54, 2, 1, 0, 0x74, 0, 0x12, 0, 1, 0, 0, 0, 0, 0, 0, 0, 1, 3, 1, 0x71,
];

const REPLACE: Policy = Policy {
    on_data: Answer::Replace,
    on_notfound: Answer::Replace,
    on_conflict: Answer::Replace,
};

// What comes of a blob with these bytes.
fn applied<A: AllocHandle>(alloc: A, database: &Database<A>, bytes: &[u8]) -> Option<Applied<A>> {
    match read_blob(alloc, bytes) {
        Ok(blob) => apply(alloc, database, &blob, REPLACE).ok(),
        Err(_) => None,
    }
}

// Whether the row is (1,'q').
fn is_the_row<A: AllocHandle>(row: &Row<A>) -> bool {
    match (row.get(0), row.get(1)) {
        (Some(ValueRef::Int(number)), Some(ValueRef::Text(text))) => number == 1 && text == "q",
        _ => false,
    }
}

// Whether the database has that row, and no other.
fn has_its_row<A: AllocHandle>(database: &Database<A>, table: &Name<A>) -> bool {
    let Ok(mut scan) = database.scan(table) else {
        return false;
    };
    if scan.left() != 1 {
        return false;
    }
    match scan.next() {
        Some((_, found)) => is_the_row(found),
        None => false,
    }
}

// Applies the blob with this request for memory refused: whether it is applied, or else the call is out of
// memory. The database is as before. None where anything else comes of it.
fn apply_with_a_request_refused<A: AllocHandle>(
    alloc: A,
    memory: &Memory<&LocalHeap>,
    database: &Database<A>,
    blob: &Contents<A>,
    number: u64,
) -> Option<bool> {
    memory.refuse(number);
    let answer = apply(alloc, database, blob, REPLACE);
    memory.refuse(0);
    let is_refused = memory.has_refused();
    match answer {
        Ok(applied) => (!is_refused && applied.report().applied() == 1).then_some(true),
        Err(fault) => (is_refused && fault == Fault::OutOfMemory).then_some(false),
    }
}

// Applies the blob with each request refused in turn, until it is applied: whether there were such requests,
// and the database was as before after each.
fn apply_in_turn<A: AllocHandle>(
    alloc: A,
    memory: &Memory<&LocalHeap>,
    database: &Database<A>,
    table: &Name<A>,
    blob: &Contents<A>,
) -> bool {
    for number in 1..1_000u64 {
        let answer = apply_with_a_request_refused(alloc, memory, database, blob, number);
        if !has_its_row(database, table) {
            return false;
        }
        match answer {
            Some(true) => return number > 1,
            Some(false) => {}
            None => return false,
        }
    }
    false
}

// The same of a blob with these bytes, on a database with that row.
fn apply_in_refused_memory<A: AllocHandle>(
    alloc: A,
    memory: &Memory<&LocalHeap>,
    bytes: &[u8],
) -> Option<bool> {
    let mut empty = Database::empty(alloc);
    if !create(alloc, &mut empty, "t") {
        return None;
    }
    let table = Name::new(alloc, "t").ok()?;
    let made = applied(alloc, &empty, FIRST_ROW)?;
    let blob = read_blob(alloc, bytes).ok()?;
    Some(apply_in_turn(alloc, memory, made.database(), &table, &blob))
}

// Each request for memory of applying a blob is refused in turn. The database is as before, and the same
// call made again applies the blob.
#[test]
fn each_growth_refused(rt: HostRuntime) -> Result<(), Fail> {
    let heap = LocalHeap::new(rt.alloc(), 32768)?;
    let memory = Memory::new(&heap);
    assert!(rt; apply_in_refused_memory(&memory, &memory, CHANGE_INSERT) == Some(true));
    assert!(rt; apply_in_refused_memory(&memory, &memory, CHANGE_UPDATE) == Some(true));
    assert!(rt; apply_in_refused_memory(&memory, &memory, PATCH_DELETE) == Some(true));
    assert!(rt; heap.used() == 0);
    Ok(())
}
