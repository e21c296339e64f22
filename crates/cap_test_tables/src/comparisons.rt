//! Comparisons of tables, also in memory of which each request is refused.
use crate::rows::{has_text, refusal, row, schema};
use cap_compare::{Difference, compare};
use cap_row::Schema;
use cap_table::Table;
use cap_test_support::Memory;
use cap_value::{AllocHandle, Fault, Refusal, Value};
use linked_list_allocator::LocalHeap;
use std::alloc::Global;
use std::test::Fail;

fn table<A: AllocHandle>(
    alloc: A,
    rows: &[(Option<i64>, &str)],
) -> Result<Table<A>, Fault<Refusal>> {
    let mut table = Table::empty(alloc, schema(alloc)?);
    for (key, text) in rows {
        table.insert(row(alloc, *key, text)?)?;
    }
    Ok(table)
}

// Whether the difference is of this key, and its row has this text; there is none where none is given.
fn is_of(difference: &Difference<Global>, key: i64, text: Option<&str>) -> bool {
    let is_row = match (&difference.image, text) {
        (None, None) => true,
        (Some(row), Some(text)) => has_text(row, text),
        _ => false,
    };
    is_row && difference.key.get(0) == Some(&Value::Int(key))
}

// Whether the differences are just these.
fn differ_by(
    alloc: Global,
    from: &Table<Global>,
    to: &Table<Global>,
    expected: &[(i64, Option<&str>)],
) -> Result<bool, Fault<Refusal>> {
    let found = compare(alloc, Some(from), to)?;
    let mut rest = expected.iter();
    for difference in found.iter() {
        let Some((key, text)) = rest.next() else {
            return Ok(false);
        };
        if !is_of(difference, *key, *text) {
            return Ok(false);
        }
    }
    Ok(rest.next().is_none())
}

const FROM: &[(Option<i64>, &str)] = &[
    (Some(1), "10"),
    (Some(2), "20"),
    (Some(3), "30"),
    (None, "1"),
];

const TO: &[(Option<i64>, &str)] = &[
    (Some(2), "20"),
    (Some(3), "31"),
    (Some(4), "40"),
    (None, "2"),
];

// By which they differ: the key of each row, and what it was.
const DIFFERENCES: &[(i64, Option<&str>)] = &[(1, Some("10")), (3, Some("30")), (4, None)];

// One row gone, one changed, one new, and one that is the same; rows without a key are passed over.
#[test]
fn rows_gone_changed_and_new(rt: HostRuntime) -> Result<(), Fail> {
    let from = table(rt.alloc(), FROM)?;
    let to = table(rt.alloc(), TO)?;
    assert!(rt; differ_by(rt.alloc(), &from, &to, DIFFERENCES) == Ok(true));
    assert!(rt; differ_by(rt.alloc(), &to, &to, &[]) == Ok(true));
    Ok(())
}

// Why a table of these columns is not compared with the other one.
fn refused_of(alloc: Global, flags: &[bool], to: &Table<Global>) -> Option<Refusal> {
    match Schema::new(alloc, flags) {
        Ok(schema) => refusal(compare(alloc, Some(&Table::empty(alloc, schema)), to)),
        Err(_) => None,
    }
}

#[test]
fn other_columns_and_no_table_are_refused(rt: HostRuntime) -> Result<(), Fail> {
    let to = table(rt.alloc(), TO)?;
    let incompatible = Some(Refusal::Incompatible);
    assert!(rt; refused_of(rt.alloc(), &[true, false, false], &to) == incompatible);
    assert!(rt; refused_of(rt.alloc(), &[false, false], &to) == incompatible);
    assert!(rt; refusal(compare(rt.alloc(), None, &to)) == incompatible);
    Ok(())
}

// Compares with this request for memory refused: whether there is an answer, which is the three differences.
// None where anything else comes of it.
fn with_a_request_refused<A: AllocHandle>(
    alloc: A,
    memory: &Memory<&LocalHeap>,
    from: &Table<A>,
    to: &Table<A>,
    number: u64,
) -> Option<bool> {
    memory.refuse(number);
    let answer = compare(alloc, Some(from), to);
    memory.refuse(0);
    let is_refused = memory.has_refused();
    match answer {
        Ok(found) => (!is_refused && found.len() == 3).then_some(true),
        Err(fault) => (is_refused && fault == Fault::OutOfMemory).then_some(false),
    }
}

// Compares with each request refused in turn, until none is: whether there were such requests.
fn compared_in_refused_memory<A: AllocHandle>(
    alloc: A,
    memory: &Memory<&LocalHeap>,
) -> Result<bool, Fault<Refusal>> {
    let from = table(alloc, &[(Some(1), "10"), (Some(2), "20")])?;
    let to = table(alloc, &[(Some(2), "21"), (Some(3), "30")])?;
    for number in 1..1_000u64 {
        match with_a_request_refused(alloc, memory, &from, &to, number) {
            Some(true) => return Ok(number > 1),
            Some(false) => {}
            None => return Ok(false),
        }
    }
    Ok(false)
}

// Each request for memory is refused in turn: out of memory, and never another answer. In the end the three
// differences are found.
#[test]
fn each_growth_refused(rt: HostRuntime) -> Result<(), Fail> {
    let heap = LocalHeap::new(rt.alloc(), 32768)?;
    let memory = Memory::new(&heap);
    assert!(rt; compared_in_refused_memory(&memory, &memory) == Ok(true));
    assert!(rt; heap.used() == 0);
    Ok(())
}
