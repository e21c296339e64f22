//! Tables: rows that change, ids, commit hooks, and memory of which each request is refused.
use crate::rows::{At, has_rows, has_text, key, key_value, named, refusal, row, schema};
use cap_field::ValueRef;
use cap_row::{Key, Row};
use cap_table::{ChangeFault, ROW_IDS_END, RowName, RowRef, Table};
use cap_test_support::{CountingHook, Memory};
use cap_value::{AllocHandle, Fault, Refusal, Value};
use linked_list_allocator::LocalHeap;
use std::alloc::Global;
use std::test::Fail;

// The rows of a table as plain data, in their order.
type Rows = &'static [(At, &'static str)];

fn kv<A: AllocHandle>(alloc: A) -> Result<Table<A>, Fault<Refusal>> {
    Ok(Table::empty(alloc, schema(alloc)?))
}

// Whether the row has the key of this name, or none, and the text.
fn is_row(row: &Row<Global>, at: At, text: &str) -> bool {
    let is_key = match (row.get(0), at) {
        (Some(ValueRef::Int(key)), At::Key(number)) => key == number,
        (Some(ValueRef::Null), At::Loose(_)) => true,
        _ => false,
    };
    is_key && has_text(row, text) && row.width() == 2
}

// Whether the answer is a key just where the row has one.
fn insert(
    alloc: Global,
    table: &mut Table<Global>,
    key: Option<i64>,
    text: &str,
) -> Result<bool, Fault<Refusal>> {
    let row = row(alloc, key, text)?;
    Ok(table.insert(row)?.is_some() == key.is_some())
}

// Whether the answer is a key just where one is set, and the row with this text.
fn set_key(
    alloc: Global,
    table: &mut Table<Global>,
    (at, text): (At, &str),
    key: Option<i64>,
) -> Result<bool, Fault<Refusal>> {
    let name = named(alloc, at)?;
    let replaced = table.update(&name, &[(0, key_value(key))])?;
    Ok(replaced.key.is_some() == key.is_some() && is_row(&replaced.row, at, text))
}

// Whether the answer is the row with this text.
fn delete(
    alloc: Global,
    table: &mut Table<Global>,
    (at, text): (At, &str),
) -> Result<bool, Fault<Refusal>> {
    let name = named(alloc, at)?;
    let before = table.delete(&name)?;
    Ok(is_row(&before, at, text))
}

// A row that gets another key, or none; and the rows after it.
const MOVES: &[((At, &str), Option<i64>, Rows)] = &[
    (
        (At::Loose(1), "a"),
        Some(7),
        &[(At::Key(7), "a"), (At::Loose(2), "b")],
    ),
    (
        (At::Key(7), "a"),
        None,
        &[(At::Loose(2), "b"), (At::Loose(3), "a")],
    ),
    (
        (At::Loose(2), "b"),
        Some(5),
        &[(At::Key(5), "b"), (At::Loose(3), "a")],
    ),
];

const UNMOVED: Rows = &[(At::Loose(1), "a"), (At::Loose(2), "b")];

const MOVED: Rows = &[(At::Key(5), "b"), (At::Loose(4), "c")];

#[test]
fn rows_move_between_keys_and_ids(rt: HostRuntime) -> Result<(), Fail> {
    let mut table = kv(rt.alloc())?;
    assert!(rt; insert(rt.alloc(), &mut table, None, "a") == Ok(true));
    assert!(rt; insert(rt.alloc(), &mut table, None, "b") == Ok(true));
    assert!(rt; has_rows(&table, UNMOVED));
    for (row, key, rows) in MOVES {
        assert!(rt; set_key(rt.alloc(), &mut table, *row, *key) == Ok(true));
        assert!(rt; has_rows(&table, rows));
    }
    assert!(rt; insert(rt.alloc(), &mut table, None, "c") == Ok(true));
    assert!(rt; delete(rt.alloc(), &mut table, (At::Loose(3), "a")) == Ok(true));
    assert!(rt; has_rows(&table, MOVED));
    assert!(rt; (table.scan().left(), table.next_id()) == (2, 5));
    Ok(())
}

// What a table may be made into.
#[derive(Clone, Copy, Drop)]
enum Step {
    Insert,
    Update,
    Delete,
}

const OTHERS: &[(Step, Rows)] = &[
    (
        Step::Insert,
        &[(At::Key(7), "a"), (At::Key(8), "y"), (At::Loose(1), "b")],
    ),
    (Step::Update, &[(At::Key(7), "z"), (At::Loose(1), "b")]),
    (Step::Delete, &[(At::Loose(1), "b")]),
];

// The table with a row 8, or with another text in the row 7, or without that row.
fn other(
    alloc: Global,
    table: &Table<Global>,
    step: Step,
) -> Result<Table<Global>, Fault<Refusal>> {
    let seven = named(alloc, At::Key(7))?;
    let mut made = table.snapshot()?;
    match step {
        Step::Insert => {
            made.insert(row(alloc, Some(8), "y")?)?;
        }
        Step::Update => {
            made.update(&seven, &[(1, Value::text(alloc, "z")?)])?;
        }
        Step::Delete => {
            made.delete(&seven)?;
        }
    }
    Ok(made)
}

// Whether that table has these rows.
fn other_has(alloc: Global, table: &Table<Global>, step: Step, rows: Rows) -> bool {
    match other(alloc, table, step) {
        Ok(made) => has_rows(&made, rows),
        Err(_) => false,
    }
}

// The rows of the table.
const BEFORE: Rows = &[(At::Key(7), "a"), (At::Loose(1), "b")];

// A table of these rows.
fn begun(alloc: Global) -> Result<Table<Global>, Fault<Refusal>> {
    let mut table = kv(alloc)?;
    table.insert(row(alloc, Some(7), "a")?)?;
    table.insert(row(alloc, None, "b")?)?;
    Ok(table)
}

#[test]
fn tables_made_of_a_snapshot_leave_it_as_it_was(rt: HostRuntime) -> Result<(), Fail> {
    let mut table = begun(rt.alloc())?;
    let before = table.snapshot()?;
    assert!(rt; set_key(rt.alloc(), &mut table, (At::Key(7), "a"), None) == Ok(true));
    for (step, rows) in OTHERS {
        assert!(rt; other_has(rt.alloc(), &before, *step, rows));
    }
    assert!(rt; has_rows(&before, BEFORE));
    Ok(())
}

fn begins_with_the_least_key(table: &Table<Global>) -> bool {
    let mut scan = table.scan();
    let is_least = match scan.next() {
        Some((RowName::Key(key), _)) => key.get(0) == Some(&Value::Int(-9)),
        _ => false,
    };
    is_least && scan.left() == 2
}

const IN_ORDER: Rows = &[(At::Key(-9), "y"), (At::Key(9), "x"), (At::Loose(1), "n")];

#[test]
fn keyed_rows_come_first(rt: HostRuntime) -> Result<(), Fail> {
    let mut table = kv(rt.alloc())?;
    assert!(rt; insert(rt.alloc(), &mut table, None, "n") == Ok(true));
    assert!(rt; insert(rt.alloc(), &mut table, Some(9), "x") == Ok(true));
    assert!(rt; insert(rt.alloc(), &mut table, Some(-9), "y") == Ok(true));
    assert!(rt; has_rows(&table, IN_ORDER));
    assert!(rt; begins_with_the_least_key(&table));
    assert!(rt; (table.keyed().len(), table.loose().len()) == (2, 1));
    Ok(())
}

const WITH_LAST: Rows = &[(At::Key(1), "x"), (At::Loose(ROW_IDS_END - 1), "a")];

// Whether the row with the last id can be set.
fn sets_last(table: &mut Table<Global>) -> bool {
    let last = RowRef::Loose(ROW_IDS_END - 1);
    table.update(&last, &[(1, Value::Int(5))]).is_ok()
}

#[test]
fn the_last_id_is_given_once(rt: HostRuntime) -> Result<(), Fail> {
    let mut table = Table::with_next_id(rt.alloc(), schema(rt.alloc())?, ROW_IDS_END - 1);
    assert!(rt; insert(rt.alloc(), &mut table, Some(1), "x") == Ok(true));
    assert!(rt; insert(rt.alloc(), &mut table, None, "a") == Ok(true));
    assert!(rt; has_rows(&table, WITH_LAST));
    let spent = Some(Refusal::IdsSpent);
    assert!(rt; refusal(insert(rt.alloc(), &mut table, None, "b")) == spent);
    assert!(rt; refusal(set_key(rt.alloc(), &mut table, (At::Key(1), "x"), None)) == spent);
    assert!(rt; sets_last(&mut table));
    assert!(rt; table.next_id() == ROW_IDS_END);
    Ok(())
}

// The text of the row that the calls change.
const TEXT: &str = "a text that is stored";

// The calls that change a table of one row.
#[derive(Clone, Copy, Drop)]
enum Call {
    Insert,
    LoseKey,
    GainKey,
    Delete,
}

// The rows of a table, and its next id.
type Content = (Rows, u64);

// The calls in turn, each with the content of the table before it and after it.
const CALLS: &[(Call, Content, Content)] = &[
    (Call::Insert, (&[], 1), (&[(At::Key(1), TEXT)], 1)),
    (
        Call::LoseKey,
        (&[(At::Key(1), TEXT)], 1),
        (&[(At::Loose(1), TEXT)], 2),
    ),
    (
        Call::GainKey,
        (&[(At::Loose(1), TEXT)], 2),
        (&[(At::Key(1), TEXT)], 2),
    ),
    (Call::Delete, (&[(At::Key(1), TEXT)], 2), (&[], 2)),
];

fn has_content<A: AllocHandle>(table: &Table<A>, content: Content) -> bool {
    has_rows(table, content.0) && table.next_id() == content.1
}

// Makes the call with this row, whose key is the name.
fn made_call<A: AllocHandle>(
    table: &mut Table<A>,
    call: Call,
    row: &Row<A>,
    name: &RowRef<A>,
) -> Result<(), Fault<Refusal>> {
    match call {
        Call::Insert => insert_copy(table, row),
        Call::LoseKey => done(table.update(name, &[(0, Value::Null)])),
        Call::GainKey => done(table.update(&RowRef::Loose(1), &[(0, Value::Int(1))])),
        Call::Delete => done(table.delete(name)),
    }
}

fn insert_copy<A: AllocHandle>(table: &mut Table<A>, row: &Row<A>) -> Result<(), Fault<Refusal>> {
    let copy = row.copy()?;
    done(table.insert(copy))
}

fn done<T: Drop>(answer: Result<T, Fault<Refusal>>) -> Result<(), Fault<Refusal>> {
    match answer {
        Ok(_made) => Ok(()),
        Err(fault) => Err(fault),
    }
}

// Makes a call with this request for memory refused: whether it is made. Where it is not, the table is as
// before. None where anything else comes of it. A snapshot shares every node, so that each call needs memory.
fn with_a_request_refused<A: AllocHandle>(
    memory: &Memory<&LocalHeap>,
    table: &mut Table<A>,
    (call, before, after): (Call, Content, Content),
    (row, name): (&Row<A>, &RowRef<A>),
    number: u64,
) -> Option<bool> {
    let snapshot = table.snapshot().ok()?;
    memory.refuse(number);
    let answer = made_call(table, call, row, name);
    memory.refuse(0);
    if !has_content(&snapshot, before) {
        return None;
    }
    if memory.has_refused() {
        let is_kept = answer == Err(Fault::OutOfMemory) && has_content(table, before);
        return is_kept.then_some(false);
    }
    (answer == Ok(()) && has_content(table, after)).then_some(true)
}

// Makes a call with each of its requests refused in turn, on one table, until it is made: the number of the
// first request that it does not make.
fn first_unused_request<A: AllocHandle>(
    memory: &Memory<&LocalHeap>,
    table: &mut Table<A>,
    call: (Call, Content, Content),
    given: (&Row<A>, &RowRef<A>),
) -> Option<u64> {
    for number in 1..1_000u64 {
        if with_a_request_refused(memory, table, call, given, number)? {
            return Some(number);
        }
    }
    None
}

// Whether each call, with each of its requests refused in turn, leaves the table as it was, and is answered
// in the end.
fn each_call_may_be_refused<A: AllocHandle>(
    alloc: A,
    memory: &Memory<&LocalHeap>,
) -> Result<bool, Fault<Refusal>> {
    let (row, name) = (row(alloc, Some(1), TEXT)?, named(alloc, At::Key(1))?);
    let mut table = kv(alloc)?;
    for call in CALLS {
        if first_unused_request(memory, &mut table, *call, (&row, &name)).unwrap_or(0) <= 1 {
            return Ok(false);
        }
    }
    Ok(true)
}

// Each request for memory of each call is refused in turn. The table is as before, and the same call made
// again on it is answered.
#[test]
fn each_allocation_may_be_refused(rt: HostRuntime) -> Result<(), Fail> {
    let heap = LocalHeap::new(rt.alloc(), 32768)?;
    let memory = Memory::new(&heap);
    assert!(rt; each_call_may_be_refused(&memory, &memory) == Ok(true));
    assert!(rt; heap.used() == 0);
    Ok(())
}

// Adds the row 1, if the hook allows it.
fn insert_keyed(
    alloc: Global,
    table: &mut Table<Global>,
    text: &str,
    hook: &mut CountingHook,
) -> Result<(), ChangeFault<()>> {
    let Ok(row) = row(alloc, Some(1), text) else {
        return Err(ChangeFault::OutOfMemory);
    };
    match table.new_key(&row) {
        Ok(Some(key)) => table.insert_keyed_hooked(key, row, hook),
        _ => Err(ChangeFault::OutOfMemory),
    }
}

// Sets the text of the row of this key, if the hook allows it.
fn update_kept(
    alloc: Global,
    table: &mut Table<Global>,
    key: &Key<Global>,
    hook: &mut CountingHook,
) -> Result<(), ChangeFault<()>> {
    let Ok(text) = Value::text(alloc, "b") else {
        return Err(ChangeFault::OutOfMemory);
    };
    let fields = [(1, text)];
    if !table.keeps_key(&fields) {
        return Err(ChangeFault::OutOfMemory);
    }
    table.update_kept_hooked(key, &fields, hook)
}

const WITH_A: Rows = &[(At::Key(1), "a")];

const WITH_B: Rows = &[(At::Key(1), "b")];

// Each change is tried with a hook that refuses, and then with one that allows it.
#[test]
fn changes_wait_for_the_commit_hook(rt: HostRuntime) -> Result<(), Fail> {
    let (mut table, one) = (kv(rt.alloc())?, key(rt.alloc(), 1)?);
    let (mut no, mut yes) = (CountingHook::new(false), CountingHook::new(true));
    let vetoed = Err(ChangeFault::Vetoed(()));
    assert!(rt; insert_keyed(rt.alloc(), &mut table, "a", &mut no) == vetoed);
    assert!(rt; has_rows(&table, &[]));
    assert!(rt; insert_keyed(rt.alloc(), &mut table, "a", &mut yes) == Ok(()));
    assert!(rt; update_kept(rt.alloc(), &mut table, &one, &mut no) == vetoed);
    assert!(rt; has_rows(&table, WITH_A));
    assert!(rt; update_kept(rt.alloc(), &mut table, &one, &mut yes) == Ok(()));
    assert!(rt; table.delete_keyed_hooked(&one, &mut no) == vetoed);
    assert!(rt; has_rows(&table, WITH_B));
    assert!(rt; table.delete_keyed_hooked(&one, &mut yes) == Ok(()));
    assert!(rt; (table.scan().left(), no.asked, yes.asked) == (0, 3, 3));
    Ok(())
}

fn has_new_key(
    alloc: Global,
    table: &Table<Global>,
    key: Option<i64>,
) -> Result<bool, Fault<Refusal>> {
    let row = row(alloc, key, "l")?;
    Ok(table.new_key(&row)?.is_some())
}

// A change that the rules refuse is not shown to the hook.
#[test]
fn refused_changes_are_not_shown_to_the_hook(rt: HostRuntime) -> Result<(), Fail> {
    let (mut table, one) = (kv(rt.alloc())?, key(rt.alloc(), 1)?);
    let mut no = CountingHook::new(false);
    let no_row = Err(ChangeFault::Refused(Refusal::NoRow));
    assert!(rt; has_new_key(rt.alloc(), &table, None) == Ok(false));
    assert!(rt; !table.keeps_key(&[(0, Value::Int(2))]));
    assert!(rt; update_kept(rt.alloc(), &mut table, &one, &mut no) == no_row);
    assert!(rt; table.delete_keyed_hooked(&one, &mut no) == no_row);
    assert!(rt; insert(rt.alloc(), &mut table, Some(1), "a") == Ok(true));
    let duplicate = Err(ChangeFault::Refused(Refusal::Duplicate));
    assert!(rt; insert_keyed(rt.alloc(), &mut table, "c", &mut no) == duplicate);
    assert!(rt; no.asked == 0);
    Ok(())
}
