//! Transactions, batches, lists of operations and commit hooks of databases.
use crate::rows::{At, has_text, named, refusal, row, schema};
use cap_database::{
    Action, Assignments, Cause, Change, Database, Op, RefusedAt, Snapshot, TABLES_MAX, WriteHook,
    run_ops,
};
use cap_row::Schema;
use cap_table::RowRef;
use cap_test_support::{CountingHook, Memory};
use cap_txn::{Batch, Mark, OPS_MAX, SAVEPOINTS_MAX, Txn};
use cap_value::{AllocHandle, Fault, Name, OutOfMemory, Refusal, Value};
use linked_list_allocator::LocalHeap;
use std::alloc::Global;
use std::test::Fail;

fn op<A: AllocHandle>(alloc: A, action: Action<A>) -> Result<Op<A>, Fault<Refusal>> {
    Ok(Op {
        table: Name::new(alloc, "t")?,
        cause: Cause::Direct,
        action,
    })
}

fn insert<A: AllocHandle>(alloc: A, key: i64, text: &str) -> Result<Op<A>, Fault<Refusal>> {
    op(alloc, Action::Insert(row(alloc, Some(key), text)?))
}

fn set_text(alloc: Global, key: i64, text: &str) -> Result<Op<Global>, Fault<Refusal>> {
    let fields = assign(alloc, Value::text(alloc, text)?)?;
    op(alloc, Action::Update(named(alloc, At::Key(key))?, fields))
}

fn assign(alloc: Global, text: Value<Global>) -> Result<Assignments<Global>, OutOfMemory> {
    Ok(Assignments::new(vec![in alloc; (1, text)]?))
}

fn delete(alloc: Global, key: i64) -> Result<Op<Global>, Fault<Refusal>> {
    op(alloc, Action::Delete(named(alloc, At::Key(key))?))
}

// A database with an empty table t of a key and a text.
fn with_table<A: AllocHandle>(alloc: A) -> Result<Database<A>, Fault<Refusal>> {
    let mut database = Database::empty(alloc);
    database.create(Name::new(alloc, "t")?, schema(alloc)?)?;
    Ok(database)
}

// What is done to the row 1.
#[derive(Clone, Copy, Drop)]
enum Does {
    Insert(&'static str),
    SetText(&'static str),
    Delete,
}

fn op_of(alloc: Global, does: Does) -> Result<Op<Global>, Fault<Refusal>> {
    match does {
        Does::Insert(text) => insert(alloc, 1, text),
        Does::SetText(text) => set_text(alloc, 1, text),
        Does::Delete => delete(alloc, 1),
    }
}

fn make(alloc: Global, txn: &mut Txn<Global>, does: Does) -> Result<(), Fault<Refusal>> {
    txn.op(op_of(alloc, does)?)
}

// Whether the row 1 has this text, or is not there where none is given.
fn is_one(
    alloc: Global,
    txn: &mut Txn<Global>,
    text: Option<&str>,
) -> Result<bool, Fault<Refusal>> {
    let (name, one) = (Name::new(alloc, "t")?, named(alloc, At::Key(1))?);
    match (txn.get(&name, &one)?, text) {
        (Some(row), Some(text)) => Ok(has_text(&row, text)),
        (None, None) => Ok(true),
        _ => Ok(false),
    }
}

// A snapshot of a database whose table has the row (1, 'x').
fn with_one(alloc: Global) -> Result<Snapshot<Global>, Fault<Refusal>> {
    let mut database = with_table(alloc)?;
    database.step(&insert(alloc, 1, "x")?)?;
    Ok(Snapshot::new(2, database))
}

// The rows of the table in the transaction.
fn rows_seen(alloc: Global, txn: &mut Txn<Global>) -> Result<u128, Fault<Refusal>> {
    let name = Name::new(alloc, "t")?;
    Ok(txn.scan(&name)?.scan().left())
}

// Whether the snapshot has the row 1, and no other.
fn has_just_one(alloc: Global, snapshot: &Snapshot<Global>) -> Option<bool> {
    let name = Name::new(alloc, "t").ok()?;
    let one = named(alloc, At::Key(1)).ok()?;
    Some(snapshot.get(&name, &one).ok()?.is_some() && snapshot.scan(&name).ok()?.left() == 1)
}

// A call of a transaction, with what comes of it.
#[derive(Clone, Copy, Drop)]
enum Call {
    // A savepoint, whose mark has this number.
    Savepoint(u64),
    Make(Does),
    // Back to the mark of this number, or refused since there is none.
    Back(u64),
    NoMark(u64),
    // The row 1 has this text, or is not there.
    One(Option<&'static str>),
}

const CALLS: &[Call] = &[
    Call::Savepoint(0),
    Call::Make(Does::SetText("y")),
    Call::Savepoint(1),
    Call::Make(Does::Delete),
    Call::One(None),
    Call::Back(1),
    Call::One(Some("y")),
    Call::Back(0),
    Call::One(Some("x")),
    Call::NoMark(1),
    Call::Back(0),
    Call::Savepoint(2),
];

fn takes(alloc: Global, txn: &mut Txn<Global>, call: Call) -> bool {
    match call {
        Call::Savepoint(number) => txn.savepoint() == Ok(Mark { number }),
        Call::Make(does) => make(alloc, txn, does) == Ok(()),
        Call::Back(number) => txn.back_to(Mark { number }) == Ok(()),
        Call::NoMark(number) => refusal(txn.back_to(Mark { number })) == Some(Refusal::NoMark),
        Call::One(text) => is_one(alloc, txn, text) == Ok(true),
    }
}

// Whether a transaction on the snapshot begins and is rolled back.
fn is_rolled_back(alloc: Global, snapshot: &Snapshot<Global>) -> bool {
    match Txn::begin(alloc, snapshot) {
        Ok(txn) => {
            txn.rollback();
            true
        }
        Err(_) => false,
    }
}

#[test]
fn going_back_keeps_the_mark(rt: HostRuntime) -> Result<(), Fail> {
    let snapshot = with_one(rt.alloc())?;
    let mut txn = Txn::begin(rt.alloc(), &snapshot)?;
    for (number, call) in CALLS.iter().enumerate() {
        assert!(rt; takes(rt.alloc(), &mut txn, *call), "{number}");
    }
    assert!(rt; rows_seen(rt.alloc(), &mut txn) == Ok(1));
    let batch = txn.into_batch();
    assert!(rt; (batch.ops().len(), batch.base()) == (0, Some(2)));
    assert!(rt; has_just_one(rt.alloc(), &snapshot) == Some(true));
    assert!(rt; is_rolled_back(rt.alloc(), &snapshot));
    Ok(())
}

// Inserts as many rows as a transaction and a batch may have operations.
fn fill(
    alloc: Global,
    txn: &mut Txn<Global>,
    batch: &mut Batch<Global>,
) -> Result<(), Fault<Refusal>> {
    for key in 0..OPS_MAX as i64 {
        txn.op(insert(alloc, key, "x")?)?;
        batch.push(insert(alloc, key, "x")?)?;
    }
    Ok(())
}

fn push(alloc: Global, batch: &mut Batch<Global>) -> Result<(), Fault<Refusal>> {
    batch.push(insert(alloc, 0, "x")?)
}

// What comes of a list of operations: how many changes, and how many rows of the table.
fn outcome(
    alloc: Global,
    database: &Database<Global>,
    ops: &[Op<Global>],
) -> Result<(usize, Option<u128>), Fault<RefusedAt>> {
    let outcome = run_ops(alloc, database, ops)?;
    let changed = outcome.changes().len();
    Ok((changed, rows_of(alloc, outcome.database())))
}

fn rows_of(alloc: Global, database: &Database<Global>) -> Option<u128> {
    let name = Name::new(alloc, "t").ok()?;
    Some(database.scan(&name).ok()?.left())
}

#[test]
fn limits_of_a_transaction(rt: HostRuntime) -> Result<(), Fail> {
    let snapshot = Snapshot::new(1, with_table(rt.alloc())?);
    let mut txn = Txn::begin(rt.alloc(), &snapshot)?;
    let mut batch = Batch::based(rt.alloc(), 1);
    assert!(rt; fill(rt.alloc(), &mut txn, &mut batch) == Ok(()));
    let too_many = Some(Refusal::TooMany);
    assert!(rt; refusal(make(rt.alloc(), &mut txn, Does::Insert("x"))) == too_many);
    assert!(rt; refusal(push(rt.alloc(), &mut batch)) == too_many);
    let expected = (OPS_MAX, Some(OPS_MAX as u128));
    assert!(rt; outcome(rt.alloc(), snapshot.database(), batch.ops()) == Ok(expected));
    for _made in 0..SAVEPOINTS_MAX {
        assert!(rt; txn.savepoint().is_ok());
    }
    assert!(rt; refusal(txn.savepoint()) == too_many);
    assert!(rt; txn.into_batch().ops().len() == OPS_MAX);
    Ok(())
}

// Inserts a row for each of the keys.
fn inserts(alloc: Global, keys: &[i64]) -> Result<Batch<Global>, Fault<Refusal>> {
    let mut batch = Batch::blind(alloc);
    for key in keys {
        batch.push(insert(alloc, *key, "x")?)?;
    }
    Ok(batch)
}

// What comes of inserting a row for each of the keys.
fn inserted(
    alloc: Global,
    database: &Database<Global>,
    keys: &[i64],
) -> Option<Result<(usize, Option<u128>), Fault<RefusedAt>>> {
    match inserts(alloc, keys) {
        Ok(batch) => Some(outcome(alloc, database, batch.ops())),
        Err(_) => None,
    }
}

const DUPLICATE: Fault<RefusedAt> = Fault::Refused(RefusedAt {
    at: 2,
    why: Refusal::Duplicate,
});

#[test]
fn a_refused_list_changes_nothing(rt: HostRuntime) -> Result<(), Fail> {
    let database = with_table(rt.alloc())?;
    assert!(rt; inserted(rt.alloc(), &database, &[1, 2, 1]) == Some(Err(DUPLICATE)));
    assert!(rt; rows_of(rt.alloc(), &database) == Some(0));
    assert!(rt; inserted(rt.alloc(), &database, &[1, 2]) == Some(Ok((2, Some(2)))));
    Ok(())
}

fn create(
    alloc: Global,
    database: &mut Database<Global>,
    name: &str,
) -> Result<(), Fault<Refusal>> {
    let schema = Schema::new(alloc, &[true])?;
    database.create(Name::new(alloc, name)?, schema)
}

// Whether a table with this number for a name is created.
fn is_created(alloc: Global, database: &mut Database<Global>, number: usize) -> bool {
    match format!(in alloc; "{number}") {
        Ok(name) => create(alloc, database, name.as_str()) == Ok(()),
        Err(_) => false,
    }
}

// Why the table u, which is not there, cannot be written.
fn refused_write(alloc: Global, database: &mut Database<Global>) -> Option<Refusal> {
    let name = Name::new(alloc, "u").ok()?;
    if database.table(&name).is_some() {
        return None;
    }
    let nowhere = Op {
        table: name,
        cause: Cause::Cascade,
        action: Action::Delete(RowRef::Loose(1)),
    };
    refusal(database.step(&nowhere))
}

#[test]
fn up_to_64_tables(rt: HostRuntime) -> Result<(), Fail> {
    let mut database = with_table(rt.alloc())?;
    let exists = Some(Refusal::TableExists);
    assert!(rt; refusal(create(rt.alloc(), &mut database, "t")) == exists);
    for number in 1..TABLES_MAX {
        assert!(rt; is_created(rt.alloc(), &mut database, number));
    }
    assert!(rt; database.len() == TABLES_MAX);
    assert!(rt; refusal(create(rt.alloc(), &mut database, "t")) == exists);
    assert!(rt; refusal(create(rt.alloc(), &mut database, "u")) == Some(Refusal::TooMany));
    assert!(rt; refused_write(rt.alloc(), &mut database) == Some(Refusal::NoTable));
    Ok(())
}

// Makes the operation, or goes back to a savepoint.
fn operate<A: AllocHandle>(
    txn: &mut Txn<A>,
    op: Op<A>,
    mark: Option<Mark>,
) -> Result<(), Fault<Refusal>> {
    match mark {
        None => txn.op(op),
        Some(mark) => txn.back_to(mark),
    }
}

// Inserts a row, or goes back to a savepoint, with this request for memory refused: whether it is done. Where
// it is not, the transaction is as before. None where anything else comes of it.
fn with_a_request_refused<A: AllocHandle>(
    memory: &Memory<&LocalHeap>,
    txn: &mut Txn<A>,
    (op, mark): (Op<A>, Option<Mark>),
    number: u64,
) -> Option<bool> {
    let before = (txn.trace().len(), txn.footprint().len());
    memory.refuse(number);
    let answer = operate(txn, op, mark);
    memory.refuse(0);
    if memory.has_refused() {
        let is_kept = before == (txn.trace().len(), txn.footprint().len());
        return (is_kept && answer == Err(Fault::OutOfMemory)).then_some(false);
    }
    (answer == Ok(())).then_some(true)
}

// Does the same with each request refused in turn, on one transaction, until it is done: whether there were
// such requests.
fn done_in_refused_memory<A: AllocHandle>(
    alloc: A,
    memory: &Memory<&LocalHeap>,
    txn: &mut Txn<A>,
    mark: Option<Mark>,
) -> Option<bool> {
    for number in 1..1_000u64 {
        let op = insert(alloc, 1, "a text that is stored").ok()?;
        if with_a_request_refused(memory, txn, (op, mark), number)? {
            return Some(number > 1);
        }
    }
    None
}

fn transact<A: AllocHandle>(alloc: A, memory: &Memory<&LocalHeap>) -> Result<bool, Fault<Refusal>> {
    let snapshot = Snapshot::new(1, with_table(alloc)?);
    let mut txn = Txn::begin(alloc, &snapshot)?;
    let mark = txn.savepoint()?;
    let is_made = done_in_refused_memory(alloc, memory, &mut txn, None);
    let is_undone = done_in_refused_memory(alloc, memory, &mut txn, Some(mark));
    let is_done = is_made == Some(true) && is_undone == Some(true);
    Ok(is_done && txn.into_batch().ops().is_empty())
}

// Each request for memory of an operation and of going back is refused in turn. The transaction is as before,
// and the same call made again on it is answered.
#[test]
fn each_allocation_may_be_refused(rt: HostRuntime) -> Result<(), Fail> {
    let heap = LocalHeap::new(rt.alloc(), 32768)?;
    let memory = Memory::new(&heap);
    assert!(rt; transact(&memory, &memory) == Ok(true));
    assert!(rt; heap.used() == 0);
    Ok(())
}

// A hook that counts how often it is shown changes.
#[derive(Drop)]
struct CountingWrites {
    counting: CountingHook,
}

impl WriteHook<Global> for CountingWrites {
    type Refusal = ();

    ghost can_ask = { λ hook. Unit {0} };

    ghost gives = { λ old changes answer new. Unit {0} };

    fn before_write(&mut self, _changes: &[Change<Global>]) -> Result<(), Fault<()>> {
        match self.counting.ask() {
            Ok(()) => Ok(()),
            Err(()) => Err(Fault::Refused(())),
        }
    }
}

// The answer to an operation on a row with a key, which the hook is asked for.
fn step(
    alloc: Global,
    database: &mut Database<Global>,
    does: Does,
    hook: &mut CountingWrites,
) -> Result<Result<(), RefusedAt>, Fault<()>> {
    let Ok(op) = op_of(alloc, does) else {
        return Err(Fault::OutOfMemory);
    };
    database.write(&[op], hook)
}

fn counting(allows: bool) -> CountingWrites {
    CountingWrites {
        counting: CountingHook::new(allows),
    }
}

const HOOKED: &[Does] = &[Does::Insert("a"), Does::SetText("b"), Does::Delete];

// Each operation is tried with a hook that refuses, and then with one that allows it.
#[test]
fn operations_wait_for_the_commit_hook(rt: HostRuntime) -> Result<(), Fail> {
    let mut database = with_table(rt.alloc())?;
    let (mut no, mut yes) = (counting(false), counting(true));
    for does in HOOKED {
        assert!(rt; step(rt.alloc(), &mut database, *does, &mut no) == Err(Fault::Refused(())));
        assert!(rt; step(rt.alloc(), &mut database, *does, &mut yes) == Ok(Ok(())));
    }
    let no_row = Ok(Err(RefusedAt {
        at: 0,
        why: Refusal::NoRow,
    }));
    assert!(rt; step(rt.alloc(), &mut database, Does::Delete, &mut no) == no_row);
    assert!(rt; (no.counting.asked, yes.counting.asked) == (3, 3));
    Ok(())
}
