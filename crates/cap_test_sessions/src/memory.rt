//! The calls of a session that take memory, with each request refused in turn.
use crate::recorded::{attach, commit, create};
use cap_compare::{Difference, compare};
use cap_core::Command;
use cap_database::{Database, Outcome, run_ops};
use cap_script::parse;
use cap_session::Session;
use cap_test_support::Memory;
use cap_value::{AllocHandle, Name, OutOfMemory};
use linked_list_allocator::LocalHeap;
use std::test::Fail;

// The calls of a session that take memory.
#[derive(Clone, Copy, Drop)]
enum Call {
    Attach,
    Commit,
    Diff,
    Copy,
}

// Each with the number of tables that are attached afterwards, and of images that are held. Before it nine
// tables are attached and one image held.
const CALLS: &[(Call, usize, u128)] = &[
    (Call::Attach, 10, 1),
    (Call::Commit, 10, 4),
    (Call::Diff, 10, 3),
    (Call::Copy, 9, 1),
];

// The tables that are attached, t among them. A copy of the session has no room for another one.
const ATTACHED: &[&str] = &["t", "a", "b", "c", "d", "e", "f", "g", "h"];

// What they are made with: a table, and what a commit made of a database that changes one row of t and two of
// u.
#[derive(Drop)]
struct Arguments<A: AllocHandle> {
    name: Name<A>,
    outcome: Outcome<A>,
    differences: Vec<Difference<A>, A>,
}

fn made_call<A: AllocHandle>(
    session: &mut Session<A>,
    call: Call,
    given: &Arguments<A>,
) -> Result<(), OutOfMemory> {
    match call {
        Call::Attach => session.attach(&given.name),
        Call::Commit => session.record_commit(given.outcome.changes()),
        Call::Diff => session.record_diff(&given.name, given.differences.as_slice()),
        Call::Copy => {
            *session = session.copy()?;
            Ok(())
        }
    }
}

// What a commit makes of the database.
fn outcome<A: AllocHandle>(alloc: A, before: &Database<A>, text: &str) -> Option<Outcome<A>> {
    let parsed = parse(alloc, text).ok()?;
    match &parsed.lines.first()?.command {
        Command::Commit(batch) => run_ops(alloc, before, batch.ops()).ok(),
        _ => None,
    }
}

// How a table differs in two databases.
fn differences<A: AllocHandle>(
    alloc: A,
    from: &Database<A>,
    to: &Database<A>,
    name: &Name<A>,
) -> Option<Vec<Difference<A>, A>> {
    compare(alloc, from.table(name), to.table(name)?).ok()
}

fn given<A: AllocHandle>(alloc: A, before: &Database<A>) -> Option<Arguments<A>> {
    let text = "commit insert t (2,'x') ; insert u (1,'x') ; insert u (2,'y')";
    let outcome = outcome(alloc, before, text)?;
    let name = Name::new(alloc, "u").ok()?;
    let differences = differences(alloc, before, outcome.database(), &name)?;
    Some(Arguments {
        name,
        outcome,
        differences,
    })
}

// Makes the tables t and u, and lets the session attach t, of which it has one image, and the others.
fn prepare<A: AllocHandle>(alloc: A, database: &mut Database<A>, session: &mut Session<A>) -> bool {
    if !create(alloc, database, "t") || !create(alloc, database, "u") {
        return false;
    }
    for name in ATTACHED {
        if !attach(alloc, session, *name) {
            return false;
        }
    }
    session.attach_all();
    commit(alloc, database, session, "commit insert t (1,'x')")
}

fn held<A: AllocHandle>(session: &Session<A>) -> (usize, u128) {
    (session.attached().count(), session.stored())
}

// Makes a call on a copy of the session, with this request for memory refused: whether it is made. Where it
// is not, the copy is as before, and the same call is made on it again. None where anything else comes of it.
fn with_a_request_refused<A: AllocHandle>(
    memory: &Memory<&LocalHeap>,
    session: &Session<A>,
    (call, tables, images): (Call, usize, u128),
    given: &Arguments<A>,
    number: u64,
) -> Option<bool> {
    let mut copy = session.copy().ok()?;
    memory.refuse(number);
    let is_made = made_call(&mut copy, call, given).is_ok();
    memory.refuse(0);
    let is_kept = is_made || held(&copy) == (9, 1);
    let is_made_then = is_made || made_call(&mut copy, call, given).is_ok();
    let is_right = is_made != memory.has_refused() && is_kept && is_made_then;
    (is_right && held(&copy) == (tables, images)).then_some(is_made)
}

// The number of the first request that is refused without a fault, since the call makes fewer; 0 where
// anything else comes of a request.
fn first_unused_request<A: AllocHandle>(
    memory: &Memory<&LocalHeap>,
    session: &Session<A>,
    call: (Call, usize, u128),
    given: &Arguments<A>,
) -> u64 {
    for number in 1..1_000u64 {
        match with_a_request_refused(memory, session, call, given, number) {
            Some(true) => return number,
            Some(false) => {}
            None => return 0,
        }
    }
    0
}

// Whether each call, with each of its requests refused in turn, leaves the session as it was, and is answered
// when it is made again.
fn each_call_may_be_refused<A: AllocHandle>(alloc: A, memory: &Memory<&LocalHeap>) -> bool {
    let mut database = Database::empty(alloc);
    let mut session = Session::new(alloc);
    if !prepare(alloc, &mut database, &mut session) {
        return false;
    }
    let Some(given) = given(alloc, &database) else {
        return false;
    };
    for call in CALLS {
        if first_unused_request(memory, &session, *call, &given) <= 1 {
            return false;
        }
    }
    true
}

// Each request of each call is refused in turn. The session is as before, and the same call made again is
// answered.
#[test]
fn each_request_of_a_call_is_refused_in_turn(rt: HostRuntime) -> Result<(), Fail> {
    let heap = LocalHeap::new(rt.alloc(), 32768)?;
    let memory = Memory::new(&heap);
    assert!(rt; each_call_may_be_refused(&memory, &memory));
    assert!(rt; heap.used() == 0);
    Ok(())
}
