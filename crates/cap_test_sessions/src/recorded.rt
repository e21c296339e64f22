//! What the tests of sessions share: tables, and commits that a session records.
use cap_core::Command;
use cap_database::{Database, Op, run_ops};
use cap_row::Schema;
use cap_script::{Line, parse};
use cap_session::Session;
use cap_value::{AllocHandle, Name};

// Makes an empty table of a key and a value, and answers whether there was memory for it.
pub(crate) fn create<A: AllocHandle>(alloc: A, database: &mut Database<A>, name: &str) -> bool {
    let Ok(name) = Name::new(alloc, name) else {
        return false;
    };
    match Schema::new(alloc, &[true, false]) {
        Ok(schema) => database.create(name, schema).is_ok(),
        Err(_) => false,
    }
}

pub(crate) fn attach<A: AllocHandle>(alloc: A, session: &mut Session<A>, name: &str) -> bool {
    match Name::new(alloc, name) {
        Ok(name) => session.attach(&name).is_ok(),
        Err(_) => false,
    }
}

// Commits operations, which a session records.
fn commit_ops<A: AllocHandle>(
    alloc: A,
    database: &mut Database<A>,
    session: &mut Session<A>,
    ops: &[Op<A>],
) -> bool {
    let Ok(outcome) = run_ops(alloc, database, ops) else {
        return false;
    };
    if session.record_commit(outcome.changes()).is_err() {
        return false;
    }
    let (after, _) = outcome.into_parts();
    *database = after;
    true
}

// Makes the commits of these lines.
pub(crate) fn commit_lines<A: AllocHandle>(
    alloc: A,
    database: &mut Database<A>,
    session: &mut Session<A>,
    lines: &[Line<A>],
) -> bool {
    for line in lines {
        let is_made = match &line.command {
            Command::Commit(batch) => commit_ops(alloc, database, session, batch.ops()),
            _ => false,
        };
        if !is_made {
            return false;
        }
    }
    true
}

// Makes the commits of a workload.
pub(crate) fn commit<A: AllocHandle>(
    alloc: A,
    database: &mut Database<A>,
    session: &mut Session<A>,
    text: &str,
) -> bool {
    match parse(alloc, text) {
        Ok(workload) => commit_lines(alloc, database, session, &workload.lines),
        Err(_) => false,
    }
}
