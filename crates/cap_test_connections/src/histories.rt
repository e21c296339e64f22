//! Several connections to one history.
use crate::captures::{has_changeset, version_of};
use crate::texts::{accepts, answers, opened};
use cap_connection::Connection;
use cap_hub::JoinFault;
use std::alloc::Global;

// SQLite's changeset of two inserted rows, (1,'x') and (2,'y') of the table t, whose first column is its key.
const BOTH: &[u8] = &[
    0x54, 2, 1, 0, b't', 0, 0x12, 0, 1, 0, 0, 0, 0, 0, 0, 0, 1, 3, 1, b'x', 0x12, 0, 1, 0, 0, 0, 0,
    0, 0, 0, 2, 3, 1, b'y',
];

// The version that the connection reads.
fn version(connection: &mut Connection) -> Option<u64> {
    match connection.read() {
        Ok(snapshot) => Some(snapshot.version()),
        Err(_) => None,
    }
}

// Connections until there is no seat for a further one.
fn all_joined(alloc: Global, connection: &Connection) -> Option<(Vec<Connection>, JoinFault)> {
    let mut joined = Vec::new(alloc);
    for _ in 0..100u64 {
        match connection.join(alloc) {
            Ok(other) => joined.push(other).ok()?,
            Err(fault) => return Some((joined, fault)),
        }
    }
    None
}

// Whether a seat that is given back is the next connection's.
fn is_taken_again(alloc: Global, connection: &Connection, joined: Connection) -> bool {
    let number = joined.number();
    if joined.close().is_err() {
        return false;
    }
    match connection.join(alloc) {
        Ok(again) => again.number() == number,
        Err(_) => false,
    }
}

// Two connections to a history in which the first has made these commands.
fn both(alloc: Global, texts: &[&str]) -> Option<(Connection, Connection)> {
    let first = opened(alloc, texts)?;
    match first.join(alloc) {
        Ok(second) => Some((first, second)),
        Err(_) => None,
    }
}

const ROW: &[&str] = &["create t kv", "commit insert t (1,'x')"];

fn read_by_the_other(alloc: Global) -> bool {
    match both(alloc, ROW) {
        Some((first, mut second)) => {
            version(&mut second) == Some(2)
                && answers(&mut second, alloc, "get t key(1)", "row (1,'x')")
                && (first.calls(), second.calls()) == (2, 2)
        }
        None => false,
    }
}

#[test]
fn what_one_commits_the_other_reads(rt: HostRuntime) {
    assert!(rt; read_by_the_other(rt.alloc()));
}

const WATCHED: &[&str] = &[
    "create t kv",
    "session",
    "attach 1 t",
    "commit insert t (2,'y')",
];

fn captured_by_the_other(alloc: Global) -> bool {
    match both(alloc, WATCHED) {
        Some((_first, mut second)) => {
            let is_made = accepts(&mut second, alloc, &["commit insert t (1,'x')"]);
            let captured = second.capture(1);
            is_made && version_of(&captured) == Some(3) && has_changeset(alloc, &captured, BOTH)
        }
        None => false,
    }
}

#[test]
fn a_capture_has_what_both_committed(rt: HostRuntime) {
    assert!(rt; captured_by_the_other(rt.alloc()));
}

// Whether each has seen an event of the third one only once it has asked for it, or met who has seen it.
fn seen_by_three(alloc: Global) -> bool {
    let Some((mut zero, mut first)) = both(alloc, &[]) else {
        return false;
    };
    let Ok(mut second) = first.join(alloc) else {
        return false;
    };
    let is_made = accepts(&mut zero, alloc, &["create t kv"]);
    let is_seen = first.front() == 1 && (first.seen(), second.seen()) == (1, 0);
    second.meet(&first);
    is_made && is_seen && second.seen() == 1
}

#[test]
fn a_connection_sees_what_another_has_seen(rt: HostRuntime) {
    assert!(rt; seen_by_three(rt.alloc()));
}

// Whether 63 connections join before none can, and one whose seat is given back.
fn joins_63(alloc: Global, zero: &Connection) -> bool {
    match all_joined(alloc, zero) {
        Some((mut joined, fault)) => {
            joined.len() == 63
                && fault == JoinFault::TooMany
                && last_is_taken_again(alloc, zero, joined.pop())
        }
        None => false,
    }
}

fn last_is_taken_again(alloc: Global, zero: &Connection, last: Option<Connection>) -> bool {
    match last {
        Some(last) => is_taken_again(alloc, zero, last),
        None => false,
    }
}

fn refuses_the_65th(alloc: Global) -> bool {
    match opened(alloc, &[]) {
        Some(zero) => joins_63(alloc, &zero),
        None => false,
    }
}

#[test]
fn a_65th_connection_is_refused(rt: HostRuntime) {
    assert!(rt; refuses_the_65th(rt.alloc()));
}
