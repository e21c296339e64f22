//! Changesets that other threads apply.
ghost use Rattle.std.specs.Prelude.{◌≡◌};

use crate::seats::{changed, have_same_rows, is_answered, snapshot};
use cap_apply::{Answer, Applied, Policy, apply};
use cap_codec::read_blob;
use cap_core::{Command, QuietSessions, Reply};
use cap_database::{Database, Snapshot};
use cap_history::Opened;
use cap_server::{Naming, Seat, Server};
use std::alloc::Global;
use std::marker::Brand;
use std::sync::Wait;
use std::thread;
use std::thread::Threads;

// The number of replicas, each of which has a thread.
const REPLICAS: u8 = 4;

const OMIT: Policy = Policy {
    on_data: Answer::Omit,
    on_notfound: Answer::Omit,
    on_conflict: Answer::Omit,
};

const REPLACE: Policy = Policy {
    on_data: Answer::Replace,
    on_notfound: Answer::Omit,
    on_conflict: Answer::Replace,
};

// The bytes of the changeset that a reply has.
fn bytes_in(alloc: Global, reply: &Reply<Global>) -> Option<Vec<u8>> {
    match reply {
        Reply::Capture(capture) => capture.changeset(alloc).ok(),
        _ => None,
    }
}

// The bytes of the changeset of session 1.
fn changeset<J: Naming>(
    rt: &impl Wait,
    alloc: Global,
    server: &Server<J, Global>,
    seat: &mut Seat<J, Global>,
) -> Option<Vec<u8>> {
    match server.call(rt, seat, &Command::capture(1)) {
        Ok(reply) => bytes_in(alloc, &reply),
        Err(_) => None,
    }
}

// A replica, and the bytes of the changeset that its thread applies to it.
#[derive(Drop)]
struct ReplicaJob<'j> {
    alloc: Global,
    replica: Snapshot<Global>,
    changeset: &'j [u8],
}

fn apply_to_replica(job: ReplicaJob<'_>) -> Option<Applied<Global>> {
    let ReplicaJob {
        alloc,
        replica,
        changeset,
    } = job;
    let blob = read_blob(alloc, changeset).ok()?;
    apply(alloc, replica.database(), &blob, OMIT).ok()
}

// Each thread applies the changeset to a replica of its own, which shares its rows with the others.
fn apply_to_replicas<R: Threads + Sync>(
    rt: &R,
    alloc: Global,
    tables: &Snapshot<Global>,
    changeset: &[u8],
) -> Option<Vec<Option<Applied<Global>>>> {
    let mut jobs = Vec::new(alloc);
    for _ in 0..REPLICAS {
        jobs.push(ReplicaJob {
            alloc,
            replica: tables.copy().ok()?,
            changeset,
        })
        .ok()?;
    }
    thread::map_vec(rt, jobs, &|job| apply_to_replica(job)).ok()
}

// Whether all three changes were applied to a replica, which then has the rows of the other database.
fn is_applied(alloc: Global, left: Option<&Applied<Global>>, now: &Database<Global>) -> bool {
    match left {
        Some(left) => {
            let report = left.report();
            let is_whole = report.applied() == 3 && report.conflicts().is_empty();
            is_whole && have_same_rows(alloc, left.database(), now)
        }
        None => false,
    }
}

// Whether the changes were applied to each replica.
fn are_applied(alloc: Global, worked: &[Option<Applied<Global>>], now: &Database<Global>) -> bool {
    for left in worked {
        if !is_applied(alloc, left.as_ref(), now) {
            return false;
        }
    }
    worked.len() == usize::from(REPLICAS)
}

// What each thread applied is looked at on this one.
fn apply_three_changes<J: Naming, R: Threads + Wait + Sync>(
    rt: &R,
    alloc: Global,
    server: &Server<J, Global>,
    seat: &mut Seat<J, Global>,
) -> Option<bool> {
    let (before, after) = changed(rt, alloc, server, seat)?;
    let changeset = changeset(rt, alloc, server, seat)?;
    let worked = apply_to_replicas(rt, alloc, &before, changeset.as_slice())?;
    Some(are_applied(alloc, worked.as_slice(), after.database()))
}

fn applied_to_replicas<J: Naming + Send + Sync, R: Threads + Wait + Sync>(
    rt: &R,
    opened: Opened<Global>,
    alloc: Global,
) -> Option<bool>
    requires history { opened.seen.book ≡ J.book }
    requires seats { J.seats ≡ 1 }
{
    let (server, mut seats) = Server::<J, Global>::open(opened, alloc, 1).ok()?;
    let mut seat = seats.pop()?;
    apply_three_changes(rt, alloc, &server, &mut seat)
}

// A seat, and what its thread needs to apply the changeset through it.
#[derive(Drop)]
struct SeatJob<'j, J: Naming, R: Wait> {
    rt: &'j R,
    alloc: Global,
    server: &'j Server<J, Global>,
    seat: Seat<J, Global>,
    changeset: &'j [u8],
}

fn apply_through_seat<J: Naming, R: Wait>(
    job: SeatJob<'_, J, R>,
) -> Option<(Seat<J, Global>, Reply<Global>)> {
    let SeatJob {
        rt,
        alloc,
        server,
        mut seat,
        changeset,
    } = job;
    let blob = read_blob(alloc, changeset).ok()?;
    let command = Command::Apply {
        blob,
        policy: REPLACE,
        quiet: QuietSessions::none(alloc),
    };
    let reply = server.call(rt, &mut seat, &command).ok()?;
    Some((seat, reply))
}

// Each seat's thread applies the changeset to the server.
fn apply_through_seats<J: Naming + Send + Sync, R: Threads + Wait + Sync>(
    rt: &R,
    alloc: Global,
    server: &Server<J, Global>,
    seats: Vec<Seat<J, Global>>,
    changeset: &[u8],
) -> Option<Vec<Option<(Seat<J, Global>, Reply<Global>)>>> {
    let mut jobs = Vec::new(alloc);
    for seat in seats {
        jobs.push(SeatJob {
            rt,
            alloc,
            server,
            seat,
            changeset,
        })
        .ok()?;
    }
    thread::map_vec(rt, jobs, &|job| apply_through_seat(job)).ok()
}

// The version, and the number of conflicts, where both changes were applied.
fn outcome(reply: &Reply<Global>) -> Option<(u64, usize)> {
    match reply {
        Reply::Applied { version, report } if report.applied() == 2 => {
            Some((*version, report.conflicts().len()))
        }
        _ => None,
    }
}

// The sum of the versions, and the number of conflicts.
fn totals<J: Naming>(worked: &[Option<(Seat<J, Global>, Reply<Global>)>]) -> Option<(u64, usize)> {
    let mut versions = 0u64;
    let mut conflicts = 0usize;
    for brought in worked {
        let (_seat, reply) = brought.as_ref()?;
        let (version, count) = outcome(reply)?;
        versions = versions.checked_add(version)?;
        conflicts = conflicts.checked_add(count)?;
    }
    Some((versions, conflicts))
}

// Two inserts that session 1 sees, and the replies.
const INSERTS: (&str, &str) = (
    "create t kv\nsession\nattach 1 t\ncommit insert t (1,'x') ; insert t (2,'y')",
    "ok version 1\nsession 1\nok\nok version 2\n",
);

// Their deletes, and the replies.
const DELETES: (&str, &str) = ("commit delete t key(1) ; delete t key(2)", "ok version 3\n");

// The tables with two rows that session 1 has seen inserted, and the bytes of their changeset, once the rows are
// deleted again.
fn inserted<J: Naming>(
    rt: &impl Wait,
    alloc: Global,
    server: &Server<J, Global>,
    seat: &mut Seat<J, Global>,
) -> Option<(Snapshot<Global>, Vec<u8>)> {
    if !is_answered(rt, alloc, server, seat, INSERTS) {
        return None;
    }
    let tables = snapshot(rt, server, seat)?;
    let changeset = changeset(rt, alloc, server, seat)?;
    if is_answered(rt, alloc, server, seat, DELETES) {
        Some((tables, changeset))
    } else {
        None
    }
}

// Whether the tables have these rows now.
fn has_rows<J: Naming>(
    rt: &impl Wait,
    alloc: Global,
    server: &Server<J, Global>,
    seat: &mut Seat<J, Global>,
    tables: &Snapshot<Global>,
) -> bool {
    match snapshot(rt, server, seat) {
        Some(now) => have_same_rows(alloc, now.database(), tables.database()),
        None => false,
    }
}

// The first thread that applies the changeset finds no rows, and each later one the rows of those before it.
fn apply_two_inserts<J: Naming + Send + Sync, R: Threads + Wait + Sync>(
    rt: &R,
    alloc: Global,
    server: &Server<J, Global>,
    last: &mut Seat<J, Global>,
    seats: Vec<Seat<J, Global>>,
) -> Option<bool> {
    let (tables, changeset) = inserted(rt, alloc, server, last)?;
    let worked = apply_through_seats(rt, alloc, server, seats, changeset.as_slice())?;
    let is_right = worked.len() == 3 && totals(worked.as_slice()) == Some((4 + 5 + 6, 2 + 2));
    Some(is_right && has_rows(rt, alloc, server, last, &tables))
}

fn applied_through_seats<J: Naming + Send + Sync, R: Threads + Wait + Sync>(
    rt: &R,
    opened: Opened<Global>,
    alloc: Global,
) -> Option<bool>
    requires history { opened.seen.book ≡ J.book }
    requires seats { J.seats ≡ 4 }
{
    let (server, mut seats) = Server::<J, Global>::open(opened, alloc, 4).ok()?;
    let mut last = seats.pop()?;
    apply_two_inserts(rt, alloc, &server, &mut last, seats)
}

#[test]
fn what_is_applied_travels_between_threads(rt: HostRuntime) {
    let applied = applied_to_replicas::<Brand, _>(&rt, Opened::new(), rt.alloc());
    assert!(rt; applied == Some(true));
}

#[test]
fn replies_to_an_apply_travel_between_threads(rt: HostRuntime) {
    let applied = applied_through_seats::<Brand, _>(&rt, Opened::new(), rt.alloc());
    assert!(rt; applied == Some(true));
}
