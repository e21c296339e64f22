//! Servers that threads share.
ghost use Rattle.std.specs.Prelude.{◌≡◌};

use crate::seats::{is_answered, line_of};
use cap_core::{Command, Core, EVENTS_MAX, Reply};
use cap_database::Snapshot;
use cap_history::Opened;
use cap_server::{CloseFault, Naming, Seat, Server};
use cap_value::Name;
use std::alloc::Global;
use std::marker::Brand;
use std::process::Abort;
use std::sync::Wait;
use std::thread;
use std::thread::Threads;

// Three seats, of which the first makes a table, the others commit, and the second reads its own row.
fn call_from_three<J: Naming, R: Wait + Abort>(
    rt: &R,
    alloc: Global,
    server: &Server<J, Global>,
    zero: &mut Seat<J, Global>,
    first: &mut Seat<J, Global>,
    second: &mut Seat<J, Global>,
) {
    let rows = ("create t kv", "ok version 1\n");
    assert!(rt; is_answered(rt, alloc, server, zero, rows));
    let rows = ("commit insert t (1,'x')", "ok version 2\n");
    assert!(rt; is_answered(rt, alloc, server, first, rows));
    let rows = ("commit insert t (2,'y')", "ok version 3\n");
    assert!(rt; is_answered(rt, alloc, server, second, rows));
    let rows = ("get t key(1)", "row (1,'x')\n");
    assert!(rt; is_answered(rt, alloc, server, first, rows));
    assert!(rt; (first.seen(), second.seen()) == (4, 3));
    server.meet(first, second);
    assert!(rt; (zero.seen(), second.seen()) == (1, 4));
    assert!(rt; server.front(zero) == 4);
    assert!(rt; (zero.calls(), first.calls(), second.calls()) == (1, 2, 1));
}

// The seats then stand in another order.
fn call_from_each<J: Naming, R: Wait + Abort>(
    rt: &R,
    alloc: Global,
    server: &Server<J, Global>,
    seats: &mut Vec<Seat<J, Global>>,
) -> Option<()> {
    let mut second = seats.pop()?;
    let mut first = seats.pop()?;
    let mut zero = seats.pop()?;
    call_from_three(rt, alloc, server, &mut zero, &mut first, &mut second);
    seats.push(first).ok()?;
    seats.push(zero).ok()?;
    seats.push(second).ok()
}

// How many events are left, and how many rows.
fn three_seats<J: Naming + Send + Sync, R: Wait + Abort>(
    rt: &R,
    opened: Opened<Global>,
    alloc: Global,
) -> Option<(u64, u128)>
    requires history { opened.seen.book ≡ J.book }
    requires seats { J.seats ≡ 3 }
{
    let (server, mut seats) = Server::<J, Global>::open(opened, alloc, 3).ok()?;
    call_from_each(rt, alloc, &server, &mut seats)?;
    closed(alloc, server, seats)
}

// A seat, and what its thread needs to call from it.
#[derive(Drop)]
struct Job<'j, J: Naming, R: Wait> {
    rt: &'j R,
    alloc: Global,
    server: &'j Server<J, Global>,
    seat: Seat<J, Global>,
}

// One commit of a seat, which inserts a row with this key.
fn is_committed<J: Naming>(
    rt: &impl Wait,
    alloc: Global,
    server: &Server<J, Global>,
    seat: &mut Seat<J, Global>,
    key: u64,
) -> bool {
    let Ok(text) = format!(in alloc; "commit insert t ({key},'x')") else {
        return false;
    };
    match line_of(alloc, text.as_str()) {
        Some(line) => is_written(rt, server, seat, &line.command),
        None => false,
    }
}

// Whether a command's reply is a new version.
fn is_written<J: Naming>(
    rt: &impl Wait,
    server: &Server<J, Global>,
    seat: &mut Seat<J, Global>,
    command: &Command<Global>,
) -> bool {
    match server.call(rt, seat, command) {
        Ok(reply) => matches!(&reply, Reply::Written { .. }),
        Err(_) => false,
    }
}

// One hundred commits of a seat, each of one insert with a key of its own.
fn commits<J: Naming, R: Wait>(job: Job<'_, J, R>) -> Option<Seat<J, Global>> {
    let Job {
        rt,
        alloc,
        server,
        mut seat,
    } = job;
    let first = seat.number().checked_mul(1000)?;
    for i in 0..100u64 {
        let key = first.checked_add(i)?;
        if !is_committed(rt, alloc, server, &mut seat, key) {
            return None;
        }
    }
    Some(seat)
}

// The number of rows of `t` in the core that a closed server left.
fn rows_left(alloc: Global, core: &Core<Global>) -> Option<u128> {
    if core.events() >= EVENTS_MAX {
        return None;
    }
    let (_core, reply) = core.prepare(&Command::Read).ok()?;
    match &reply {
        Reply::Snapshot(snapshot) => rows_of(alloc, snapshot),
        _ => None,
    }
}

fn rows_of(alloc: Global, snapshot: &Snapshot<Global>) -> Option<u128> {
    let name = Name::new(alloc, "t").ok()?;
    match snapshot.scan(&name) {
        Ok(scan) => Some(scan.left()),
        Err(_) => None,
    }
}

// Each seat's thread makes its commits.
fn commit_together<J: Naming + Send + Sync, R: Threads + Wait + Sync>(
    rt: &R,
    alloc: Global,
    server: &Server<J, Global>,
    seats: Vec<Seat<J, Global>>,
) -> Option<Vec<Option<Seat<J, Global>>>> {
    let mut jobs = Vec::new(alloc);
    for seat in seats {
        jobs.push(Job {
            rt,
            alloc,
            server,
            seat,
        })
        .ok()?;
    }
    thread::map_vec(rt, jobs, &|job| commits(job)).ok()
}

// The seats that came back, each with its 100 calls, behind the first one.
fn handed_back<J: Naming>(
    alloc: Global,
    zero: Seat<J, Global>,
    worked: Vec<Option<Seat<J, Global>>>,
) -> Option<Vec<Seat<J, Global>>> {
    let mut back = Vec::new(alloc);
    back.push(zero).ok()?;
    for seat in worked {
        let seat = seat?;
        if seat.calls() != 100 {
            return None;
        }
        back.push(seat).ok()?;
    }
    Some(back)
}

// How many events a closed server leaves, and how many rows.
fn closed<J: Naming>(
    alloc: Global,
    server: Server<J, Global>,
    seats: Vec<Seat<J, Global>>,
) -> Option<(u64, u128)> {
    match server.close(seats) {
        Ok(closed) => Some((closed.events, rows_left(alloc, &closed.core)?)),
        Err(_) => None,
    }
}

// The first of the seats makes a table, and then the others commit.
fn carried_out<J: Naming + Send + Sync, R: Threads + Wait + Sync>(
    rt: &R,
    alloc: Global,
    server: &Server<J, Global>,
    mut seats: Vec<Seat<J, Global>>,
) -> Option<Vec<Seat<J, Global>>> {
    if seats.len() != 5 {
        return None;
    }
    let mut zero = seats.remove(0);
    let rows = ("create t kv", "ok version 1\n");
    if !is_answered(rt, alloc, server, &mut zero, rows) {
        return None;
    }
    let worked = commit_together(rt, alloc, server, seats)?;
    handed_back(alloc, zero, worked)
}

// Four threads with 100 commits each, after a table was made: how many events are left, and how many rows.
fn four_threads<J: Naming + Send + Sync, R: Threads + Wait + Sync>(
    rt: &R,
    opened: Opened<Global>,
    alloc: Global,
) -> Option<(u64, u128)>
    requires history { opened.seen.book ≡ J.book }
    requires seats { J.seats ≡ 5 }
{
    let (server, seats) = Server::<J, Global>::open(opened, alloc, 5).ok()?;
    let back = carried_out(rt, alloc, &server, seats)?;
    closed(alloc, server, back)
}

// Hands these seats alone to a server, which is not closed without the seat of this number.
fn missed<J: Naming>(
    server: Server<J, Global>,
    seats: Vec<Seat<J, Global>>,
    missing: u64,
) -> Option<(Server<J, Global>, Vec<Seat<J, Global>>)> {
    let Err(refused) = server.close(seats) else {
        return None;
    };
    let (server, seats, fault) = refused;
    if fault == (CloseFault::MissingSeat { number: missing }) {
        Some((server, seats))
    } else {
        None
    }
}

// How many events are left where two of five seats are kept back at first.
fn close_twice<J: Naming>(
    server: Server<J, Global>,
    mut seats: Vec<Seat<J, Global>>,
) -> Option<u64> {
    if seats.len() != 5 {
        return None;
    }
    let third = seats.remove(3);
    let first = seats.remove(1);
    let (server, mut seats) = missed(server, seats, 1)?;
    if seats.len() != 3 {
        return None;
    }
    seats.push(third).ok()?;
    seats.push(first).ok()?;
    match server.close(seats) {
        Ok(closed) => Some(closed.events),
        Err(_) => None,
    }
}

fn missing_seats<J: Naming + Send + Sync>(opened: Opened<Global>, alloc: Global) -> Option<u64>
    requires history { opened.seen.book ≡ J.book }
    requires seats { J.seats ≡ 5 }
{
    match Server::<J, Global>::open(opened, alloc, 5) {
        Ok((server, seats)) => close_twice(server, seats),
        Err(_) => None,
    }
}

#[test]
fn a_seat_reads_its_own_commit(rt: HostRuntime) {
    let left = three_seats::<Brand, _>(&rt, Opened::new(), rt.alloc());
    assert!(rt; left == Some((4, 2)));
}

#[test]
fn four_threads_commit(rt: HostRuntime) {
    let left = four_threads::<Brand, _>(&rt, Opened::new(), rt.alloc());
    assert!(rt; left == Some((401, 400)));
}

#[test]
fn a_server_is_not_closed_without_its_seats(rt: HostRuntime) {
    let left = missing_seats::<Brand>(Opened::new(), rt.alloc());
    assert!(rt; left == Some(0));
}
