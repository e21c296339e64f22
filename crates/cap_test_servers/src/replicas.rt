//! A replica that captures keep up to date.
ghost use Rattle.std.specs.Prelude.{◌≡◌};

use crate::seats::{changed, have_same_rows};
use cap_apply::{Answer, Policy};
use cap_database::Database;
use cap_history::Opened;
use cap_server::{Naming, Seat, Server};
use cap_test_replicas::{Form, NotReplicated, replicate};
use std::alloc::Global;
use std::marker::Brand;
use std::process::Abort;
use std::sync::Wait;

const OMIT: Policy = Policy {
    on_data: Answer::Omit,
    on_notfound: Answer::Omit,
    on_conflict: Answer::Abort,
};

// What is replicated: the number of changes where all were applied without a conflict, and the replica then has
// the rows of the other database, or else why there is no replica.
fn replicated<J: Naming>(
    rt: &impl Wait,
    alloc: Global,
    server: &Server<J, Global>,
    seat: &mut Seat<J, Global>,
    (session, form): (u64, Form),
    (replica, now): (&Database<Global>, &Database<Global>),
) -> Result<u64, NotReplicated> {
    let left = replicate(rt, alloc, server, seat, session, form, OMIT, replica)?;
    let is_whole = left.report().conflicts().is_empty();
    if is_whole && have_same_rows(alloc, left.database(), now) {
        Ok(left.report().applied())
    } else {
        Ok(0)
    }
}

// The replica holds the first images, and has then the rows of the server. There is no second session; and
// where the changes were made before they meet a conflict.
fn replicate_thrice<J: Naming, R: Wait + Abort>(
    rt: &R,
    alloc: Global,
    server: &Server<J, Global>,
    seat: &mut Seat<J, Global>,
    form: Form,
    (before, after): (&Database<Global>, &Database<Global>),
) {
    let made = replicated(rt, alloc, server, seat, (1, form), (before, after));
    assert!(rt; made == Ok(3));
    let missing = replicated(rt, alloc, server, seat, (2, form), (before, after));
    assert!(rt; missing == Err(NotReplicated::NoCapture));
    let twice = replicated(rt, alloc, server, seat, (1, form), (after, after));
    assert!(rt; matches!(twice, Err(NotReplicated::NotApplied(_))));
}

// The same from the tables before the changes and behind them.
fn replicate_changes<J: Naming, R: Wait + Abort>(
    rt: &R,
    alloc: Global,
    server: &Server<J, Global>,
    seat: &mut Seat<J, Global>,
    form: Form,
) -> Option<()> {
    let (before, after) = changed(rt, alloc, server, seat)?;
    let both = (before.database(), after.database());
    replicate_thrice(rt, alloc, server, seat, form, both);
    Some(())
}

fn replicated_in<J: Naming + Send + Sync, R: Wait + Abort>(
    rt: &R,
    opened: Opened<Global>,
    alloc: Global,
    form: Form,
) -> Option<()>
    requires history { opened.seen.book ≡ J.book }
    requires seats { J.seats ≡ 1 }
{
    let (server, mut seats) = Server::<J, Global>::open(opened, alloc, 1).ok()?;
    let mut seat = seats.pop()?;
    replicate_changes(rt, alloc, &server, &mut seat, form)
}

#[test]
fn a_replica_has_the_rows_of_the_server(rt: HostRuntime) {
    let (changeset, patchset) = (Form::Changeset, Form::Patchset);
    let replicated = replicated_in::<Brand, _>(&rt, Opened::new(), rt.alloc(), changeset);
    assert!(rt; replicated == Some(()));
    let replicated = replicated_in::<Brand, _>(&rt, Opened::new(), rt.alloc(), patchset);
    assert!(rt; replicated == Some(()));
}
