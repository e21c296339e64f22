//! A client and a hub that change the same rows: after the hub's changes are applied at the client, and the
//! client's changes, rebased, at the hub, both have the same rows.
use cap_apply::{Answer, Applied, Policy, apply};
use cap_changes::ChangeList;
use cap_codec::{Contents, read_blob};
use cap_database::Database;
use cap_rebase::{Rebaser, buffer_of};
use cap_row::Schema;
use cap_value::Name;
use std::alloc::Global;
use std::test::*;

// Rows of three columns under 1 to 7: (a, b) in each.
const BASE: &str =
    "54030100007400120001000000000000000103016103016212000100000000000000020301610301621200010000\
    00000000000303016103016212000100000000000000040301610301621200010000000000000005030161030162\
    12000100000000000000060301610301621200010000000000000007030161030162";

// The client sets columns of rows 1, 2, 3 and 7, deletes rows 4 and 5, and inserts rows 8 and 9.
const LOCAL: &str =
    "54030100007400170001000000000000000103016100000301780017000100000000000000020301610301620003\
    01780301791700010000000000000003030161000003017800090001000000000000000403016103016209000100\
    00000000000005030161030162170001000000000000000703016100000301780012000100000000000000080301\
    6e030171120001000000000000000903016c03016c";

// The hub sets columns of rows 1, 2, 4, 6 and 7, deletes rows 3 and 5, and inserts rows 8 and 10.
const REMOTE: &str =
    "5403010000740017000100000000000000010301610301620003017903017a170001000000000000000203016100\
    00030172000900010000000000000003030161030162170001000000000000000403016100000301790009000100\
    00000000000005030161030162170001000000000000000603016100000301730017000100000000000000070003\
    0162000003017a120001000000000000000803016d030171120001000000000000000a03016b03016b";

const ABORT: Policy = Policy {
    on_data: Answer::Abort,
    on_notfound: Answer::Abort,
    on_conflict: Answer::Abort,
};

// Conflicts are omitted, but that those with a row have this answer.
fn policy(answer: Answer) -> Policy {
    Policy {
        on_data: answer,
        on_notfound: Answer::Omit,
        on_conflict: answer,
    }
}

fn contents(alloc: Global, digits: &str) -> Option<Contents<Global>> {
    let bytes = hex::decode(alloc, digits).ok()?;
    read_blob(alloc, bytes.as_slice()).ok()
}

fn changes(alloc: Global, digits: &str) -> Option<ChangeList<Global>> {
    match contents(alloc, digits)? {
        Contents::Changes(list) => Some(list),
        Contents::Patches(_) => None,
    }
}

// A database with an empty table t.
fn empty(alloc: Global) -> Option<Database<Global>> {
    let mut database = Database::empty(alloc);
    let name = Name::new(alloc, "t").ok()?;
    let schema = Schema::new(alloc, &[true, false, false]).ok()?;
    match database.create(name, schema) {
        Ok(()) => Some(database),
        Err(_) => None,
    }
}

// The database after these changes, all of which are made without a conflict.
fn after(alloc: Global, database: &Database<Global>, digits: &str) -> Option<Database<Global>> {
    let applied = apply(alloc, database, &contents(alloc, digits)?, ABORT).ok()?;
    let (database, _, _) = applied.into_parts();
    Some(database)
}

// The local changes over the buffer of an application of the remote ones.
fn rebased(alloc: Global, applied: &Applied<Global>) -> Option<ChangeList<Global>> {
    let buffer = buffer_of(
        alloc,
        &changes(alloc, REMOTE)?,
        applied.report().conflicts(),
    )
    .ok()?;
    let mut rebaser = Rebaser::new(alloc);
    if rebaser.configure(buffer).is_err() {
        return None;
    }
    rebaser.rebase(&changes(alloc, LOCAL)?).ok()
}

// Whether both tables have the same rows.
fn have_the_same_rows(alloc: Global, left: &Database<Global>, right: &Database<Global>) -> bool {
    let Ok(name) = Name::new(alloc, "t") else {
        return false;
    };
    let (Ok(left), Ok(mut others)) = (left.scan(&name), right.scan(&name)) else {
        return false;
    };
    if left.left() != others.left() {
        return false;
    }
    for (_, row) in left {
        match others.next() {
            Some((_, other)) if row.same(other) => {}
            _ => return false,
        }
    }
    true
}

// Whether client and hub have the same rows in the end, where the conflicts have this answer, and how many
// conflicts there are.
fn synchronise(alloc: Global, answer: Answer) -> Option<(bool, usize)> {
    let base = after(alloc, &empty(alloc)?, BASE)?;
    let client = after(alloc, &base, LOCAL)?;
    let hub = after(alloc, &base, REMOTE)?;
    let applied = apply(alloc, &client, &contents(alloc, REMOTE)?, policy(answer)).ok()?;
    let local = Contents::Changes(rebased(alloc, &applied)?);
    let made = apply(alloc, &hub, &local, ABORT).ok()?;
    let same = have_the_same_rows(alloc, applied.database(), made.database());
    Some((same, applied.report().conflicts().len()))
}

#[test]
fn client_and_hub_have_the_same_rows(rt: HostRuntime) -> Result<(), Fail> {
    assert!(rt; synchronise(rt.alloc(), Answer::Omit) == Some((true, 6)));
    assert!(rt; synchronise(rt.alloc(), Answer::Replace) == Some((true, 6)));
    Ok(())
}
