//! Captures of sessions used without a server.
use crate::recorded::{attach, commit, create};
use cap_codec::write_changes;
use cap_core::{can_capture, changes_of};
use cap_database::Database;
use cap_row::Schema;
use cap_session::Session;
use cap_value::Name;
use std::alloc::Global;

// The bytes of the changeset of a session, or none where it is not captured.
fn bytes_of(
    alloc: Global,
    session: &Session<Global>,
    database: &Database<Global>,
) -> Option<Vec<u8>> {
    if !can_capture(session, database) {
        return None;
    }
    let changes = changes_of(alloc, session, database).ok()?;
    write_changes(alloc, &changes).ok()
}

// Whether a session has these bytes.
fn has_bytes(
    alloc: Global,
    session: &Session<Global>,
    database: &Database<Global>,
    expected: &[u8],
) -> bool {
    match bytes_of(alloc, session, database) {
        Some(bytes) => bytes.as_slice() == expected,
        None => false,
    }
}

// Makes an empty table t with these columns.
fn create_with(alloc: Global, database: &mut Database<Global>, flags: &[bool]) -> Option<()> {
    let name = Name::new(alloc, "t").ok()?;
    let schema = Schema::new(alloc, flags).ok()?;
    database.create(name, schema).ok()
}

// Whether a session is captured against an empty table t with these columns.
fn is_captured_against(alloc: Global, session: &Session<Global>, flags: &[bool]) -> Option<bool> {
    let mut database = Database::empty(alloc);
    create_with(alloc, &mut database, flags)?;
    Some(can_capture(session, &database))
}

// The update of (1,'x') to (1,'z'), the delete of (2,'y') and the insert of (3,'w').
const CHANGESET: &[u8] = &[
    0x54, 2, 1, 0, 0x74, 0, 0x17, 0, 1, 0, 0, 0, 0, 0, 0, 0, 1, 3, 1, 0x78, 0, 3, 1, 0x7a, 0x09, 0,
    1, 0, 0, 0, 0, 0, 0, 0, 2, 3, 1, 0x79, 0x12, 0, 1, 0, 0, 0, 0, 0, 0, 0, 3, 3, 1, 0x77,
];

#[test]
fn a_session_is_captured_against_the_later_database(rt: HostRuntime) {
    let alloc = rt.alloc();
    let mut database = Database::empty(alloc);
    let mut session = Session::new(alloc);
    assert!(rt; create(alloc, &mut database, "t"));
    let text = "commit insert t (1,'x') ; insert t (2,'y')";
    assert!(rt; commit(alloc, &mut database, &mut session, text));
    assert!(rt; attach(alloc, &mut session, "t"));
    let text = "commit update t key(1) set 1 = 'z' ; delete t key(2) ; insert t (3,'w')";
    assert!(rt; commit(alloc, &mut database, &mut session, text));
    assert!(rt; has_bytes(alloc, &session, &database, CHANGESET));
}

// A first image is no row of a table that is wider, has another key, or is not there.
#[test]
fn a_session_is_not_captured_against_other_columns(rt: HostRuntime) {
    let alloc = rt.alloc();
    let mut database = Database::empty(alloc);
    let mut session = Session::new(alloc);
    assert!(rt; create(alloc, &mut database, "t"));
    assert!(rt;
        commit(
            alloc,
            &mut database,
            &mut session,
            "commit insert t (1,'x')"
        )
    );
    assert!(rt; attach(alloc, &mut session, "t"));
    assert!(rt; commit(alloc, &mut database, &mut session, "commit delete t key(1)"));
    assert!(rt; is_captured_against(alloc, &session, &[true, false]) == Some(true));
    assert!(rt; is_captured_against(alloc, &session, &[true, false, false]) == Some(false));
    assert!(rt; is_captured_against(alloc, &session, &[true]) == Some(false));
    assert!(rt; is_captured_against(alloc, &session, &[false, true]) == Some(false));
    assert!(rt; is_captured_against(alloc, &session, &[true, true]) == Some(false));
    assert!(rt; !can_capture(&session, &Database::empty(alloc)));
}

// A session without first images is captured against any database. What it saw is no change where the table
// is gone.
#[test]
fn a_session_without_images_is_captured_against_any_database(rt: HostRuntime) {
    let alloc = rt.alloc();
    let mut database = Database::empty(alloc);
    let mut session = Session::new(alloc);
    assert!(rt; create(alloc, &mut database, "t") && attach(alloc, &mut session, "t"));
    assert!(rt;
        commit(
            alloc,
            &mut database,
            &mut session,
            "commit insert t (1,'x')"
        )
    );
    assert!(rt; !session.is_empty());
    let mut other = Database::empty(alloc);
    assert!(rt; has_bytes(alloc, &session, &other, b""));
    assert!(rt; create_with(alloc, &mut other, &[true]) == Some(()));
    assert!(rt; has_bytes(alloc, &session, &other, b""));
}
