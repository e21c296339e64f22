//! Sessions that record commits and diffs.
use crate::recorded::{attach, commit, commit_lines, create};
use cap_compare::compare;
use cap_database::Database;
use cap_field::ValueRef;
use cap_row::Row;
use cap_script::{Show, parse};
use cap_session::{Record, Session};
use cap_table::RowRef;
use cap_value::Name;
use std::alloc::Global;
use std::test::Fail;

// The number and the text that are the fields of a row.
fn fields(row: &Row<Global>) -> Option<(i64, &str)> {
    match (row.get(0), row.get(1)) {
        (Some(ValueRef::Int(number)), Some(ValueRef::Text(text))) => Some((number, text)),
        _ => None,
    }
}

// Whether the record has no indirect flag, and this image.
fn is_direct(record: Option<&Record<Global>>, image: Option<(i64, &str)>) -> bool {
    match record {
        Some(record) => match &record.image {
            Some(row) => !record.indirect && fields(row) == image,
            None => !record.indirect && image.is_none(),
        },
        None => false,
    }
}

// Whether the session has such a record of the row that a line names, as `get t key(1)` does.
fn has_direct(
    alloc: Global,
    session: &Session<Global>,
    line: &str,
    image: Option<(i64, &str)>,
) -> bool {
    let Ok(parsed) = parse(alloc, line) else {
        return false;
    };
    match parsed.lines.first() {
        Some(line) => match &line.show {
            Show::Get(table, RowRef::Key(key)) => is_direct(session.record(table, key), image),
            _ => false,
        },
        None => false,
    }
}

// Lets a session record how t differs in two databases.
fn record_diff(
    alloc: Global,
    session: &mut Session<Global>,
    from: &Database<Global>,
    to: &Database<Global>,
) -> Option<()> {
    let name = Name::new(alloc, "t").ok()?;
    let found = compare(alloc, from.table(&name), to.table(&name)?).ok()?;
    session.record_diff(&name, &found).ok()
}

// A diff attaches its table, also where the session is not enabled, and leaves the image of a key that has a
// record.
#[test]
fn diff_is_recorded(rt: HostRuntime) -> Result<(), Fail> {
    let alloc = rt.alloc();
    let mut database = Database::empty(alloc);
    let mut session = Session::new(alloc);
    assert!(rt; create(alloc, &mut database, "t") && attach(alloc, &mut session, "t"));
    assert!(rt;
        commit(
            alloc,
            &mut database,
            &mut session,
            "commit insert t (1,'x')"
        )
    );
    let from = database.snapshot()?;
    assert!(rt; !session.enable(Some(false)));
    let text = "commit delete t key(1) ; insert t (2,'y')";
    assert!(rt; commit(alloc, &mut database, &mut session, text));
    assert!(rt; record_diff(alloc, &mut session, &from, &database) == Some(()));
    assert!(rt; has_direct(alloc, &session, "get t key(1)", None));
    assert!(rt; has_direct(alloc, &session, "get t key(2)", None));
    let mut other = Session::new(alloc);
    assert!(rt; record_diff(alloc, &mut other, &from, &database) == Some(()));
    assert!(rt; has_direct(alloc, &other, "get t key(1)", Some((1, "x"))));
    assert!(rt; other.stored() == 2 && other.clone()?.stored() == 2);
    Ok(())
}

// Ten thousand updates of one row are one record, with the image before the first of them.
#[test]
fn updates_of_one_row_are_one_record(rt: HostRuntime) -> Result<(), Fail> {
    let alloc = rt.alloc();
    let mut database = Database::empty(alloc);
    let mut session = Session::new(alloc);
    assert!(rt; create(alloc, &mut database, "t"));
    assert!(rt;
        commit(
            alloc,
            &mut database,
            &mut session,
            "commit insert t (1,'x')"
        )
    );
    assert!(rt; attach(alloc, &mut session, "t"));
    let updates = "commit update t key(1) set 1 = 'y'\ncommit update t key(1) set 1 = 'z'";
    let lines = parse(alloc, updates)?.lines;
    for _ in 0..5_000 {
        assert!(rt; commit_lines(alloc, &mut database, &mut session, &lines));
    }
    assert!(rt; session.stored() == 1);
    assert!(rt; has_direct(alloc, &session, "get t key(1)", Some((1, "x"))));
    Ok(())
}
