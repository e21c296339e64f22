//! Tables, sessions, batches and texts.
use crate::captures::{CHANGESET, has_changeset};
use crate::texts::{MISUSE, opened};
use cap_connection::{BlobIter, Connection, ConnectionFault, TextFault};
use cap_database::Cause;
use cap_records::{insert_op, put_op};
use cap_txn::Batch;
use cap_value::{Fault, Refusal};
use std::alloc::Global;

fn refused(at: Option<u64>, why: Refusal) -> Fault<ConnectionFault> {
    Fault::Refused(ConnectionFault::Refused { at, why })
}

// The record of the row (1,'x').
const ROW: &[u8] = &[1, 0, 0, 0, 0, 0, 0, 0, 1, 3, 1, b'x'];

// Puts its insertion into the table t last in a batch.
fn puts_x(alloc: Global, batch: &mut Batch<Global>) -> bool {
    match insert_op(alloc, b"t", ROW, Cause::Direct) {
        Ok(op) => put_op(batch, op).is_ok(),
        Err(_) => false,
    }
}

fn attaches_a_table(alloc: Global, connection: &mut Connection) -> bool {
    connection.create_table(alloc, b"t", &[1, 0]) == Ok(1)
        && connection.new_session() == Ok(1)
        && connection.attach(alloc, 1, b"t") == Ok(())
}

// Whether the row is captured, and refused where it is inserted again, which leaves the batch as it was.
fn captures_x_once(alloc: Global, connection: &mut Connection) -> bool {
    let mut batch = Batch::blind(alloc);
    if !puts_x(alloc, &mut batch) || connection.commit(alloc, &mut batch) != Ok(2) {
        return false;
    }
    let captured = connection.capture(1);
    let duplicate = refused(Some(0), Refusal::Duplicate);
    has_changeset(alloc, &captured, CHANGESET)
        && puts_x(alloc, &mut batch)
        && connection.commit(alloc, &mut batch) == Err(duplicate)
        && batch.ops().len() == 1
}

fn captures_an_insert(alloc: Global) -> bool {
    match opened(alloc, &[]) {
        Some(mut connection) => {
            attaches_a_table(alloc, &mut connection) && captures_x_once(alloc, &mut connection)
        }
        None => false,
    }
}

#[test]
fn an_inserted_row_is_captured(rt: HostRuntime) {
    assert!(rt; captures_an_insert(rt.alloc()));
}

fn keeps_a_session(alloc: Global, connection: &mut Connection) -> bool {
    let attached = connection.attach_all(1) == Ok(())
        && connection.set_filter(alloc, 1, b"is t") == Ok(())
        && connection.enable(1, Some(false)) == Ok(false);
    let flags = connection.indirect(1, None) == Ok(false) && connection.is_empty(1) == Ok(true);
    let differs = connection.save(alloc, b"d") == Ok(())
        && connection.diff(alloc, 1, b"d", b"t") == Ok(());
    attached && flags && differs && connection.drop_session(1) == Ok(())
}

// A table and a session.
const SESSION: &[&str] = &["create t kv", "session"];

fn has_sessions(alloc: Global) -> bool {
    match opened(alloc, SESSION) {
        Some(mut connection) => keeps_a_session(alloc, &mut connection),
        None => false,
    }
}

#[test]
fn sessions_and_saved_databases(rt: HostRuntime) {
    assert!(rt; has_sessions(rt.alloc()));
}

// The changeset of a table e without rows, and of the row (1,'x') of the table t.
const TABLES: &[u8] = &[
    0x54, 2, 1, 0, b'e', 0, 0x54, 2, 1, 0, b't', 0, 0x12, 0, 1, 0, 0, 0, 0, 0, 0, 0, 1, 3, 1, b'x',
];

// The deletion of that row.
const DELETE: &[u8] = &[
    0x54, 2, 1, 0, b't', 0, 0x09, 0, 1, 0, 0, 0, 0, 0, 0, 0, 1, 3, 1, b'x',
];

// The sum of the new version and of how many changes were made.
fn load(
    alloc: Global,
    connection: &mut Connection,
    blob: &[u8],
) -> Result<u64, Fault<ConnectionFault>> {
    let Ok(mut it) = BlobIter::open(alloc, blob) else {
        return Err(MISUSE);
    };
    match connection.load(alloc, &mut it) {
        Ok(applied) => Ok(applied.version.wrapping_add(applied.applied)),
        Err(why) => Err(why),
    }
}

fn loads_once(alloc: Global, connection: &mut Connection) -> bool {
    load(alloc, connection, DELETE) == Err(refused(Some(0), Refusal::Aborted { at: 0 }))
        && load(alloc, connection, TABLES) == Ok(4)
        && load(alloc, connection, TABLES) == Err(refused(None, Refusal::TableExists))
        && connection.create_table(alloc, b"u", &[1]) == Ok(4)
}

fn loads_tables(alloc: Global) -> bool {
    match opened(alloc, &[]) {
        Some(mut connection) => loads_once(alloc, &mut connection),
        None => false,
    }
}

#[test]
fn tables_are_loaded(rt: HostRuntime) {
    assert!(rt; loads_tables(rt.alloc()));
}

fn refuses_a_second_table(alloc: Global, connection: &mut Connection) -> bool {
    connection.create_table(alloc, b"t", &[1]) == Ok(1)
        && connection.create_table(alloc, b"t", &[1]) == Err(refused(None, Refusal::TableExists))
}

fn tells_misuse(alloc: Global, connection: &mut Connection) -> bool {
    connection.create_table(alloc, b"", &[1]) == Err(MISUSE)
        && connection.create_table(alloc, b"u", &[]) == Err(MISUSE)
        && connection.drop_session(1) == Err(refused(None, Refusal::NoSession))
        && connection.set_filter(alloc, 1, &[0xff]) == Err(MISUSE)
}

fn refuses(alloc: Global) -> bool {
    match opened(alloc, &[]) {
        Some(mut connection) => {
            refuses_a_second_table(alloc, &mut connection) && tells_misuse(alloc, &mut connection)
        }
        None => false,
    }
}

#[test]
fn refused_commands_and_misuse(rt: HostRuntime) {
    assert!(rt; refuses(rt.alloc()));
}

const NOT_ONE: Fault<ConnectionFault> = Fault::Refused(ConnectionFault::NoCommand(
    TextFault::NotOne,
));

// Whether the texts that are no command leave the reply to the last one that was.
fn keeps_its_reply(alloc: Global, connection: &mut Connection) -> bool {
    connection.call(alloc, b"# a note\ncreate t kv\n") == Ok(true)
        && connection.reply_text() == b"ok version 1".as_slice()
        && connection.call(alloc, b"session\nsession") == Err(NOT_ONE)
        && connection.call(alloc, b"\xff") == Err(NOT_ONE)
        && connection.reply_text() == b"ok version 1".as_slice()
}

fn takes_texts(alloc: Global) -> bool {
    match opened(alloc, &[]) {
        Some(mut connection) => {
            keeps_its_reply(alloc, &mut connection)
                && connection.call(alloc, b"create t kv") == Ok(false)
                && connection.reply_text() == b"refused: E9 TableExists".as_slice()
        }
        None => false,
    }
}

#[test]
fn a_text_is_one_command(rt: HostRuntime) {
    assert!(rt; takes_texts(rt.alloc()));
}
