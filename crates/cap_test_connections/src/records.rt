//! Records, and the operations of batches and transactions that are made of them.
use crate::blobs::are_bytes;
use crate::rows::{KEY, TWO, are, tables};
use crate::texts::{answers, opened};
use cap_connection::Connection;
use cap_database::{Cause, Snapshot};
use cap_records::{
    ItemKind, delete_op, get, has_all_ops, insert_op, item_at, item_id, item_key, item_kind,
    item_table, put_op, record_of_row, row_of, scan, txn_get, txn_op, txn_scan, update_op,
};
use cap_txn::{Batch, Txn};
use std::alloc::Global;

// The record of the row (2,'x'), of (5,50), and of new values of which the second column is 7.
const ROW: &[u8] = &[1, 0, 0, 0, 0, 0, 0, 0, 2, 3, 1, b'x'];

const FIFTY: &[u8] = &[1, 0, 0, 0, 0, 0, 0, 0, 5, 1, 0, 0, 0, 0, 0, 0, 0, 50];

const SEVEN: &[u8] = &[0, 1, 0, 0, 0, 0, 0, 0, 0, 7];

// Makes an operation of each kind in a batch, on a table of the rows 2, 3 and 1 without a key.
fn puts_three(alloc: Global, batch: &mut Batch<Global>) -> Option<()> {
    let direct = Cause::Direct;
    put_op(batch, insert_op(alloc, b"t", FIFTY, direct).ok()?).ok()?;
    put_op(batch, update_op(alloc, b"t", KEY, 0, SEVEN, direct).ok()?).ok()?;
    put_op(batch, delete_op(alloc, b"t", b"", 1, direct).ok()?).ok()
}

// A transaction that sets row 2 and reads it again, and then all rows.
fn sets_seven(alloc: Global, snapshot: &Snapshot<Global>) -> Option<Batch<Global>> {
    let mut txn = Txn::begin(alloc, snapshot).ok()?;
    let set = update_op(alloc, b"t", KEY, 0, SEVEN, Cause::Direct).ok()?;
    txn_op(&mut txn, set).ok()?;
    let is_read = are(txn_get(alloc, &mut txn, b"t", KEY, 0), &[(0, 7)]);
    let are_all = are(txn_scan(alloc, &mut txn, b"t"), &[(0, 7), (1, 30)]);
    if is_read && are_all {
        Some(txn.into_batch())
    } else {
        None
    }
}

// The kind, the table's name and the key's record of an item.
fn is_item(alloc: Global, batch: &Batch<Global>, at: usize, kind: ItemKind, key: &[u8]) -> bool {
    let Some(item) = item_at(batch, at) else {
        return false;
    };
    match item_key(alloc, item) {
        Ok(found) => {
            item_kind(item) == kind
                && item_table(item).as_str() == "t"
                && item_id(item) == 0
                && found.as_slice() == key
        }
        Err(_) => false,
    }
}

fn is_spelled_again(alloc: Global) -> bool {
    let Ok(row) = row_of(alloc, ROW) else {
        return false;
    };
    match record_of_row(alloc, &row) {
        Ok(record) => row.width() == 2 && record.as_slice() == ROW,
        Err(_) => false,
    }
}

fn is_read_as_its_record(alloc: Global, snapshot: &Snapshot<Global>) -> bool {
    let Ok(mut rows) = get(alloc, snapshot, b"t", KEY, 0) else {
        return false;
    };
    matches!(rows.record(alloc), Ok(None)) && rows.step() && are_bytes(rows.record(alloc), ROW)
}

fn is_its_record(alloc: Global) -> bool {
    match tables(alloc, &["create t kv", "commit insert t (2,'x')"]) {
        Some(snapshot) => is_spelled_again(alloc) && is_read_as_its_record(alloc, &snapshot),
        None => false,
    }
}

#[test]
fn a_row_is_its_record(rt: HostRuntime) {
    assert!(rt; is_its_record(rt.alloc()));
}

// Whether a batch of an operation of each kind is committed as the third version, and which rows it leaves.
fn commits_three(alloc: Global, connection: &mut Connection) -> bool {
    let mut batch = Batch::blind(alloc);
    let put = puts_three(alloc, &mut batch).is_some() && !has_all_ops(&batch);
    if !put || connection.commit(alloc, &mut batch) != Ok(3) {
        return false;
    }
    match connection.read() {
        Ok(snapshot) => are(scan(alloc, &snapshot, b"t"), &[(0, 7), (0, 50)]),
        Err(_) => false,
    }
}

fn makes_three(alloc: Global) -> bool {
    match opened(alloc, TWO) {
        Some(mut connection) => commits_three(alloc, &mut connection),
        None => false,
    }
}

#[test]
fn a_batch_of_each_operation(rt: HostRuntime) {
    assert!(rt; makes_three(rt.alloc()));
}

fn has_its_items(alloc: Global, batch: &Batch<Global>) -> bool {
    is_item(alloc, batch, 0, ItemKind::Table, b"")
        && is_item(alloc, batch, 1, ItemKind::Row, KEY)
        && is_item(alloc, batch, 2, ItemKind::Scan, b"")
        && item_at(batch, 3).is_none()
}

// Whether the transaction that sets row 2 is committed as the third version.
fn commits_seven(alloc: Global, connection: &mut Connection) -> bool {
    let Ok(snapshot) = connection.read() else {
        return false;
    };
    match sets_seven(alloc, &snapshot) {
        Some(mut batch) => {
            has_its_items(alloc, &batch) && connection.commit(alloc, &mut batch) == Ok(3)
        }
        None => false,
    }
}

fn sets_a_row(alloc: Global) -> bool {
    match opened(alloc, TWO) {
        Some(mut connection) => {
            commits_seven(alloc, &mut connection)
                && answers(&mut connection, alloc, "get t key(2)", "row (2,7)")
        }
        None => false,
    }
}

#[test]
fn a_transaction_of_records(rt: HostRuntime) {
    assert!(rt; sets_a_row(rt.alloc()));
}
