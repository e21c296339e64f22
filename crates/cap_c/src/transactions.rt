//! The calls on a transaction.
ghost use Rattle.std.specs.Prelude.{◌≡◌, IsSome, None};
ghost use Rattle.cap_txn.specs.Transaction.{begin_traced};
ghost use Rattle.cap_records.specs.Ops.{delete_in, insert_in, update_in};
ghost use Rattle.cap_c.specs.Answered.{Answers};
ghost use Rattle.cap_c.specs.Handle.{Keeps, OpensOn};
ghost use Rattle.cap_c.specs.Numbers.{cause_of};
ghost use Rattle.cap_c.specs.Recorded.{Ends, Gets, GoesBack, Makes, MakesMade, Marks, Scans, TellsMark};
ghost use Rattle.cap_c.specs.Recorded.{TellsRead, TellsRecord, caused};

use crate::batch_handle::{self, BatchHandle};
use crate::fault::PlacedFault;
use crate::held::{HeldBatch, HeldTransaction};
use crate::numbers::cause_of;
use crate::operations::{delete_caused, insert_caused, update_caused};
use crate::recorded::{tell_mark, tell_record, tell_rows};
use crate::rows_handle::RowsHandle;
use crate::snapshot_handle::{self, SnapshotHandle};
use crate::status::{NOMEM, OK};
use crate::transaction_handle::{self, TransactionHandle, put, take};
use cap_database::Op;
use cap_records::{RecordFault, txn_get, txn_op, txn_scan};
use cap_txn::{Batch, Mark, Txn};
use cap_value::Fault;
use std::alloc::Global;

/// Opens a transaction on a snapshot.
#[unsafe(no_mangle)]
pub extern "C" fn changecap_begin(
    alloc: Global,
    snapshot: &mut SnapshotHandle,
    transaction: &mut TransactionHandle,
) -> u32
    requires opened { IsSome snapshot.old.value }
    requires closed { transaction.old.value ≡ None }
    ensures begun { Keeps snapshot.old.value snapshot.new.value
        (λ had. OpensOn (begin_traced had) result transaction.new.value) }
{
    let held = snapshot_handle::take(alloc, snapshot);
    let begun = Txn::begin(alloc, &held.snapshot);
    snapshot_handle::put(snapshot, held);
    match begun {
        Ok(txn) => transaction_handle::open(alloc, transaction, HeldTransaction { txn }),
        Err(_) => NOMEM,
    }
}

/// Closes a transaction, of which nothing is left.
#[unsafe(no_mangle)]
pub extern "C" fn changecap_rollback(alloc: Global, transaction: &mut TransactionHandle)
    requires opened { IsSome transaction.old.value }
    ensures closed { transaction.new.value ≡ None }
{
    drop(take(alloc, transaction));
}

/// Makes an INSERT.
#[unsafe(no_mangle)]
pub extern "C" fn changecap_transaction_insert(
    alloc: Global,
    transaction: &mut TransactionHandle,
    table: &[u8],
    row: &[u8],
    cause: u32,
    fault: &mut PlacedFault,
) -> u32
    requires opened { IsSome transaction.old.value }
    ensures made { Answers transaction.old.value transaction.new.value
        (Makes (caused (cause_of cause) (insert_in table.now row.now)))
        (TellsRecord result fault.old fault.new) }
{
    let op = insert_caused(alloc, table, row, cause_of(cause));
    let mut held = take(alloc, transaction);
    let answer = make(&mut held.txn, op);
    put(transaction, held);
    tell_record(answer, fault)
}

/// Makes an UPDATE of the row with a key, or where that is empty with an id.
#[unsafe(no_mangle)]
pub extern "C" fn changecap_transaction_update(
    alloc: Global,
    transaction: &mut TransactionHandle,
    table: &[u8],
    key: &[u8],
    id: u64,
    fields: &[u8],
    cause: u32,
    fault: &mut PlacedFault,
) -> u32
    requires opened { IsSome transaction.old.value }
    ensures made { Answers transaction.old.value transaction.new.value
        (Makes (caused (cause_of cause) (update_in table.now key.now id fields.now)))
        (TellsRecord result fault.old fault.new) }
{
    let op = update_caused(alloc, table, key, id, fields, cause_of(cause));
    let mut held = take(alloc, transaction);
    let answer = make(&mut held.txn, op);
    put(transaction, held);
    tell_record(answer, fault)
}

/// Makes a DELETE of the row with a key, or where that is empty with an id.
#[unsafe(no_mangle)]
pub extern "C" fn changecap_transaction_delete(
    alloc: Global,
    transaction: &mut TransactionHandle,
    table: &[u8],
    key: &[u8],
    id: u64,
    cause: u32,
    fault: &mut PlacedFault,
) -> u32
    requires opened { IsSome transaction.old.value }
    ensures made { Answers transaction.old.value transaction.new.value
        (Makes (caused (cause_of cause) (delete_in table.now key.now id)))
        (TellsRecord result fault.old fault.new) }
{
    let op = delete_caused(alloc, table, key, id, cause_of(cause));
    let mut held = take(alloc, transaction);
    let answer = make(&mut held.txn, op);
    put(transaction, held);
    tell_record(answer, fault)
}

fn make(
    txn: &mut Txn<Global>,
    made: Result<Op<Global>, Fault<RecordFault>>,
) -> Result<(), Fault<RecordFault>>
    ensures { MakesMade made txn.old txn.new result }
{
    match made {
        Ok(op) => txn_op(txn, op),
        Err(why) => Err(why),
    }
}

/// Opens rows of what the transaction reads: the one with a key, or where that is empty with an id; or none.
#[unsafe(no_mangle)]
pub extern "C" fn changecap_transaction_get(
    alloc: Global,
    transaction: &mut TransactionHandle,
    table: &[u8],
    key: &[u8],
    id: u64,
    rows: &mut RowsHandle,
    fault: &mut PlacedFault,
) -> u32
    requires opened { IsSome transaction.old.value }
    requires closed { rows.old.value ≡ None }
    ensures read { Answers transaction.old.value transaction.new.value (Gets table.now key.now id)
        (TellsRead result rows.new.value fault.old fault.new) }
{
    let mut held = take(alloc, transaction);
    let answer = txn_get(alloc, &mut held.txn, table, key, id);
    put(transaction, held);
    tell_rows(alloc, answer, rows, fault)
}

/// Opens all rows of a table, as the transaction reads it.
#[unsafe(no_mangle)]
pub extern "C" fn changecap_transaction_scan(
    alloc: Global,
    transaction: &mut TransactionHandle,
    table: &[u8],
    rows: &mut RowsHandle,
    fault: &mut PlacedFault,
) -> u32
    requires opened { IsSome transaction.old.value }
    requires closed { rows.old.value ≡ None }
    ensures read { Answers transaction.old.value transaction.new.value (Scans table.now)
        (TellsRead result rows.new.value fault.old fault.new) }
{
    let mut held = take(alloc, transaction);
    let answer = txn_scan(alloc, &mut held.txn, table);
    put(transaction, held);
    tell_rows(alloc, answer, rows, fault)
}

/// Makes a savepoint, and sets `mark` to its number.
#[unsafe(no_mangle)]
pub extern "C" fn changecap_savepoint(
    alloc: Global,
    transaction: &mut TransactionHandle,
    mark: &mut u64,
    fault: &mut PlacedFault,
) -> u32
    requires opened { IsSome transaction.old.value }
    ensures marked { Answers transaction.old.value transaction.new.value Marks
        (TellsMark result mark.old mark.new fault.old fault.new) }
{
    let mut held = take(alloc, transaction);
    let answer = savepoint(&mut held.txn);
    put(transaction, held);
    tell_mark(answer, mark, fault)
}

/// Goes back to a savepoint, which stays.
#[unsafe(no_mangle)]
pub extern "C" fn changecap_rollback_to(
    alloc: Global,
    transaction: &mut TransactionHandle,
    mark: u64,
    fault: &mut PlacedFault,
) -> u32
    requires opened { IsSome transaction.old.value }
    ensures back { Answers transaction.old.value transaction.new.value (GoesBack mark)
        (TellsRecord result fault.old fault.new) }
{
    let mut held = take(alloc, transaction);
    let answer = back_to(&mut held.txn, mark);
    put(transaction, held);
    tell_record(answer, fault)
}

fn savepoint(txn: &mut Txn<Global>) -> Result<Mark, Fault<RecordFault>>
    ensures { Marks txn.old txn.new result }
{
    match txn.savepoint() {
        Ok(mark) => Ok(mark),
        Err(Fault::Refused(why)) => Err(Fault::Refused(RecordFault::Refused(why))),
        Err(Fault::OutOfMemory) => Err(Fault::OutOfMemory),
    }
}

fn back_to(txn: &mut Txn<Global>, number: u64) -> Result<(), Fault<RecordFault>>
    ensures { GoesBack number txn.old txn.new result }
{
    match txn.back_to(Mark { number }) {
        Ok(()) => Ok(()),
        Err(Fault::Refused(why)) => Err(Fault::Refused(RecordFault::Refused(why))),
        Err(Fault::OutOfMemory) => Err(Fault::OutOfMemory),
    }
}

/// Ends a transaction, and opens a batch of its operations.
#[unsafe(no_mangle)]
pub extern "C" fn changecap_end(
    alloc: Global,
    transaction: &mut TransactionHandle,
    batch: &mut BatchHandle,
) -> u32
    requires opened { IsSome transaction.old.value }
    requires closed { batch.old.value ≡ None }
    ensures ended { Ends transaction.old.value transaction.new.value batch.new.value result }
{
    let none = Batch::blind(alloc);
    match Box::new(alloc, HeldBatch { batch: none }) {
        Ok(mut room) => {
            let HeldTransaction { txn } = Box::into_inner(take(alloc, transaction));
            room.batch = txn.into_batch();
            batch_handle::put(batch, room);
            OK
        }
        Err(_) => NOMEM,
    }
}
