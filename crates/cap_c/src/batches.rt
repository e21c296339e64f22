//! The calls on a batch of operations.
ghost use Rattle.std.specs.Prelude.{◌≡◌, IsSome, None, Some};
ghost use Rattle.cap_txn.specs.Batch.{refused_push};
ghost use Rattle.cap_records.specs.Ops.{delete_in, insert_in, update_in};
ghost use Rattle.cap_c.specs.Answered.{Answers};
ghost use Rattle.cap_c.specs.Batch.{batch_on};
ghost use Rattle.cap_c.specs.Handle.{OpensOn};
ghost use Rattle.cap_c.specs.Numbers.{cause_of};
ghost use Rattle.cap_c.specs.Recorded.{Puts, PutsUnlessFull, TellsRecord, caused};

use crate::batch_handle::{self, BatchHandle, put, take};
use crate::fault::PlacedFault;
use crate::held::HeldBatch;
use crate::numbers::cause_of;
use crate::operations::{delete_caused, insert_caused, update_caused};
use crate::recorded::tell_record;
use cap_database::Op;
use cap_records::{RecordFault, has_all_ops, put_op};
use cap_txn::Batch;
use cap_value::{Fault, Refusal};
use std::alloc::Global;

/// Opens a batch without operations that may be made on any version.
#[unsafe(no_mangle)]
pub extern "C" fn changecap_batch_open(alloc: Global, batch: &mut BatchHandle) -> u32
    requires closed { batch.old.value ≡ None }
    ensures opened { OpensOn (batch_on None) result batch.new.value }
{
    let blind = Batch::blind(alloc);
    batch_handle::open(alloc, batch, HeldBatch { batch: blind })
}

/// The same of a batch that may be made on this version alone.
#[unsafe(no_mangle)]
pub extern "C" fn changecap_batch_open_at(
    alloc: Global,
    batch: &mut BatchHandle,
    version: u64,
) -> u32
    requires closed { batch.old.value ≡ None }
    ensures opened { OpensOn (batch_on (Some version)) result batch.new.value }
{
    let based = Batch::based(alloc, version);
    batch_handle::open(alloc, batch, HeldBatch { batch: based })
}

/// Takes all operations out of a batch, which may be made on any version then.
#[unsafe(no_mangle)]
pub extern "C" fn changecap_batch_clear(alloc: Global, batch: &mut BatchHandle)
    requires opened { IsSome batch.old.value }
    ensures cleared { batch.new.value ≡ Some (batch_on None) }
{
    let mut held = take(alloc, batch);
    held.batch = Batch::blind(alloc);
    put(batch, held);
}

/// Closes a batch, and frees what it has.
#[unsafe(no_mangle)]
pub extern "C" fn changecap_batch_close(alloc: Global, batch: &mut BatchHandle)
    requires opened { IsSome batch.old.value }
    ensures closed { batch.new.value ≡ None }
{
    drop(take(alloc, batch));
}

/// Puts an INSERT last in a batch.
#[unsafe(no_mangle)]
pub extern "C" fn changecap_insert(
    alloc: Global,
    batch: &mut BatchHandle,
    table: &[u8],
    row: &[u8],
    cause: u32,
    fault: &mut PlacedFault,
) -> u32
    requires opened { IsSome batch.old.value }
    ensures put { Answers batch.old.value batch.new.value
        (Puts (caused (cause_of cause) (insert_in table.now row.now)))
        (TellsRecord result fault.old fault.new) }
{
    let made = insert_caused(alloc, table, row, cause_of(cause));
    let mut held = take(alloc, batch);
    let answer = put_made(&mut held.batch, made);
    put(batch, held);
    tell_record(answer, fault)
}

/// Puts an UPDATE last in a batch: of the row with a key, or where that is empty with an id.
#[unsafe(no_mangle)]
pub extern "C" fn changecap_update(
    alloc: Global,
    batch: &mut BatchHandle,
    table: &[u8],
    key: &[u8],
    id: u64,
    fields: &[u8],
    cause: u32,
    fault: &mut PlacedFault,
) -> u32
    requires opened { IsSome batch.old.value }
    ensures put { Answers batch.old.value batch.new.value
        (Puts (caused (cause_of cause) (update_in table.now key.now id fields.now)))
        (TellsRecord result fault.old fault.new) }
{
    let made = update_caused(alloc, table, key, id, fields, cause_of(cause));
    let mut held = take(alloc, batch);
    let answer = put_made(&mut held.batch, made);
    put(batch, held);
    tell_record(answer, fault)
}

/// Puts a DELETE last in a batch: of the row with a key, or where that is empty with an id.
#[unsafe(no_mangle)]
pub extern "C" fn changecap_delete(
    alloc: Global,
    batch: &mut BatchHandle,
    table: &[u8],
    key: &[u8],
    id: u64,
    cause: u32,
    fault: &mut PlacedFault,
) -> u32
    requires opened { IsSome batch.old.value }
    ensures put { Answers batch.old.value batch.new.value
        (Puts (caused (cause_of cause) (delete_in table.now key.now id)))
        (TellsRecord result fault.old fault.new) }
{
    let made = delete_caused(alloc, table, key, id, cause_of(cause));
    let mut held = take(alloc, batch);
    let answer = put_made(&mut held.batch, made);
    put(batch, held);
    tell_record(answer, fault)
}

// A batch that has all its operations is refused, whatever the arguments are.
fn put_made(
    batch: &mut Batch<Global>,
    made: Result<Op<Global>, Fault<RecordFault>>,
) -> Result<(), Fault<RecordFault>>
    ensures { PutsUnlessFull (refused_push batch.old.ops) made batch.old batch.new result }
{
    if has_all_ops(batch) {
        return Err(Fault::Refused(RecordFault::Refused(Refusal::TooMany)));
    }
    match made {
        Ok(op) => put_op(batch, op),
        Err(why) => Err(why),
    }
}
