//! Operations in a batch.
ghost use Rattle.std.specs.Prelude.{◌≡◌, is_some, OnErr};
ghost use Rattle.std.specs.Option.{option_map};
ghost use Rattle.cap_value.specs.Memory.{LeavesUnlessMemory, RefusesFirst};
ghost use Rattle.cap_txn.specs.Batch.{push, refused_push};
ghost use Rattle.cap_records.specs.Fault.{HandsOn};

use crate::fault::RecordFault;
use cap_database::Op;
use cap_txn::{Batch, OPS_MAX};
use cap_value::Fault;
use std::alloc::Global;

/// Whether the batch has no room for another operation.
pub fn has_all_ops(batch: &Batch<Global>) -> bool
    ensures { result ≡ is_some (refused_push batch.now.ops) }
{
    batch.ops().len() >= OPS_MAX
}

/// Puts an operation last. Refused with `TooMany` where there are `OPS_MAX`. On an error the batch is as
/// before.
pub fn put_op(batch: &mut Batch<Global>, op: Op<Global>) -> Result<(), Fault<RecordFault>>
    ensures batch { HandsOn {X = Unit {0}}
        (λ call. LeavesUnlessMemory call (push batch.old op) batch.new) result }
    ensures kept { OnErr result (batch.new ≡ batch.old) }
    ensures first { RefusesFirst (option_map RecordFault.Refused (refused_push batch.old.ops)) result }
{
    match batch.push(op) {
        Ok(()) => Ok(()),
        Err(Fault::Refused(why)) => Err(Fault::Refused(RecordFault::Refused(why))),
        Err(Fault::OutOfMemory) => Err(Fault::OutOfMemory),
    }
}
