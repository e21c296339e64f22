//! What a handle has whose type is another crate's, at `Global` or not always there.

use cap_connection::Captured;
use cap_database::Snapshot;
use cap_txn::{Batch, Txn};
use std::alloc::Global;
use std::marker::Model;

/// What a handle of a batch has.
#[derive(Drop)]
pub struct HeldBatch {
    pub(crate) batch: Batch<Global>,
}

impl Model for HeldBatch {
    ghost use Rattle.std.specs.Global.{Global};
    ghost use Rattle.cap_txn.specs.Batch.{BatchState};

    ghost Value = { BatchState Global };

    ghost view = { λ h. h.batch };
}

/// What a handle of a snapshot has.
#[derive(Drop)]
pub struct HeldSnapshot {
    pub(crate) snapshot: Snapshot<Global>,
}

impl Model for HeldSnapshot {
    ghost use Rattle.std.specs.Global.{Global};
    ghost use Rattle.cap_database.specs.Snapshot.{SnapshotState};

    ghost Value = { SnapshotState Global };

    ghost view = { λ h. h.snapshot };
}

/// What a handle of a transaction has.
#[derive(Drop)]
pub struct HeldTransaction {
    pub(crate) txn: Txn<Global>,
}

impl Model for HeldTransaction {
    ghost use Rattle.std.specs.Global.{Global};
    ghost use Rattle.cap_txn.specs.Transaction.{TxnState};

    ghost Value = { TxnState Global };

    ghost view = { λ h. h.txn };
}

/// What a handle of a capture has. Without a capture, as before the call that makes it, it has no changes.
#[derive(Drop)]
pub struct HeldCapture {
    pub(crate) captured: Option<Captured>,
}

impl Model for HeldCapture {
    ghost use Rattle.std.specs.Global.{Global};
    ghost use Rattle.cap_core.specs.Capture.{CaptureState};
    ghost use Rattle.cap_c.specs.Captured.{capture_held};

    ghost Value = { CaptureState Global };

    ghost view = { λ h. capture_held h.captured };
}
