//! What a handle owns may go from one thread to another.

use crate::held::{HeldBatch, HeldCapture, HeldSnapshot, HeldTransaction};
use cap_connection::{Application, BlobIter, Connection, PieceDecoder};
use cap_records::RowCursor;

fn assert_send<T: Send>(_owned: &T) {}

pub(crate) fn assert_client_send(connection: &Connection) {
    assert_send(connection);
}

pub(crate) fn assert_batch_send(batch: &HeldBatch) {
    assert_send(batch);
}

pub(crate) fn assert_snapshot_send(snapshot: &HeldSnapshot) {
    assert_send(snapshot);
}

pub(crate) fn assert_transaction_send(transaction: &HeldTransaction) {
    assert_send(transaction);
}

pub(crate) fn assert_rows_send(cursor: &RowCursor) {
    assert_send(cursor);
}

pub(crate) fn assert_capture_send(capture: &HeldCapture) {
    assert_send(capture);
}

pub(crate) fn assert_iter_send(it: &BlobIter) {
    assert_send(it);
}

pub(crate) fn assert_decoder_send(decoder: &PieceDecoder) {
    assert_send(decoder);
}

pub(crate) fn assert_application_send(application: &Application) {
    assert_send(application);
}
