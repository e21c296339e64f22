//! What a call answers. The numbers are in `changecap.h`, and never change.

/// The call did what it says.
pub(crate) const OK: u32 = 0;
/// The bytes are no blob, or no record. The fault has why, and where.
pub(crate) const MALFORMED: u32 = 1;
/// The buffer is too short, and is as it was. The length is how many bytes it takes.
pub(crate) const ROOM: u32 = 2;
/// There was no memory. The call may be made again.
pub(crate) const NOMEM: u32 = 3;
/// The bytes are a patchset, where only a changeset serves.
pub(crate) const PATCHSET: u32 = 4;
/// An argument is none that the call has a meaning for.
pub(crate) const MISUSE: u32 = 5;
/// The rules refuse the command. The reply, or the fault, says why.
pub(crate) const REFUSED: u32 = 6;
/// The text is not one command. The fault has why, and where.
pub(crate) const COMMAND: u32 = 7;
/// The history has as many events as it can.
pub(crate) const FULL: u32 = 8;
/// A changeset where the blob before it is a patchset, or the other way round.
pub(crate) const KIND: u32 = 9;
/// A table that had other columns, or another key, before.
pub(crate) const COLUMNS: u32 = 10;
/// The text is no filter. The fault has why, and where.
pub(crate) const FILTER: u32 = 11;
/// Another call has the state. Nothing has changed, and the call may be made again.
pub(crate) const BUSY: u32 = 12;
/// The history is longer than the one that the call found. The fault has how long it is.
pub(crate) const OVERTAKEN: u32 = 13;
/// The history has as many clients as it can.
pub(crate) const CLIENTS: u32 = 14;
/// The iterator is at a change, or the rows are at one of them.
pub(crate) const ROW: u32 = 100;
/// The iterator is behind the last change, or the rows are behind the last one.
pub(crate) const DONE: u32 = 101;
