//! The calls that take a snapshot, and read rows of it.
ghost use Rattle.std.specs.Prelude.{◌≡◌, ◌⊎◌, IsSome, None};
ghost use Rattle.cap_connection.specs.Calls.{TakesSnapshot};
ghost use Rattle.cap_records.specs.Arguments.{row_argument, table_argument};
ghost use Rattle.cap_records.specs.Reads.{get_in, scan_from_in, scan_in};
ghost use Rattle.cap_c.specs.Answered.{Answers, OpensAnswer};
ghost use Rattle.cap_c.specs.Handle.{Keeps, LacksMemory};
ghost use Rattle.cap_c.specs.Recorded.{ReadsRows};

use crate::answered::fault_status;
use crate::client_handle::{self, ClientHandle};
use crate::fault::PlacedFault;
use crate::held::HeldSnapshot;
use crate::recorded::tell_rows;
use crate::rows_handle::RowsHandle;
use crate::snapshot_handle::{SnapshotHandle, put, take};
use crate::status::{NOMEM, OK};
use cap_connection::ConnectionFault;
use cap_database::{Database, Snapshot};
use cap_records::{get, scan, scan_from};
use cap_value::Fault;
use std::alloc::Global;

/// Opens a snapshot of the tables as they are now.
#[unsafe(no_mangle)]
pub extern "C" fn changecap_try_snapshot_open(
    alloc: Global,
    client: &mut ClientHandle,
    snapshot: &mut SnapshotHandle,
) -> u32
    requires opened { IsSome client.old.value }
    requires closed { snapshot.old.value ≡ None }
    ensures taken { Answers client.old.value client.new.value TakesSnapshot
        (OpensAnswer result snapshot.new.value)
        ⊎ LacksMemory client.old.value client.new.value snapshot.new.value result }
{
    let none = Snapshot::new(0, Database::empty(alloc));
    match Box::new(alloc, HeldSnapshot { snapshot: none }) {
        Ok(room) => open_in(alloc, client, room, snapshot),
        Err(_) => NOMEM,
    }
}

// Memory for the snapshot is taken first, so that a call without memory is no event.
fn open_in(
    alloc: Global,
    client: &mut ClientHandle,
    room: Box<HeldSnapshot>,
    snapshot: &mut SnapshotHandle,
) -> u32
    requires opened { IsSome client.old.value }
    requires closed { snapshot.old.value ≡ None }
    ensures taken { Answers client.old.value client.new.value TakesSnapshot
        (OpensAnswer result snapshot.new.value) }
{
    let mut connection = client_handle::take(alloc, client);
    let answer = connection.read();
    client_handle::put(client, connection);
    tell_snapshot(answer, room, snapshot)
}

fn tell_snapshot(
    answer: Result<Snapshot<Global>, Fault<ConnectionFault>>,
    mut room: Box<HeldSnapshot>,
    snapshot: &mut SnapshotHandle,
) -> u32
    requires closed { snapshot.old.value ≡ None }
    ensures { OpensAnswer result snapshot.new.value answer }
{
    match answer {
        Ok(taken) => {
            room.snapshot = taken;
            put(snapshot, room);
            OK
        }
        Err(why) => fault_status(why),
    }
}

/// Sets `version` to that of the tables.
#[unsafe(no_mangle)]
pub extern "C" fn changecap_snapshot_version(
    alloc: Global,
    snapshot: &mut SnapshotHandle,
    version: &mut u64,
) -> u32
    requires opened { IsSome snapshot.old.value }
    ensures outputs { Keeps snapshot.old.value snapshot.new.value
        (λ had. version.new ≡ had.version) }
    ensures status { result ≡ OK }
{
    let held = take(alloc, snapshot);
    *version = held.snapshot.version();
    put(snapshot, held);
    OK
}

/// Closes a snapshot, and frees what it alone has.
#[unsafe(no_mangle)]
pub extern "C" fn changecap_snapshot_close(alloc: Global, snapshot: &mut SnapshotHandle)
    requires opened { IsSome snapshot.old.value }
    ensures closed { snapshot.new.value ≡ None }
{
    drop(take(alloc, snapshot));
}

/// Opens rows: the one with a key, or where that is empty with an id; or none.
#[unsafe(no_mangle)]
pub extern "C" fn changecap_get(
    alloc: Global,
    snapshot: &mut SnapshotHandle,
    table: &[u8],
    key: &[u8],
    id: u64,
    rows: &mut RowsHandle,
    fault: &mut PlacedFault,
) -> u32
    requires opened { IsSome snapshot.old.value }
    requires closed { rows.old.value ≡ None }
    ensures read { Keeps snapshot.old.value snapshot.new.value
        (λ had. ReadsRows (get_in had.database table.now key.now id)
        (row_argument table.now key.now id) result rows.new.value fault.old fault.new) }
{
    let held = take(alloc, snapshot);
    let answer = get(alloc, &held.snapshot, table, key, id);
    put(snapshot, held);
    tell_rows(alloc, answer, rows, fault)
}

/// Opens all rows of a table.
#[unsafe(no_mangle)]
pub extern "C" fn changecap_scan(
    alloc: Global,
    snapshot: &mut SnapshotHandle,
    table: &[u8],
    rows: &mut RowsHandle,
    fault: &mut PlacedFault,
) -> u32
    requires opened { IsSome snapshot.old.value }
    requires closed { rows.old.value ≡ None }
    ensures read { Keeps snapshot.old.value snapshot.new.value
        (λ had. ReadsRows (scan_in had.database table.now) (table_argument table.now) result
        rows.new.value fault.old fault.new) }
{
    let held = take(alloc, snapshot);
    let answer = scan(alloc, &held.snapshot, table);
    put(snapshot, held);
    tell_rows(alloc, answer, rows, fault)
}

/// Opens the rows of a table with a key that is not below this one, in the order of their keys, at most so
/// many.
#[unsafe(no_mangle)]
pub extern "C" fn changecap_scan_from(
    alloc: Global,
    snapshot: &mut SnapshotHandle,
    table: &[u8],
    key: &[u8],
    limit: u64,
    rows: &mut RowsHandle,
    fault: &mut PlacedFault,
) -> u32
    requires opened { IsSome snapshot.old.value }
    requires closed { rows.old.value ≡ None }
    ensures read { Keeps snapshot.old.value snapshot.new.value
        (λ had. ReadsRows (scan_from_in had.database table.now key.now limit)
        (row_argument table.now key.now 0) result rows.new.value fault.old fault.new) }
{
    let held = take(alloc, snapshot);
    let answer = scan_from(alloc, &held.snapshot, table, key, limit);
    put(snapshot, held);
    tell_rows(alloc, answer, rows, fault)
}
