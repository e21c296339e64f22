//! The calls that dump a table of a snapshot, and load dumps into a history.
ghost use Rattle.std.specs.Prelude.{◌≡◌, IsSome, None};
ghost use Rattle.cap_connection.specs.Loads.{Loads};
ghost use Rattle.cap_c.specs.Answered.{BothAnswer, TellsReport};
ghost use Rattle.cap_c.specs.Dumped.{WritesAsked, dump_asked, dump_named};
ghost use Rattle.cap_c.specs.Handle.{Keeps};
ghost use Rattle.cap_c.specs.Numbers.{key_flags_of};
ghost use Rattle.cap_c.specs.declared.status.TheConstants.{MISUSE as Misuse};

use crate::answered::tell_report;
use crate::apply_report::ApplyReport;
use crate::client_handle::{self, ClientHandle};
use crate::fault::PlacedFault;
use crate::iter_handle::{self, IterHandle};
use crate::numbers::key_flags_of;
use crate::output::write_bytes;
use crate::snapshot_handle::{self, SnapshotHandle};
use crate::status::{MISUSE, NOMEM};
use cap_codec::KeyFlags;
use cap_database::Database;
use cap_dump::dump;
use cap_records::name_text;
use cap_value::{Fault, Name};
use std::alloc::Global;

/// Writes a table of a snapshot as a changeset of INSERTs.
#[unsafe(no_mangle)]
pub extern "C" fn changecap_dump(
    alloc: Global,
    snapshot: &mut SnapshotHandle,
    table: &[u8],
    key_flags: u32,
    out: &mut [u8],
    len: &mut usize,
) -> u32
    requires opened { IsSome snapshot.old.value }
    // A number that names no key flags, and a name that no table has, is misuse.
    ensures written { Keeps snapshot.old.value snapshot.new.value
        (λ had. WritesAsked (dump_asked had.database table.now (key_flags_of key_flags)) result out.old
        out.new len.old len.new) }
    ensures first { key_flags_of key_flags ≡ None → result ≡ Misuse }
{
    let held = snapshot_handle::take(alloc, snapshot);
    let flags = key_flags_of(key_flags);
    let status = write_dump(alloc, held.snapshot.database(), table, flags, out, len);
    snapshot_handle::put(snapshot, held);
    status
}

fn write_dump(
    alloc: Global,
    database: &Database<Global>,
    table: &[u8],
    flags: Option<KeyFlags>,
    out: &mut [u8],
    len: &mut usize,
) -> u32
    ensures written { WritesAsked (dump_asked database.now table.now flags) result out.old out.new len.old
        len.new }
    ensures first { flags ≡ None → result ≡ Misuse }
{
    let Some(flags) = flags else {
        return MISUSE;
    };
    let Some(text) = name_text(table) else {
        return MISUSE;
    };
    match Name::new(alloc, text) {
        Ok(name) => write_named(alloc, database, &name, flags, out, len),
        Err(_) => NOMEM,
    }
}

fn write_named(
    alloc: Global,
    database: &Database<Global>,
    name: &Name<Global>,
    flags: KeyFlags,
    out: &mut [u8],
    len: &mut usize,
) -> u32
    ensures { WritesAsked (dump_named database.now name.now flags) result out.old out.new len.old len.new }
{
    match dump(alloc, flags, database, name) {
        Ok(bytes) => write_bytes(bytes.as_slice(), out, len),
        Err(Fault::Refused(_)) => MISUSE,
        Err(Fault::OutOfMemory) => NOMEM,
    }
}

/// Creates the tables of the blob of an iterator, wherever it stands, and applies the blob to them.
#[unsafe(no_mangle)]
pub extern "C" fn changecap_try_load(
    alloc: Global,
    client: &mut ClientHandle,
    iter: &mut IterHandle,
    report: &mut ApplyReport,
    fault: &mut PlacedFault,
) -> u32
    requires opened { IsSome client.old.value }
    requires read { IsSome iter.old.value }
    ensures loaded { BothAnswer client.old.value client.new.value iter.old.value iter.new.value
        (λ old new before after. Loads before after old new)
        (TellsReport result report.old report.new fault.old fault.new) }
{
    let mut connection = client_handle::take(alloc, client);
    let mut it = iter_handle::take(alloc, iter);
    let answer = connection.load(alloc, &mut it);
    iter_handle::put(iter, it);
    client_handle::put(client, connection);
    tell_report(answer, report, fault)
}
