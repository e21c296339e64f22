//! The calls on the tables of a client's history.
ghost use Rattle.std.specs.Prelude.{IsSome};
ghost use Rattle.cap_connection.specs.Calls.{Commits, CreatesTable, Saves};
ghost use Rattle.cap_c.specs.Numbers.{policy_of};
ghost use Rattle.cap_c.specs.Answered.{Answers, AppliesBy, AppliesWithBy, BothAnswer, Tells, TellsNumber};
ghost use Rattle.cap_c.specs.Answered.{TellsPassed, TellsReport};

use crate::answered::{tell, tell_number, tell_passed, tell_report};
use crate::apply_report::{ApplyReport, PassedOver};
use crate::batch_handle::{self, BatchHandle};
use crate::client_handle::{ClientHandle, put, take};
use crate::fault::PlacedFault;
use crate::iter_handle::{self, IterHandle};
use crate::numbers::policy_of;
use cap_apply::Policy;
use cap_connection::{Applied, BlobIter, Connection, ConnectionFault, Passed};
use cap_core::QuietSessions;
use cap_value::Fault;
use std::alloc::Global;

/// Creates a table. A byte for each column says whether it is in the primary key.
#[unsafe(no_mangle)]
pub extern "C" fn changecap_try_create(
    alloc: Global,
    client: &mut ClientHandle,
    table: &[u8],
    key: &[u8],
    version: &mut u64,
    fault: &mut PlacedFault,
) -> u32
    requires opened { IsSome client.old.value }
    ensures created { Answers client.old.value client.new.value (CreatesTable table.now key.now)
        (TellsNumber result version.old version.new fault.old fault.new) }
{
    let mut connection = take(alloc, client);
    let answer = connection.create_table(alloc, table, key);
    put(client, connection);
    tell_number(answer, version, fault)
}

/// Saves the tables under a name, and replaces what was saved under it.
#[unsafe(no_mangle)]
pub extern "C" fn changecap_try_save(
    alloc: Global,
    client: &mut ClientHandle,
    database: &[u8],
    fault: &mut PlacedFault,
) -> u32
    requires opened { IsSome client.old.value }
    ensures saved { Answers client.old.value client.new.value (Saves database.now)
        (Tells result fault.old fault.new) }
{
    let mut connection = take(alloc, client);
    let answer = connection.save(alloc, database);
    put(client, connection);
    tell(answer, fault)
}

/// Commits the batch, which is empty after that, and may be made on any version.
#[unsafe(no_mangle)]
pub extern "C" fn changecap_try_commit(
    alloc: Global,
    client: &mut ClientHandle,
    batch: &mut BatchHandle,
    version: &mut u64,
    fault: &mut PlacedFault,
) -> u32
    requires opened { IsSome client.old.value }
    requires filled { IsSome batch.old.value }
    ensures committed { BothAnswer client.old.value client.new.value batch.old.value batch.new.value
        (λ old new before after. Commits before after old new)
        (TellsNumber result version.old version.new fault.old fault.new) }
{
    let mut connection = take(alloc, client);
    let mut held = batch_handle::take(alloc, batch);
    let answer = connection.commit(alloc, &mut held.batch);
    batch_handle::put(batch, held);
    put(client, connection);
    tell_number(answer, version, fault)
}

/// Applies the changeset or the patchset of an iterator, as `sqlite3changeset_apply`, with an answer to each
/// kind of conflict, wherever it stands. It then has the conflicts of this application.
#[unsafe(no_mangle)]
pub extern "C" fn changecap_try_apply(
    alloc: Global,
    client: &mut ClientHandle,
    iter: &mut IterHandle,
    on_data: u32,
    on_notfound: u32,
    on_conflict: u32,
    report: &mut ApplyReport,
    fault: &mut PlacedFault,
) -> u32
    requires opened { IsSome client.old.value }
    requires read { IsSome iter.old.value }
    // A number that is no answer is misuse.
    ensures applied { BothAnswer client.old.value client.new.value iter.old.value iter.new.value
        (λ old new before after. AppliesBy (policy_of on_data on_notfound on_conflict) before after old new)
        (TellsReport result report.old report.new fault.old fault.new) }
{
    let mut connection = take(alloc, client);
    let mut it = iter_handle::take(alloc, iter);
    let policy = policy_of(on_data, on_notfound, on_conflict);
    let answer = apply(alloc, &mut connection, &mut it, policy);
    iter_handle::put(iter, it);
    put(client, connection);
    tell_report(answer, report, fault)
}

/// The same of the tables that the filter of a text accepts, or with an empty text of all. Sets `passed` to
/// what is passed over. The sessions with these numbers record nothing.
#[unsafe(no_mangle)]
pub extern "C" fn changecap_try_apply_with(
    alloc: Global,
    client: &mut ClientHandle,
    iter: &mut IterHandle,
    on_data: u32,
    on_notfound: u32,
    on_conflict: u32,
    filter: &[u8],
    quiet: &[u64],
    report: &mut ApplyReport,
    passed: &mut PassedOver,
    fault: &mut PlacedFault,
) -> u32
    requires opened { IsSome client.old.value }
    requires read { IsSome iter.old.value }
    ensures applied { BothAnswer client.old.value client.new.value iter.old.value iter.new.value
        (λ old new before after. AppliesWithBy (policy_of on_data on_notfound on_conflict) filter.now
        quiet.now before after old new)
        (TellsPassed result report.old report.new passed.old passed.new fault.old fault.new) }
{
    let mut connection = take(alloc, client);
    let mut it = iter_handle::take(alloc, iter);
    let policy = policy_of(on_data, on_notfound, on_conflict);
    let answer = apply_with(alloc, &mut connection, &mut it, policy, filter, quiet);
    iter_handle::put(iter, it);
    put(client, connection);
    tell_passed(answer, report, passed, fault)
}

fn apply(
    alloc: Global,
    connection: &mut Connection,
    it: &mut BlobIter,
    policy: Option<Policy>,
) -> Result<Applied, Fault<ConnectionFault>>
    ensures { AppliesBy policy it.old it.new connection.old connection.new result }
{
    match policy {
        Some(policy) => connection.apply(alloc, it, policy, QuietSessions::none(alloc)),
        None => Err(Fault::Refused(ConnectionFault::Misuse)),
    }
}

fn apply_with(
    alloc: Global,
    connection: &mut Connection,
    it: &mut BlobIter,
    policy: Option<Policy>,
    filter: &[u8],
    quiet: &[u64],
) -> Result<(Applied, Passed), Fault<ConnectionFault>>
    ensures { AppliesWithBy policy filter.now quiet.now it.old it.new connection.old connection.new result }
{
    match policy {
        Some(policy) => connection.apply_with(alloc, it, policy, filter, quiet),
        None => Err(Fault::Refused(ConnectionFault::Misuse)),
    }
}
