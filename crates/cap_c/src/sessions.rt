//! The calls on the sessions of a client's history.
ghost use Rattle.std.specs.Prelude.{IsSome};
ghost use Rattle.cap_core.specs.declared.command.Command.TheVariants as command;
ghost use Rattle.cap_core.specs.declared.session_command.SessionCommand.TheVariants as told;
ghost use Rattle.cap_session.specs.declared.session_change.SessionChange.TheVariants as change;
ghost use Rattle.cap_connection.specs.Calls.{Attaches, Diffs, SetsFilter};
ghost use Rattle.cap_connection.specs.Replies.{flag_in, nothing_in, number_in};
ghost use Rattle.cap_connection.specs.Runs.{Runs};
ghost use Rattle.cap_c.specs.Numbers.{asked_of};
ghost use Rattle.cap_c.specs.Answered.{Answers, Given, Tells, TellsFlag, TellsNumber};

use crate::answered::{tell, tell_flag, tell_number};
use crate::client_handle::{ClientHandle, put, take};
use crate::fault::PlacedFault;
use crate::numbers::asked_of;
use cap_connection::{Connection, ConnectionFault};
use cap_value::Fault;
use std::alloc::Global;

/// Makes a session, as `sqlite3session_create`.
#[unsafe(no_mangle)]
pub extern "C" fn changecap_try_session_new(
    alloc: Global,
    client: &mut ClientHandle,
    session: &mut u64,
    fault: &mut PlacedFault,
) -> u32
    requires opened { IsSome client.old.value }
    ensures made { Answers client.old.value client.new.value (Runs number_in command.NewSession)
        (TellsNumber result session.old session.new fault.old fault.new) }
{
    let mut connection = take(alloc, client);
    let answer = connection.new_session();
    put(client, connection);
    tell_number(answer, session, fault)
}

/// Ends a session, as `sqlite3session_delete`.
#[unsafe(no_mangle)]
pub extern "C" fn changecap_try_session_drop(
    alloc: Global,
    client: &mut ClientHandle,
    session: u64,
    fault: &mut PlacedFault,
) -> u32
    requires opened { IsSome client.old.value }
    ensures ended { Answers client.old.value client.new.value
        (Runs nothing_in (command.Session session told.Delete))
        (Tells result fault.old fault.new) }
{
    let mut connection = take(alloc, client);
    let answer = connection.drop_session(session);
    put(client, connection);
    tell(answer, fault)
}

/// Attaches a table, as `sqlite3session_attach`.
#[unsafe(no_mangle)]
pub extern "C" fn changecap_try_session_attach(
    alloc: Global,
    client: &mut ClientHandle,
    session: u64,
    table: &[u8],
    fault: &mut PlacedFault,
) -> u32
    requires opened { IsSome client.old.value }
    ensures attached { Answers client.old.value client.new.value (Attaches session table.now)
        (Tells result fault.old fault.new) }
{
    let mut connection = take(alloc, client);
    let answer = connection.attach(alloc, session, table);
    put(client, connection);
    tell(answer, fault)
}

/// Attaches every table of which a row changes from now on, as `sqlite3session_attach` without a name.
#[unsafe(no_mangle)]
pub extern "C" fn changecap_try_session_attach_all(
    alloc: Global,
    client: &mut ClientHandle,
    session: u64,
    fault: &mut PlacedFault,
) -> u32
    requires opened { IsSome client.old.value }
    ensures attached { Answers client.old.value client.new.value
        (Runs nothing_in (command.Session session (told.Change change.AttachAll)))
        (Tells result fault.old fault.new) }
{
    let mut connection = take(alloc, client);
    let answer = connection.attach_all(session);
    put(client, connection);
    tell(answer, fault)
}

/// Attaches from now on each table of which a row changes and whose name the filter accepts, as
/// `sqlite3session_table_filter`.
#[unsafe(no_mangle)]
pub extern "C" fn changecap_try_session_filter(
    alloc: Global,
    client: &mut ClientHandle,
    session: u64,
    text: &[u8],
    fault: &mut PlacedFault,
) -> u32
    requires opened { IsSome client.old.value }
    ensures filtered { Answers client.old.value client.new.value (SetsFilter session text.now)
        (Tells result fault.old fault.new) }
{
    let mut connection = take(alloc, client);
    let answer = connection.set_filter(alloc, session, text);
    put(client, connection);
    tell(answer, fault)
}

/// Records how a table differs from the one of the same name in a saved database, as `sqlite3session_diff`.
#[unsafe(no_mangle)]
pub extern "C" fn changecap_try_session_diff(
    alloc: Global,
    client: &mut ClientHandle,
    session: u64,
    from: &[u8],
    table: &[u8],
    fault: &mut PlacedFault,
) -> u32
    requires opened { IsSome client.old.value }
    ensures compared { Answers client.old.value client.new.value (Diffs session from.now table.now)
        (Tells result fault.old fault.new) }
{
    let mut connection = take(alloc, client);
    let answer = connection.diff(alloc, session, from, table);
    put(client, connection);
    tell(answer, fault)
}

/// Enables or disables a session, or asks whether it is enabled, as `sqlite3session_enable`.
#[unsafe(no_mangle)]
pub extern "C" fn changecap_try_session_enable(
    alloc: Global,
    client: &mut ClientHandle,
    session: u64,
    asked: u32,
    flag: &mut u32,
    fault: &mut PlacedFault,
) -> u32
    requires opened { IsSome client.old.value }
    // A number that asks for nothing is misuse.
    ensures enabled { Answers client.old.value client.new.value
        (Given (asked_of asked)
        (λ value. Runs flag_in (command.Session session (told.Change (change.Enable value)))))
        (TellsFlag result flag.old flag.new fault.old fault.new) }
{
    let mut connection = take(alloc, client);
    let answer = enable(&mut connection, session, asked_of(asked));
    put(client, connection);
    tell_flag(answer, flag, fault)
}

fn enable(
    connection: &mut Connection,
    session: u64,
    asked: Option<Option<bool>>,
) -> Result<bool, Fault<ConnectionFault>>
    ensures { Given asked
        (λ value. Runs flag_in (command.Session session (told.Change (change.Enable value))))
        connection.old connection.new result }
{
    match asked {
        Some(value) => connection.enable(session, value),
        None => Err(Fault::Refused(ConnectionFault::Misuse)),
    }
}

/// Sets the indirect flag of a session, or asks for it, as `sqlite3session_indirect`.
#[unsafe(no_mangle)]
pub extern "C" fn changecap_try_session_indirect(
    alloc: Global,
    client: &mut ClientHandle,
    session: u64,
    asked: u32,
    flag: &mut u32,
    fault: &mut PlacedFault,
) -> u32
    requires opened { IsSome client.old.value }
    // A number that asks for nothing is misuse.
    ensures marked { Answers client.old.value client.new.value
        (Given (asked_of asked)
        (λ value. Runs flag_in (command.Session session (told.Change (change.Indirect value)))))
        (TellsFlag result flag.old flag.new fault.old fault.new) }
{
    let mut connection = take(alloc, client);
    let answer = indirect(&mut connection, session, asked_of(asked));
    put(client, connection);
    tell_flag(answer, flag, fault)
}

fn indirect(
    connection: &mut Connection,
    session: u64,
    asked: Option<Option<bool>>,
) -> Result<bool, Fault<ConnectionFault>>
    ensures { Given asked
        (λ value. Runs flag_in (command.Session session (told.Change (change.Indirect value))))
        connection.old connection.new result }
{
    match asked {
        Some(value) => connection.indirect(session, value),
        None => Err(Fault::Refused(ConnectionFault::Misuse)),
    }
}

/// Whether a session has no records, as `sqlite3session_isempty`.
#[unsafe(no_mangle)]
pub extern "C" fn changecap_try_session_isempty(
    alloc: Global,
    client: &mut ClientHandle,
    session: u64,
    flag: &mut u32,
    fault: &mut PlacedFault,
) -> u32
    requires opened { IsSome client.old.value }
    ensures asked { Answers client.old.value client.new.value
        (Runs flag_in (command.Session session told.IsEmpty))
        (TellsFlag result flag.old flag.new fault.old fault.new) }
{
    let mut connection = take(alloc, client);
    let answer = connection.is_empty(session);
    put(client, connection);
    tell_flag(answer, flag, fault)
}
