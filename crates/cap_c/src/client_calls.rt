//! The calls that open and end a client, see what others did, and give a command as text.
ghost use Rattle.std.specs.Prelude.{◌≡◌, IsSome, None, Some};
ghost use Rattle.cap_connection.specs.Clients.{Looks, Meets, Opens as IsFirst};
ghost use Rattle.cap_connection.specs.TextCall.{CallsText};
ghost use Rattle.cap_c.specs.Client.{Closes, IsOfOne, Joins, Tallies};
ghost use Rattle.cap_c.specs.Handle.{Between, Keeps, OpensAs};
ghost use Rattle.cap_c.specs.Outputs.{OutputsBytes};
ghost use Rattle.cap_c.specs.Answered.{Answers, TellsText};
ghost use Rattle.cap_c.specs.declared.status.TheConstants.{NOMEM, OK};

use crate::answered::{join_status, tell_text};
use crate::client_handle::{ClientHandle, put, take};
use crate::fault::PlacedFault;
use crate::output::write_bytes;
use crate::status::{BUSY, NOMEM, OK};
use cap_connection::Connection;
use std::alloc::Global;

/// Opens the first client of an empty history.
#[unsafe(no_mangle)]
pub extern "C" fn changecap_client_open(alloc: Global, client: &mut ClientHandle) -> u32
    requires closed { client.old.value ≡ None }
    ensures opened { OpensAs IsFirst result client.new.value }
{
    match Connection::open(alloc) {
        Ok(connection) => match Box::new(alloc, connection) {
            Ok(connection) => {
                put(client, connection);
                OK
            }
            Err(_) => NOMEM,
        },
        Err(_) => NOMEM,
    }
}

/// Opens a further client of the history of another one.
#[unsafe(no_mangle)]
pub extern "C" fn changecap_try_join(
    alloc: Global,
    client: &mut ClientHandle,
    other: &mut ClientHandle,
) -> u32
    requires closed { client.old.value ≡ None }
    requires opened { IsSome other.old.value }
    ensures joined { Keeps other.old.value other.new.value (λ had. Joins had result client.new.value) }
{
    let connection = take(alloc, other);
    let joined = connection.join(alloc);
    put(other, connection);
    match joined {
        Ok(made) => match Box::new(alloc, made) {
            Ok(made) => {
                put(client, made);
                OK
            }
            Err(unkept) => leave(unkept.value),
        },
        Err(why) => join_status(why),
    }
}

// A client that has no handle gives its seat back.
fn leave(made: Connection) -> u32
    ensures { result ≡ NOMEM }
{
    drop(made.close());
    NOMEM
}

/// Ends a client, and gives its seat back. Where another call has the state the client stays open, unless
/// there is no memory to keep it.
#[unsafe(no_mangle)]
pub extern "C" fn changecap_try_close(alloc: Global, client: &mut ClientHandle) -> u32
    requires opened { IsSome client.old.value }
    ensures closed { Closes client.old.value client.new.value result }
{
    let connection = Box::into_inner(take(alloc, client));
    match connection.close() {
        Ok(()) => OK,
        Err(connection) => keep(alloc, client, connection),
    }
}

// A client that is busy stays open.
fn keep(alloc: Global, client: &mut ClientHandle, connection: Connection) -> u32
    requires closed { client.old.value ≡ None }
    ensures kept { Closes (Some connection) client.new.value result }
{
    match Box::new(alloc, connection) {
        Ok(connection) => {
            put(client, connection);
            BUSY
        }
        Err(unkept) => leave(unkept.value),
    }
}

/// Sees the whole history, and sets `events` to the number of its events.
#[unsafe(no_mangle)]
pub extern "C" fn changecap_front(alloc: Global, client: &mut ClientHandle, events: &mut u64) -> u32
    requires opened { IsSome client.old.value }
    ensures seen { Between client.old.value client.new.value (λ old new. Looks old new events.new) }
    ensures status { result ≡ OK }
{
    let mut connection = take(alloc, client);
    *events = connection.front();
    put(client, connection);
    OK
}

/// Sets `events` to the number of events that the client has seen.
#[unsafe(no_mangle)]
pub extern "C" fn changecap_seen(alloc: Global, client: &mut ClientHandle, events: &mut u64) -> u32
    requires opened { IsSome client.old.value }
    ensures outputs { Keeps client.old.value client.new.value (λ had. Tallies had events.new) }
    ensures status { result ≡ OK }
{
    let connection = take(alloc, client);
    *events = connection.seen();
    put(client, connection);
    OK
}

/// Sees what another client of the history has seen.
#[unsafe(no_mangle)]
pub extern "C" fn changecap_client_meet(
    alloc: Global,
    client: &mut ClientHandle,
    other: &mut ClientHandle,
) -> u32
    requires opened { IsSome client.old.value }
    requires beside { IsSome other.old.value }
    requires history { Between client.old.value other.old.value IsOfOne }
    ensures met { Keeps other.old.value other.new.value
        (λ had. Between client.old.value client.new.value (λ old new. Meets old had new)) }
    ensures status { result ≡ OK }
{
    let mut connection = take(alloc, client);
    let met = take(alloc, other);
    connection.meet(&met);
    put(other, met);
    put(client, connection);
    OK
}

/// Carries out the command that the text is, and keeps the text of its reply.
#[unsafe(no_mangle)]
pub extern "C" fn changecap_try_call(
    alloc: Global,
    client: &mut ClientHandle,
    text: &[u8],
    fault: &mut PlacedFault,
) -> u32
    requires opened { IsSome client.old.value }
    ensures called { Answers client.old.value client.new.value (CallsText text.now)
        (TellsText result fault.old fault.new) }
{
    let mut connection = take(alloc, client);
    let answer = connection.call(alloc, text);
    put(client, connection);
    tell_text(answer, fault)
}

/// Writes the text of the last reply to a command as text.
#[unsafe(no_mangle)]
pub extern "C" fn changecap_reply(
    alloc: Global,
    client: &mut ClientHandle,
    out: &mut [u8],
    len: &mut usize,
) -> u32
    requires opened { IsSome client.old.value }
    ensures outputs { Keeps client.old.value client.new.value
        (λ had. OutputsBytes (Some had.output) result out.old out.new len.old len.new) }
{
    let connection = take(alloc, client);
    let status = write_bytes(connection.reply_text(), out, len);
    put(client, connection);
    status
}
