//! The calls that capture what a session has recorded, and write a capture.
ghost use Rattle.std.specs.Prelude.{◌≡◌, ◌⊎◌, IfOk, IsSome, None};
ghost use Rattle.std.specs.Option.{option_map};
ghost use Rattle.cap_core.specs.declared.command.Command.TheVariants as command;
ghost use Rattle.cap_core.specs.declared.session_command.SessionCommand.TheVariants as told;
ghost use Rattle.cap_session.specs.declared.session_change.SessionChange.TheVariants as change;
ghost use Rattle.cap_connection.specs.Calls.{Captures};
ghost use Rattle.cap_connection.specs.Replies.{captured_bytes};
ghost use Rattle.cap_connection.specs.declared.captured.CaptureKind.TheVariants.{Changeset, Patchset};
ghost use Rattle.cap_c.specs.Answered.{Answers, TellsOpened};
ghost use Rattle.cap_c.specs.Captured.{capture_command};
ghost use Rattle.cap_c.specs.Handle.{Keeps, LacksMemory};
ghost use Rattle.cap_c.specs.Numbers.{key_flags_of};
ghost use Rattle.cap_c.specs.Outputs.{OutputsMade};

use crate::answered::{fault_output, fault_status};
use crate::capture_handle::{self, CaptureHandle};
use crate::client_handle::{ClientHandle, put, take};
use crate::fault::PlacedFault;
use crate::held::HeldCapture;
use crate::numbers::key_flags_of;
use crate::output::write_made;
use crate::status::{MISUSE, NOMEM, OK};
use cap_codec::KeyFlags;
use cap_connection::{CaptureKind, Captured, ConnectionFault};
use cap_value::{Fault, OutOfMemory};
use std::alloc::Global;

/// Opens a capture of what a session has recorded.
#[unsafe(no_mangle)]
pub extern "C" fn changecap_try_session_capture(
    alloc: Global,
    client: &mut ClientHandle,
    session: u64,
    capture: &mut CaptureHandle,
    fault: &mut PlacedFault,
) -> u32
    requires opened { IsSome client.old.value }
    requires closed { capture.old.value ≡ None }
    ensures captured { Answers client.old.value client.new.value
        (Captures (command.Session session told.Capture))
        (TellsOpened result capture.new.value fault.old fault.new)
        ⊎ (LacksMemory client.old.value client.new.value capture.new.value result
        × (fault.new ≡ fault.old)) }
{
    match Box::new(alloc, HeldCapture { captured: None }) {
        Ok(room) => capture_in(alloc, client, session, false, room, capture, fault),
        Err(_) => NOMEM,
    }
}

/// The same, and deletes the session's records then.
#[unsafe(no_mangle)]
pub extern "C" fn changecap_try_session_restart(
    alloc: Global,
    client: &mut ClientHandle,
    session: u64,
    capture: &mut CaptureHandle,
    fault: &mut PlacedFault,
) -> u32
    requires opened { IsSome client.old.value }
    requires closed { capture.old.value ≡ None }
    ensures restarted { Answers client.old.value client.new.value
        (Captures (command.Session session (told.Change change.Restart)))
        (TellsOpened result capture.new.value fault.old fault.new)
        ⊎ (LacksMemory client.old.value client.new.value capture.new.value result
        × (fault.new ≡ fault.old)) }
{
    match Box::new(alloc, HeldCapture { captured: None }) {
        Ok(room) => capture_in(alloc, client, session, true, room, capture, fault),
        Err(_) => NOMEM,
    }
}

// Memory for the capture is taken first, so that no capture is lost.
fn capture_in(
    alloc: Global,
    client: &mut ClientHandle,
    session: u64,
    restarts: bool,
    room: Box<HeldCapture>,
    capture: &mut CaptureHandle,
    fault: &mut PlacedFault,
) -> u32
    requires opened { IsSome client.old.value }
    requires closed { capture.old.value ≡ None }
    ensures captured { Answers client.old.value client.new.value
        (Captures (capture_command restarts session))
        (TellsOpened result capture.new.value fault.old fault.new) }
{
    let mut connection = take(alloc, client);
    let answer = if restarts {
        connection.restart(session)
    } else {
        connection.capture(session)
    };
    put(client, connection);
    tell_capture(answer, room, capture, fault)
}

// Opens the capture, or sets the fault.
fn tell_capture(
    answer: Result<Captured, Fault<ConnectionFault>>,
    mut room: Box<HeldCapture>,
    capture: &mut CaptureHandle,
    fault: &mut PlacedFault,
) -> u32
    requires closed { capture.old.value ≡ None }
    ensures { TellsOpened result capture.new.value fault.old fault.new answer }
{
    match answer {
        Ok(captured) => {
            room.captured = Some(captured);
            capture_handle::put(capture, room);
            OK
        }
        Err(why) => {
            *fault = fault_output(why, *fault);
            fault_status(why)
        }
    }
}

/// Sets `version` to that of the tables at the moment of the capture.
#[unsafe(no_mangle)]
pub extern "C" fn changecap_capture_version(
    alloc: Global,
    capture: &mut CaptureHandle,
    version: &mut u64,
) -> u32
    requires opened { IsSome capture.old.value }
    ensures status { result ≡ OK }
    ensures version { Keeps capture.old.value capture.new.value
        (λ captured. version.new ≡ captured.version) }
{
    let held = capture_handle::take(alloc, capture);
    *version = version_of(&held);
    capture_handle::put(capture, held);
    OK
}

fn version_of(held: &HeldCapture) -> u64
    ensures { result ≡ held.now.version }
{
    match &held.captured {
        Some(captured) => captured.version(),
        None => 0,
    }
}

/// Writes a capture as a changeset, as `sqlite3session_changeset`.
#[unsafe(no_mangle)]
pub extern "C" fn changecap_capture_changeset(
    alloc: Global,
    capture: &mut CaptureHandle,
    key_flags: u32,
    out: &mut [u8],
    len: &mut usize,
) -> u32
    requires opened { IsSome capture.old.value }
    // A number that names no key flags is misuse.
    ensures written { Keeps capture.old.value capture.new.value
        (λ captured. OutputsMade (option_map (λ flags. captured_bytes Changeset flags captured)
        (key_flags_of key_flags)) result out.old out.new len.old len.new) }
{
    let held = capture_handle::take(alloc, capture);
    let flags = key_flags_of(key_flags);
    let status = write(alloc, &held, CaptureKind::Changeset, flags, out, len);
    capture_handle::put(capture, held);
    status
}

/// Writes a capture as a patchset, as `sqlite3session_patchset`.
#[unsafe(no_mangle)]
pub extern "C" fn changecap_capture_patchset(
    alloc: Global,
    capture: &mut CaptureHandle,
    key_flags: u32,
    out: &mut [u8],
    len: &mut usize,
) -> u32
    requires opened { IsSome capture.old.value }
    // A number that names no key flags is misuse.
    ensures written { Keeps capture.old.value capture.new.value
        (λ captured. OutputsMade (option_map (λ flags. captured_bytes Patchset flags captured)
        (key_flags_of key_flags)) result out.old out.new len.old len.new) }
{
    let held = capture_handle::take(alloc, capture);
    let flags = key_flags_of(key_flags);
    let status = write(alloc, &held, CaptureKind::Patchset, flags, out, len);
    capture_handle::put(capture, held);
    status
}

fn write(
    alloc: Global,
    held: &HeldCapture,
    kind: CaptureKind,
    flags: Option<KeyFlags>,
    out: &mut [u8],
    len: &mut usize,
) -> u32
    ensures { OutputsMade (option_map (λ flags. captured_bytes kind flags held.now) flags) result out.old
        out.new len.old len.new }
{
    match flags {
        Some(flags) => write_made(bytes_of(alloc, held, kind, flags), out, len),
        None => MISUSE,
    }
}

fn bytes_of(
    alloc: Global,
    held: &HeldCapture,
    kind: CaptureKind,
    flags: KeyFlags,
) -> Result<Vec<u8, Global>, OutOfMemory>
    ensures { IfOk result (λ bytes. bytes.items ≡ captured_bytes kind flags held.now) }
{
    match &held.captured {
        Some(captured) => captured.bytes(alloc, kind, flags),
        None => Ok(Vec::new(alloc)),
    }
}

/// Closes a capture, and frees what it has.
#[unsafe(no_mangle)]
pub extern "C" fn changecap_capture_close(alloc: Global, capture: &mut CaptureHandle)
    requires opened { IsSome capture.old.value }
    ensures closed { capture.new.value ≡ None }
{
    drop(capture_handle::take(alloc, capture));
}
