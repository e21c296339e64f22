//! Captures a session on a server, and applies the bytes of the capture to another database.
ghost use Rattle.std.specs.Prelude.{◌≡◌, IfErr, IfOk, MatchOption, Ok};
ghost use Rattle.cap_value.specs.Memory.{AnswersUnlessMemory};
ghost use Rattle.cap_apply.specs.Apply.{apply};
ghost use Rattle.cap_codec.specs.BlobReading.{blob_at};
ghost use Rattle.cap_codec.specs.declared.read.Contents.{Contents};
ghost use Rattle.cap_core.specs.declared.reply.Reply.{Reply};
ghost use Rattle.cap_test_replicas.specs.Replica.{Explains, IsNoCapture, IsReplicated, bytes_in};

use cap_apply::{Applied, Policy, apply};
use cap_codec::read_blob;
use cap_core::{Capture, Command, Reply, SessionCommand};
use cap_core_laws::a_capture_is_writable;
use cap_database::Database;
use cap_locked::CallFault;
use cap_server::{Naming, Seat, Server};
use cap_value::{AllocHandle, Fault, OutOfMemory, Refusal};
use std::sync::Wait;

/// Which bytes of a capture are applied.
#[derive(Clone, Copy, Debug, PartialEq, Eq, Drop)]
pub enum Form {
    /// Those of its changeset.
    Changeset,
    /// Those of its patchset.
    Patchset,
}

/// Why there is no replica.
#[derive(Clone, Copy, Debug, PartialEq, Eq, Drop)]
pub enum NotReplicated {
    /// The server's call has no reply.
    Call(CallFault),
    /// No live session has the number.
    NoCapture,
    /// The changes conflict with the rows of the replica, which does not hold the first images.
    NotApplied(Refusal),
    /// Out of memory.
    OutOfMemory,
}

/// Captures a session through a seat, and applies the bytes of the capture to a replica, under any policy.
///
/// Whatever the schedule, the capture is the sequential server's at one point of one growing history. Where
/// the replica holds the first images, it then has the rows at that point.
pub fn replicate<J: Naming, A: AllocHandle, R: Wait>(
    rt: &R,
    alloc: A,
    server: &Server<J, A>,
    seat: &mut Seat<J, A>,
    session: u64,
    form: Form,
    policy: Policy,
    replica: &Database<A>,
) -> Result<Applied<A>, NotReplicated>
    ensures replicated { IfOk result (IsReplicated seat.old seat.new session replica.now) }
    ensures explained { IfErr result (λ why. Explains why seat.old seat.new session replica.now) }
{
    cap_core::laws::legal_histories_grow::<A>();
    cap_core::laws::legal_histories_were_legal::<A>();
    cap_core::laws::fitting_histories_grow::<A>();
    cap_core_laws::laws::bytes_of_a_capture_give_the_rows_now::<A>();
    cap_core_laws::laws::database_rises(replica);
    let command = Command::Session {
        session,
        command: SessionCommand::Capture,
    };
    let reply = match server.call(rt, seat, &command) {
        Ok(reply) => reply,
        Err(fault) => return Err(NotReplicated::Call(fault)),
    };
    let Some(capture) = captured(reply) else {
        return Err(NotReplicated::NoCapture);
    };
    match a_capture_is_writable(&capture, alloc) {
        Ok(()) => {}
        Err(_) => return Err(NotReplicated::OutOfMemory),
    }
    match carry(alloc, &capture, form, policy, replica) {
        Ok(applied) => Ok(applied),
        Err(Fault::Refused(why)) => Err(NotReplicated::NotApplied(why)),
        Err(Fault::OutOfMemory) => Err(NotReplicated::OutOfMemory),
    }
}

// The capture that a reply is, if it is one.
fn captured<A: AllocHandle>(reply: Reply<A>) -> Option<Capture<A>>
    ensures { MatchOption result (IsNoCapture reply) (λ capture. reply ≡ Reply.Capture capture) }
{
    match reply {
        Reply::Capture(capture) => Some(capture),
        _ => None,
    }
}

// Writes the capture, reads the bytes, and applies what was read.
fn carry<A: AllocHandle>(
    alloc: A,
    capture: &Capture<A>,
    form: Form,
    policy: Policy,
    replica: &Database<A>,
) -> Result<Applied<A>, Fault<Refusal>>
    requires reads { (blob : Contents A) × (blob_at (bytes_in form capture.now.changes) ≡ Ok blob) }
    ensures { (blob : Contents A) → blob_at (bytes_in form capture.now.changes) ≡ Ok blob
        → AnswersUnlessMemory result (apply replica.now blob policy) }
{
    let bytes = bytes_in(alloc, capture, form)?;
    match read_blob(alloc, bytes.as_slice()) {
        Ok(blob) => apply(alloc, replica, &blob, policy),
        Err(Fault::OutOfMemory) => Err(Fault::OutOfMemory),
        Err(Fault::Refused(_)) => unreachable!(),
    }
}

fn bytes_in<A: AllocHandle>(
    alloc: A,
    capture: &Capture<A>,
    form: Form,
) -> Result<Vec<u8, A>, OutOfMemory>
    ensures { IfOk result (λ bytes. bytes.items ≡ bytes_in form capture.now.changes) }
{
    match form {
        Form::Changeset => capture.changeset(alloc),
        Form::Patchset => capture.patchset(alloc),
    }
}
