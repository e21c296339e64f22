//! A session that is captured in two parts, and as a whole.
ghost use Rattle.std.specs.Prelude.{◌≡◌, ℕ, Bool, List, Ok, [], ◌∷◌, ◌++◌, IfOk, IfSome};
ghost use Rattle.std.specs.Prelude.{length};
ghost use Rattle.std.specs.Option.{IfNone};
ghost use Rattle.std.specs.Result.{result_ok};
ghost use Rattle.cap_codec.specs.BlobReading.{blob_at};
ghost use Rattle.cap_codec.specs.Changeset.{list_bytes};
ghost use Rattle.cap_group.specs.ChangeGroup.{concat_of};
ghost use Rattle.cap_core.specs.declared.event.Event.{Event};
ghost use Rattle.cap_core.specs.declared.reply.Reply.TheVariants as reply;
ghost use Rattle.cap_core.specs.Answer.{State, event_by};
ghost use Rattle.cap_core.specs.Capture.{CaptureState};
ghost use Rattle.cap_core.specs.Past.{HasRoom};
ghost use Rattle.cap_captures.specs.Parts.{AreAccepted, CanBeInParts, IsCapture, IsCommit, IsInParts};
ghost use Rattle.cap_captures.specs.Parts.{IsLeftBy, MadeWhere, capturing, enabling, restarting};

use crate::laws;
use cap_codec::{Contents, read_blob};
use cap_core::{Capture, Command, Core, EVENTS_MAX, Reply, SessionCommand};
use cap_core_laws::a_capture_is_writable;
use cap_group::concat;
use cap_session::SessionChange;
use cap_value::{AllocHandle, Fault, OutOfMemory};

// A server after a command, and the reply to it.
#[derive(Drop)]
struct Answered<A: AllocHandle> {
    core: Core<A>,
    reply: Reply<A>,
}

// A server after a restart or a capture of a session, and what was captured.
#[derive(Drop)]
struct Part<A: AllocHandle> {
    core: Core<A>,
    capture: Capture<A>,
}

/// The changes of two commits, captured in two parts and as a whole.
#[derive(Drop)]
pub struct InParts<A: AllocHandle> {
    /// The concatenation of the two captures.
    pub together: Contents<A>,
    /// The one capture.
    pub whole: Capture<A>,
}

/// Enables a session of a server and restarts it. From there each of two commits is carried out, and the
/// session restarted after it, which gives two captures. In place of that each is carried out, and the
/// session captured after it, and then once more, which gives the whole. `None` where there is no such
/// session, where a command is no commit, where the first is refused, or the second after it, and where the
/// history has no room for seven more events. The server does not change.
pub fn captured_in_two_parts<A: AllocHandle>(
    alloc: A,
    core: &Core<A>,
    session: u64,
    first: &Command<A>,
    second: &Command<A>,
) -> Result<Option<InParts<A>>, OutOfMemory>
    ensures parts { (h : List (Event A)) → IsLeftBy h core.now →
        IfOk result (λ made. IfSome made (IsInParts h session first.now second.now)) }
    ensures none { (h : List (Event A)) → IsLeftBy h core.now →
        IfOk result (λ made. IfNone made (CanBeInParts h session first.now second.now → ⊥)) }
{
    cap_core_laws::laws::bytes_of_a_capture_give_the_rows_now::<A>();
    laws::captures_in_a_row_are_the_one_capture::<A>();
    laws::the_concatenation_applies_as_its_captures::<A>();
    laws::the_one_capture_is_without_restarts::<A>();
    let Some(start) = enabled(core, session)? else {
        return Ok(None);
    };
    let Some(one) = restarted_part(&start, session, first)? else {
        return Ok(None);
    };
    let Some(two) = restarted_part(&one.core, session, second)? else {
        return Ok(None);
    };
    let Some(whole) = captured_whole(&start, session, first, second)? else {
        return Ok(None);
    };
    a_capture_is_writable(&one.capture, alloc)?;
    a_capture_is_writable(&two.capture, alloc)?;
    match concatenated(alloc, &one.capture, &two.capture)? {
        Some(together) => Ok(Some(InParts { together, whole })),
        None => Ok(None),
    }
}

// The reply to a command, unless the history is full.
fn answered_by<A: AllocHandle>(
    core: &Core<A>,
    command: &Command<A>,
) -> Result<Option<Answered<A>>, OutOfMemory>
    ensures { IfOk result (λ made. (h : List (Event A)) → IsLeftBy h core.now →
        MadeWhere (HasRoom (length h)) made
        (λ a. IsLeftBy (h ++ event_by 0 command.now a.reply ∷ []) a.core)) }
{
    if core.events() >= EVENTS_MAX {
        return Ok(None);
    }
    let (core, reply) = core.prepare(command)?;
    Ok(Some(Answered { core, reply }))
}

// `answered_by` for an owned command.
fn carried_out<A: AllocHandle>(
    core: &Core<A>,
    command: Command<A>,
) -> Result<Option<Answered<A>>, OutOfMemory>
    ensures { IfOk result (λ made. (h : List (Event A)) → IsLeftBy h core.now →
        MadeWhere (HasRoom (length h)) made
        (λ a. IsLeftBy (h ++ event_by 0 command a.reply ∷ []) a.core)) }
{
    answered_by(core, &command)
}

// Carries out a capture or a restart of a session.
fn captured_by<A: AllocHandle>(
    core: &Core<A>,
    command: Command<A>,
) -> Result<Option<Part<A>>, OutOfMemory>
    ensures { IfOk result (λ made. IsCapture command → (h : List (Event A)) → IsLeftBy h core.now →
        MadeWhere (AreAccepted h (command ∷ [])) made
        (λ p. IsLeftBy (h ++ event_by 0 command (reply.Capture p.capture) ∷ []) p.core)) }
{
    let Some(Answered { core, reply }) = carried_out(core, command)? else {
        return Ok(None);
    };
    match reply {
        Reply::Capture(capture) => Ok(Some(Part { core, capture })),
        _ => Ok(None),
    }
}

// Enables a session.
fn switched_on<A: AllocHandle>(core: &Core<A>, session: u64) -> Result<Option<Core<A>>, OutOfMemory>
    ensures { IfOk result (λ made. (h : List (Event A)) → IsLeftBy h core.now →
        MadeWhere (AreAccepted h (enabling session ∷ [])) made (λ left. (flag : Bool)
        × IsLeftBy (h ++ event_by 0 (enabling session) (reply.Flag flag) ∷ []) left)) }
{
    let command = SessionCommand::Change(SessionChange::Enable(Some(true)));
    let command = Command::Session { session, command };
    let Some(Answered { core, reply }) = carried_out(core, command)? else {
        return Ok(None);
    };
    match reply {
        Reply::Flag(_) => Ok(Some(core)),
        _ => Ok(None),
    }
}

// Carries out a commit.
fn committed<A: AllocHandle>(
    core: &Core<A>,
    commit: &Command<A>,
) -> Result<Option<Core<A>>, OutOfMemory>
    ensures { IfOk result (λ made. (h : List (Event A)) → IsLeftBy h core.now →
        MadeWhere (IsCommit commit.now × AreAccepted h (commit.now ∷ [])) made (λ left. (version : ℕ)
        × IsLeftBy (h ++ event_by 0 commit.now (reply.Written version) ∷ []) left)) }
{
    match commit {
        Command::Commit(_) => {}
        _ => return Ok(None),
    }
    let Some(Answered { core, reply }) = answered_by(core, commit)? else {
        return Ok(None);
    };
    match reply {
        Reply::Written { version: _ } => Ok(Some(core)),
        _ => Ok(None),
    }
}

// Enables a session and restarts it.
fn enabled<A: AllocHandle>(core: &Core<A>, session: u64) -> Result<Option<Core<A>>, OutOfMemory>
    ensures { IfOk result (λ made. (h : List (Event A)) → IsLeftBy h core.now → MadeWhere
        (AreAccepted h (enabling session ∷ restarting session ∷ [])) made
        (λ left. (flag : Bool) × (old : CaptureState A)
        × IsLeftBy ((h ++ event_by 0 (enabling session) (reply.Flag flag) ∷ [])
        ++ event_by 0 (restarting session) (reply.Capture old) ∷ []) left)) }
{
    let Some(core) = switched_on(core, session)? else {
        return Ok(None);
    };
    let command = SessionCommand::Change(SessionChange::Restart);
    match captured_by(&core, Command::Session { session, command })? {
        Some(Part { core, capture: _ }) => Ok(Some(core)),
        None => Ok(None),
    }
}

// Carries out a commit, and restarts a session.
fn restarted_part<A: AllocHandle>(
    core: &Core<A>,
    session: u64,
    commit: &Command<A>,
) -> Result<Option<Part<A>>, OutOfMemory>
    ensures { IfOk result (λ made. (h : List (Event A)) → IsLeftBy h core.now → MadeWhere
        (IsCommit commit.now × AreAccepted h (commit.now ∷ restarting session ∷ [])) made
        (λ p. (version : ℕ) × IsLeftBy ((h ++ event_by 0 commit.now (reply.Written version) ∷ [])
        ++ event_by 0 (restarting session) (reply.Capture p.capture) ∷ []) p.core)) }
{
    match committed(core, commit)? {
        Some(core) => {
            let restart = SessionChange::Restart;
            let command = SessionCommand::Change(restart);
            captured_by(&core, Command::Session { session, command })
        }
        None => Ok(None),
    }
}

// Carries out a commit, and captures a session.
fn captured_part<A: AllocHandle>(
    core: &Core<A>,
    session: u64,
    commit: &Command<A>,
) -> Result<Option<Part<A>>, OutOfMemory>
    ensures { IfOk result (λ made. (h : List (Event A)) → IsLeftBy h core.now → MadeWhere
        (IsCommit commit.now × AreAccepted h (commit.now ∷ capturing session ∷ [])) made
        (λ p. (version : ℕ) × IsLeftBy ((h ++ event_by 0 commit.now (reply.Written version) ∷ [])
        ++ event_by 0 (capturing session) (reply.Capture p.capture) ∷ []) p.core)) }
{
    match committed(core, commit)? {
        Some(core) => {
            let command = SessionCommand::Capture;
            captured_by(&core, Command::Session { session, command })
        }
        None => Ok(None),
    }
}

// Carries out two commits, and captures a session after each, and then once more.
fn captured_whole<A: AllocHandle>(
    core: &Core<A>,
    session: u64,
    first: &Command<A>,
    second: &Command<A>,
) -> Result<Option<Capture<A>>, OutOfMemory>
    ensures { IfOk result (λ made. (h : List (Event A)) → IsLeftBy h core.now → MadeWhere
        ((IsCommit first.now × IsCommit second.now) × AreAccepted h (first.now ∷ capturing session
        ∷ second.now ∷ capturing session ∷ capturing session ∷ [])) made
        (λ whole. (one two : CaptureState A) × ((v w : ℕ) × (left : State A) × IsLeftBy (((((h
        ++ event_by 0 first.now (reply.Written v) ∷ [])
        ++ event_by 0 (capturing session) (reply.Capture one) ∷ [])
        ++ event_by 0 second.now (reply.Written w) ∷ [])
        ++ event_by 0 (capturing session) (reply.Capture two) ∷ [])
        ++ event_by 0 (capturing session) (reply.Capture whole) ∷ []) left))) }
{
    let Some(one) = captured_part(core, session, first)? else {
        return Ok(None);
    };
    let Some(two) = captured_part(&one.core, session, second)? else {
        return Ok(None);
    };
    let command = SessionCommand::Capture;
    match captured_by(&two.core, Command::Session { session, command })? {
        Some(Part { core: _, capture }) => Ok(Some(capture)),
        None => Ok(None),
    }
}

// The blob that the bytes of a capture spell.
fn read_back<A: AllocHandle>(
    alloc: A,
    capture: &Capture<A>,
) -> Result<Option<Contents<A>>, OutOfMemory>
    ensures { IfOk result (λ made. made ≡ result_ok (blob_at (list_bytes capture.now.changes))) }
{
    let bytes = capture.changeset(alloc)?;
    match read_blob(alloc, bytes.as_slice()) {
        Ok(blob) => Ok(Some(blob)),
        Err(Fault::OutOfMemory) => Err(OutOfMemory),
        Err(Fault::Refused(_)) => Ok(None),
    }
}

// The concatenation of two captures.
fn concatenated<A: AllocHandle>(
    alloc: A,
    first: &Capture<A>,
    second: &Capture<A>,
) -> Result<Option<Contents<A>>, OutOfMemory>
    ensures { (one two : Contents A) → blob_at (list_bytes first.now.changes) ≡ Ok one →
        blob_at (list_bytes second.now.changes) ≡ Ok two →
        IfOk result (λ made. made ≡ result_ok (concat_of (one ∷ two ∷ []))) }
{
    let Some(one) = read_back(alloc, first)? else {
        return Ok(None);
    };
    let Some(two) = read_back(alloc, second)? else {
        return Ok(None);
    };
    match concat(alloc, &[one, two]) {
        Ok(blob) => Ok(Some(blob)),
        Err(Fault::OutOfMemory) => Err(OutOfMemory),
        Err(Fault::Refused(_)) => Ok(None),
    }
}
