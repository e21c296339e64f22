//! Synchronises a client with a hub.
ghost use Rattle.std.specs.Prelude.{◌≡◌, ℕ, Err, Ok, IfErr, IfOk, List, [], MatchOption, OnErr, reverse};
ghost use Rattle.cap_value.specs.declared.refusal.Refusal.{Refusal as Reason};
ghost use Rattle.cap_codec.specs.BlobReading.{blob_at};
ghost use Rattle.cap_codec.specs.Changeset.{list_bytes};
ghost use Rattle.cap_codec.specs.Writable.{IsWritable};
ghost use Rattle.cap_codec.specs.declared.read.Contents.TheVariants.{Changes};
ghost use Rattle.cap_apply.specs.Apply.{apply};
ghost use Rattle.cap_apply.specs.declared.policy.Policy.{Policy as AppliedPolicy};
ghost use Rattle.cap_core.specs.declared.command.Command.TheVariants as command;
ghost use Rattle.cap_core.specs.declared.event.Event.{Event};
ghost use Rattle.cap_core.specs.declared.reply.Reply.TheVariants as reply;
ghost use Rattle.cap_core.specs.Past.{HasRoom};
ghost use Rattle.cap_captures.specs.Parts.{IsLeftBy, capturing, restarting};
ghost use Rattle.cap_test_convergence.specs.Steps.{Hinders, IsCarriedOut, IsExchanged, IsNoCapture, IsNotRebased};
ghost use Rattle.cap_test_convergence.specs.Steps.{IsRebased, IsUnreadable};
ghost use Rattle.cap_test_convergence.specs.Synchronised.{Explains, HaveOneBase, IsSynchronised};

use cap_apply::{Answer, Policy, Report};
use cap_changes::ChangeList;
use cap_codec::{Contents, read_blob, write_changes};
use cap_codec_laws::changes_are_writable;
use cap_core::{Capture, Command, Core, EVENTS_MAX, QuietSessions, Reply, SessionCommand};
use cap_core_laws::a_capture_is_writable;
use cap_rebase::{Rebaser, buffer_of};
use cap_session::SessionChange;
use cap_value::{AllocHandle, Fault, OutOfMemory, Refusal};

/// What a client and a hub exchanged.
#[derive(Drop)]
pub struct Synchronised<A: AllocHandle> {
    /// What became of the hub's changes at the client.
    pub report: Report<A>,
    /// The bytes of the client's changes, rebased, which the hub has applied.
    pub rebased: Vec<u8, A>,
}

/// Why a client and a hub are not synchronised.
#[derive(Clone, Copy, Debug, PartialEq, Eq, Drop)]
pub enum NotSynchronised {
    /// The client has no live session with the number.
    NoClientSession,
    /// The hub has no live session with the number.
    NoHubSession,
    /// The client refuses the hub's changes, by the policy.
    NotApplied(Refusal),
    /// The sessions do not begin from the same rows of the same tables.
    OtherBase,
    /// A history has no room for three more events.
    Full,
    /// Out of memory.
    OutOfMemory,
}

impl From<OutOfMemory> for NotSynchronised {
    ghost use Rattle.cap_test_convergence.specs.declared.synchronisation.NotSynchronised.TheVariants.{OutOfMemory};

    ghost from_gives = { λ _ why. why ≡ OutOfMemory };

    fn from(_error: OutOfMemory) -> Self {
        NotSynchronised::OutOfMemory
    }
}

// A server after a command, and the reply to it.
#[derive(Drop)]
struct Answered<A: AllocHandle> {
    core: Core<A>,
    reply: Reply<A>,
}

// A server after a capture or a restart of a session, and what was captured.
#[derive(Drop)]
struct CaptureTaken<A: AllocHandle> {
    core: Core<A>,
    capture: Capture<A>,
}

// A server after a changeset was applied, and the report.
#[derive(Drop)]
struct Received<A: AllocHandle> {
    core: Core<A>,
    report: Report<A>,
}

// What a synchronisation leaves of client and hub.
#[derive(Drop)]
struct BothLeft<A: AllocHandle> {
    client: Core<A>,
    hub: Core<A>,
    exchange: Synchronised<A>,
}

/// Synchronises a client with a hub, which has a session for this client. The client captures its session,
/// and the hub that one. The hub's changes go to the client as bytes, and are applied there under the policy.
/// The client's changes are rebased over those that met a conflict, go to the hub as bytes, and are applied
/// there. Then both sessions are restarted, so that they have nothing of what was exchanged.
///
/// Both then have the same rows, and may synchronise again. On an error neither has changed.
pub fn synchronise<A: AllocHandle>(
    alloc: A,
    client: &mut Core<A>,
    client_session: u64,
    hub: &mut Core<A>,
    hub_session: u64,
    policy: Policy,
) -> Result<Synchronised<A>, NotSynchronised>
    ensures synchronised { (c h : List (Event A)) → IsLeftBy c client.old → IsLeftBy h hub.old →
        HaveOneBase client_session (reverse c) hub_session (reverse h) → IfOk result
        (IsSynchronised c client_session h hub_session policy client.new hub.new) }
    ensures explained { (c h : List (Event A)) → IsLeftBy c client.old → IsLeftBy h hub.old →
        HaveOneBase client_session (reverse c) hub_session (reverse h) → IfErr result
        (λ why. Explains why client.old client_session hub.old hub_session policy) }
    ensures kept { OnErr result ((client.new ≡ client.old) × (hub.new ≡ hub.old)) }
{
    cap_convergence::laws::a_rebased_changeset_leads_from_the_hub_to_the_client::<A>();
    cap_apply::laws::applied_blobs_keep_columns::<A>();
    cap_apply::laws::applied_blobs_keep_order::<A>();
    cap_core_laws::laws::bytes_of_a_capture_give_the_rows_now::<A>();
    cap_database::laws::tables_keep_columns::<A>();
    cap_database::laws::tables_keep_order::<A>();
    let made = exchanged(alloc, client, client_session, hub, hub_session, policy)?;
    *client = made.client;
    *hub = made.hub;
    Ok(made.exchange)
}

// The servers after they have exchanged their changes.
fn exchanged<A: AllocHandle>(
    alloc: A,
    client: &Core<A>,
    client_session: u64,
    hub: &Core<A>,
    hub_session: u64,
    policy: Policy,
) -> Result<BothLeft<A>, NotSynchronised>
    ensures exchanged { IfOk result (λ made. IsExchanged client.now client_session hub.now hub_session
        policy made.client made.hub made.exchange) }
    ensures explained { (c h : List (Event A)) → IsLeftBy c client.now → IsLeftBy h hub.now →
        HaveOneBase client_session (reverse c) hub_session (reverse h) → IfErr result
        (λ why. Explains why client.now client_session hub.now hub_session policy) }
{
    cap_convergence::laws::a_rebased_changeset_leads_from_the_hub_to_the_client::<A>();
    cap_apply::laws::applied_blobs_keep_columns::<A>();
    cap_apply::laws::applied_blobs_keep_order::<A>();
    cap_core_laws::laws::bytes_of_a_capture_give_the_rows_now::<A>();
    cap_database::laws::tables_keep_columns::<A>();
    cap_database::laws::tables_keep_order::<A>();
    let Some(local) = captured(client, client_session)? else {
        return Err(NotSynchronised::NoClientSession);
    };
    let Some(remote) = captured(hub, hub_session)? else {
        return Err(NotSynchronised::NoHubSession);
    };
    let sent = sent_by(alloc, &remote.capture)?;
    let changes = read_changes(alloc, sent.as_slice())?;
    let received = applied_at(alloc, &local.core, changes, policy)?;
    let rebased = rebased_over(alloc, &local.capture, sent.as_slice(), &received.report)?;
    let made = applied_at_hub(
        alloc,
        &remote.core,
        read_changes(alloc, rebased.as_slice())?,
    )?;
    let client_left = restarted(&received.core, client_session)?;
    let hub_left = restarted(&made.core, hub_session)?;
    Ok(BothLeft {
        client: client_left.core,
        hub: hub_left.core,
        exchange: Synchronised {
            report: received.report,
            rebased,
        },
    })
}

// The reply to a command, and the server after it.
fn carried_out<A: AllocHandle>(
    core: &Core<A>,
    command: Command<A>,
) -> Result<Answered<A>, NotSynchronised>
    ensures step { IfOk result (λ made. IsCarriedOut core.now command made.reply made.core) }
    ensures hindered { IfErr result (Hinders (HasRoom core.now.events → ⊥) (λ _. ⊥) ⊥) }
{
    if core.events() >= EVENTS_MAX {
        return Err(NotSynchronised::Full);
    }
    command.blob_fits();
    let (core, reply) = core.prepare(&command)?;
    Ok(Answered { core, reply })
}

// A capture or a restart of a session; none where the reply is no capture.
fn captured_by<A: AllocHandle>(
    core: &Core<A>,
    command: Command<A>,
) -> Result<Option<CaptureTaken<A>>, NotSynchronised>
    ensures step { IfOk result (λ made. MatchOption made (IsNoCapture core.now command)
        (λ taken. IsCarriedOut core.now command (reply.Capture taken.capture) taken.core)) }
    ensures hindered { IfErr result (Hinders (HasRoom core.now.events → ⊥) (λ _. ⊥) ⊥) }
{
    let Answered { core, reply } = carried_out(core, command)?;
    match reply {
        Reply::Capture(capture) => Ok(Some(CaptureTaken { core, capture })),
        _ => Ok(None),
    }
}

fn captured<A: AllocHandle>(
    core: &Core<A>,
    session: u64,
) -> Result<Option<CaptureTaken<A>>, NotSynchronised>
    ensures step { IfOk result (λ made. MatchOption made (IsNoCapture core.now (capturing session))
        (λ taken. IsCarriedOut core.now (capturing session) (reply.Capture taken.capture) taken.core)) }
    ensures hindered { IfErr result (Hinders (HasRoom core.now.events → ⊥) (λ _. ⊥) ⊥) }
{
    let command = SessionCommand::Capture;
    captured_by(core, Command::Session { session, command })
}

fn restarted<A: AllocHandle>(
    core: &Core<A>,
    session: u64,
) -> Result<CaptureTaken<A>, NotSynchronised>
    ensures step { IfOk result (λ taken.
        IsCarriedOut core.now (restarting session) (reply.Capture taken.capture) taken.core) }
    ensures hindered { IfErr result (Hinders (HasRoom core.now.events → ⊥) (λ _. ⊥)
        (IsNoCapture core.now (restarting session))) }
{
    let command = SessionCommand::Change(SessionChange::Restart);
    match captured_by(core, Command::Session { session, command })? {
        Some(taken) => Ok(taken),
        None => Err(NotSynchronised::OtherBase),
    }
}

// The bytes of a capture.
fn sent_by<A: AllocHandle>(alloc: A, capture: &Capture<A>) -> Result<Vec<u8, A>, NotSynchronised>
    ensures bytes { IfOk result (λ bytes. bytes.items ≡ list_bytes capture.now.changes) }
    ensures writable { IfOk result (λ bytes. IsWritable (Changes capture.now.changes)) }
    ensures hindered { IfErr result (Hinders ⊥ (λ _. ⊥) ⊥) }
{
    a_capture_is_writable(capture, alloc)?;
    Ok(capture.changeset(alloc)?)
}

// The changeset with these bytes.
fn read_changes<A: AllocHandle>(alloc: A, bytes: &[u8]) -> Result<ChangeList<A>, NotSynchronised>
    ensures read { IfOk result (λ list. blob_at bytes.now ≡ Ok (Changes list)) }
    ensures hindered { IfErr result (Hinders ⊥ (λ _. ⊥) (IsUnreadable A bytes.now)) }
{
    match read_blob(alloc, bytes) {
        Ok(Contents::Changes(list)) => Ok(list),
        Err(Fault::OutOfMemory) => Err(NotSynchronised::OutOfMemory),
        _ => Err(NotSynchronised::OtherBase),
    }
}

// A changeset is applied.
fn applied_at<A: AllocHandle>(
    alloc: A,
    core: &Core<A>,
    list: ChangeList<A>,
    policy: Policy,
) -> Result<Received<A>, NotSynchronised>
    ensures step { IfOk result (λ made. (version : ℕ) × IsCarriedOut core.now
        (command.Apply (Changes list) policy []) (reply.Applied version made.report) made.core) }
    ensures hindered { IfErr result (Hinders (HasRoom core.now.events → ⊥)
        (λ why. apply core.now.main (Changes list) policy ≡ Err why) ⊥) }
{
    let command = Command::Apply {
        blob: Contents::Changes(list),
        policy,
        quiet: QuietSessions::none(alloc),
    };
    let Answered { core, reply } = carried_out(core, command)?;
    match reply {
        Reply::Applied {
            version: _version,
            report,
        } => Ok(Received { core, report }),
        Reply::Refused { at: _at, why } => Err(NotSynchronised::NotApplied(why)),
        _ => Err(NotSynchronised::OtherBase),
    }
}

// The rebased changes are applied at the hub, without a conflict.
fn applied_at_hub<A: AllocHandle>(
    alloc: A,
    core: &Core<A>,
    list: ChangeList<A>,
) -> Result<Received<A>, NotSynchronised>
    ensures step { IfOk result (λ made. (policy : AppliedPolicy) × (version : ℕ)
        × IsCarriedOut core.now (command.Apply (Changes list) policy [])
        (reply.Applied version made.report) made.core) }
    ensures hindered { IfErr result (Hinders (HasRoom core.now.events → ⊥) (λ _. ⊥)
        ((policy : AppliedPolicy) × (why : Reason) × (apply core.now.main (Changes list) policy ≡ Err why))) }
{
    let policy = Policy {
        on_data: Answer::Abort,
        on_notfound: Answer::Abort,
        on_conflict: Answer::Abort,
    };
    match applied_at(alloc, core, list, policy) {
        Ok(made) => Ok(made),
        Err(NotSynchronised::NotApplied(_)) => Err(NotSynchronised::OtherBase),
        Err(why) => Err(why),
    }
}

// The bytes of the captured changes, rebased over those of the remote changeset that met a conflict.
fn rebased_over<A: AllocHandle>(
    alloc: A,
    capture: &Capture<A>,
    remote: &[u8],
    report: &Report<A>,
) -> Result<Vec<u8, A>, NotSynchronised>
    ensures rebased { IfOk result (λ bytes.
        IsRebased remote.now report.now.conflicts capture.now.changes bytes.items) }
    ensures hindered { IfErr result (Hinders ⊥ (λ _. ⊥)
        (IsNotRebased remote.now report.now.conflicts capture.now.changes)) }
{
    let local = capture.changes(alloc)?;
    changes_are_writable(&local);
    let remote = read_changes(alloc, remote)?;
    let buffer = buffer_of(alloc, &remote, report.conflicts())?;
    let mut rebaser = Rebaser::new(alloc);
    match rebaser.configure(buffer) {
        Ok(()) => {}
        Err(Fault::Refused(_)) => return Err(NotSynchronised::OtherBase),
        Err(Fault::OutOfMemory) => return Err(NotSynchronised::OutOfMemory),
    }
    match rebaser.rebase(&local) {
        Ok(list) => {
            changes_are_writable(&list);
            Ok(write_changes(alloc, &list)?)
        }
        Err(Fault::Refused(_)) => Err(NotSynchronised::OtherBase),
        Err(Fault::OutOfMemory) => Err(NotSynchronised::OutOfMemory),
    }
}
