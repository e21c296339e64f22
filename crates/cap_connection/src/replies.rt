//! What a reply has for the caller.
ghost use Rattle.std.specs.Prelude.{◌≡◌, [], Some};
ghost use Rattle.std.specs.Option.{option_map_or};
ghost use Rattle.cap_core.specs.Past.{is_accepted};
ghost use Rattle.cap_core.specs.RefusedFirst.{refusal_in};
ghost use Rattle.cap_core.specs.declared.reply.Reply.TheVariants as replied;
ghost use Rattle.cap_database.specs.Snapshot.{SnapshotState};
ghost use Rattle.cap_connection.specs.Replies.{applied_in, conflicts_in, flag_in, number_in, snapshot_in};

use cap_apply::Report;
use cap_core::Reply;
use cap_database::Snapshot;
use cap_value::Refusal;
use std::alloc::Global;

/// What became of a blob that was applied. A change that replaced a row in spite of a conflict is an applied
/// one.
#[derive(Clone, Copy, Debug, PartialEq, Eq, Drop)]
pub struct Applied {
    /// The new version.
    pub version: u64,
    /// How many changes were applied.
    pub applied: u64,
    /// How many conflicts there were.
    pub conflicts: u64,
    /// How many changes were omitted.
    pub omitted: u64,
    /// How many groups were skipped.
    pub skipped: u64,
}

/// Why the command is refused, and the number of the refused operation or change.
pub(crate) fn refusal_in(reply: &Reply<Global>) -> Option<(Option<u64>, Refusal)>
    ensures { result ≡ refusal_in reply.now }
{
    match reply {
        Reply::Refused { at, why } => Some((*at, *why)),
        _ => None,
    }
}

/// Whether the command is accepted.
pub(crate) fn is_accepted(reply: &Reply<Global>) -> bool
    ensures { result ≡ is_accepted reply.now }
{
    match reply {
        Reply::Refused { .. } => false,
        _ => true,
    }
}

/// The number of the version or the session that was made.
pub(crate) fn number_in(reply: &Reply<Global>) -> u64
    ensures { result ≡ number_in reply.now }
{
    match reply {
        Reply::Written { version } => *version,
        Reply::Session(number) => *number,
        _ => 0,
    }
}

pub(crate) fn flag_in(reply: &Reply<Global>) -> bool
    ensures { result ≡ flag_in reply.now }
{
    match reply {
        Reply::Flag(flag) => *flag,
        _ => false,
    }
}

pub(crate) fn applied_in(reply: &Reply<Global>) -> Applied
    ensures { result ≡ applied_in reply.now }
{
    match reply {
        Reply::Applied { version, report } => Applied {
            version: *version,
            applied: report.applied(),
            conflicts: report.conflicts().len() as u64,
            omitted: report.omitted().len() as u64,
            skipped: report.skipped().len() as u64,
        },
        _ => Applied {
            version: 0,
            applied: 0,
            conflicts: 0,
            omitted: 0,
            skipped: 0,
        },
    }
}

/// The report of an application.
pub(crate) fn report_in(reply: Reply<Global>) -> Option<Report<Global>>
    ensures { option_map_or (λ report. report.conflicts) result [] ≡ conflicts_in reply }
{
    match reply {
        Reply::Applied { report, .. } => Some(report),
        _ => None,
    }
}

/// The tables with their version.
pub(crate) fn snapshot_in(reply: Reply<Global>) -> Snapshot<Global>
    requires snapshot { (snapshot : SnapshotState Global) × (reply ≡ replied.Snapshot snapshot) }
    ensures { snapshot_in reply ≡ Some result }
{
    match reply {
        Reply::Snapshot(snapshot) => snapshot,
        _ => unreachable!(),
    }
}
