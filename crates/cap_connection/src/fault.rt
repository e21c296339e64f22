//! Why a call has no answer.
ghost use Rattle.std.specs.Prelude.{◌≡◌};
ghost use Rattle.cap_connection.specs.Runs.{fault_of};

use cap_hub::HubFault;
use cap_locked::CallFault;
use cap_script::ScriptFault;
use cap_value::{Fault, Refusal};
use thiserror::Error;

/// Why a call on a connection is refused.
#[derive(Clone, Copy, Debug, PartialEq, Eq, Drop, Error)]
pub enum ConnectionFault {
    /// The call has no meaning for an argument.
    #[error("misuse")]
    Misuse,
    /// Another call has the state. Nothing has changed, and the call may be made again.
    #[error("busy")]
    Busy,
    /// S1: the history is longer than the one that the call found, or the client has made other calls than
    /// are counted.
    #[error("overtaken, front {front}")]
    Overtaken {
        /// The number of events of the history.
        front: u64,
    },
    /// S2: the history has 2^63 - 1 events.
    #[error("history full")]
    Full,
    /// The server refuses the command.
    #[error("refused: {why}")]
    Refused {
        /// The number of the refused operation or change, from 0, where the command has several.
        at: Option<u64>,
        /// Why.
        why: Refusal,
    },
    /// The text is no filter.
    #[error("no filter: {0}")]
    NoFilter(Refusal),
    /// The text is not one command.
    #[error("no command: {0}")]
    NoCommand(TextFault),
}

/// Why a text is not one command.
#[derive(Clone, Copy, Debug, PartialEq, Eq, Drop, Error)]
pub enum TextFault {
    /// It is not UTF-8, or has no command, or several.
    #[error("not one command")]
    NotOne,
    /// The fault of its first refused line.
    #[error("{0}")]
    InLine(ScriptFault),
}

/// Why the client's call has no reply.
pub(crate) fn fault_of(fault: HubFault) -> Fault<ConnectionFault>
    ensures { result ≡ fault_of fault }
{
    match fault {
        HubFault::Busy => Fault::Refused(ConnectionFault::Busy),
        HubFault::Call(CallFault::OutOfMemory) => Fault::OutOfMemory,
        HubFault::Call(CallFault::Overtaken { front }) => {
            Fault::Refused(ConnectionFault::Overtaken { front })
        }
        HubFault::Call(CallFault::HistoryFull) => Fault::Refused(ConnectionFault::Full),
    }
}
