//! Captures, and their bytes.
ghost use Rattle.std.specs.Prelude.{◌≡◌, IfOk, Some};
ghost use Rattle.cap_core.specs.Capture.{CaptureState};
ghost use Rattle.cap_core.specs.declared.reply.Reply.TheVariants as replied;
ghost use Rattle.cap_connection.specs.Replies.{captured_bytes, captured_in};

use cap_codec::KeyFlags;
use cap_core::{Capture, Reply};
use cap_value::OutOfMemory;
use std::alloc::Global;
use std::marker::Model;

/// Which bytes are made of a capture.
#[derive(Clone, Copy, Drop)]
pub enum CaptureKind {
    /// The changeset (sqlite3session_changeset).
    Changeset,
    /// The patchset (sqlite3session_patchset).
    Patchset,
}

/// The changes of a session at the moment of the capture, and the version of the tables then. Its bytes are
/// made as often as they are asked for: out of memory there changes nothing, and the capture stays.
#[derive(Drop)]
pub struct Captured {
    capture: Capture<Global>,
}

impl Model for Captured {
    ghost use Rattle.std.specs.Global.{Global};
    ghost use Rattle.cap_core.specs.Capture.{CaptureState};

    ghost Value = { CaptureState Global };

    ghost view = { λ c. c.capture };
}

impl Captured {
    // The capture of a reply.
    pub(crate) fn of(reply: Reply<Global>) -> Self
        requires captured { (capture : CaptureState Global) × (reply ≡ replied.Capture capture) }
        ensures { captured_in reply ≡ Some result }
    {
        match reply {
            Reply::Capture(capture) => Captured { capture },
            _ => unreachable!(),
        }
    }

    /// The version of the tables at the moment of the capture.
    pub fn version(&self) -> u64
        ensures { result ≡ self.now.version }
    {
        self.capture.version()
    }

    /// The bytes of the changeset or of the patchset, with these key flags.
    pub fn bytes(
        &self,
        alloc: Global,
        kind: CaptureKind,
        key_flags: KeyFlags,
    ) -> Result<Vec<u8, Global>, OutOfMemory>
        ensures { IfOk result (λ bytes. bytes.items ≡ captured_bytes kind key_flags self.now) }
    {
        match kind {
            CaptureKind::Changeset => self.capture.changeset_with(alloc, key_flags),
            CaptureKind::Patchset => self.capture.patchset_with(alloc, key_flags),
        }
    }
}
