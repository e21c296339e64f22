//! Applications that leave given sessions as they are.
ghost use Rattle.std.specs.Prelude.{◌≡◌, IfOk};
ghost use Rattle.cap_connection.specs.Calls.{AppliesQuiet};

use crate::connection::Connection;
use crate::fault::ConnectionFault;
use crate::iter::BlobIter;
use crate::replies::Applied;
use cap_apply::Policy;
use cap_core::QuietSessions;
use cap_value::{Fault, OutOfMemory};
use std::alloc::Global;

impl Connection {
    /// Applies what `apply` applies. The sessions with these numbers record none of its changes, and each
    /// other session does; where one of them is not there it is refused with `NoSession`.
    pub fn apply_quiet(
        &mut self,
        alloc: Global,
        it: &mut BlobIter,
        policy: Policy,
        quiet: &[u64],
    ) -> Result<Applied, Fault<ConnectionFault>>
        ensures { AppliesQuiet policy quiet.now it.old it.new self.old self.new result }
    {
        match quiet_sessions(alloc, quiet) {
            Ok(quiet) => self.apply(alloc, it, policy, quiet),
            Err(_) => Err(Fault::OutOfMemory),
        }
    }
}

fn quiet_sessions(alloc: Global, quiet: &[u64]) -> Result<QuietSessions<Global>, OutOfMemory>
    ensures { IfOk result (λ sessions. sessions ≡ quiet.now) }
{
    let mut numbers = Vec::new(alloc);
    numbers.extend_from_slice(quiet)?;
    Ok(QuietSessions::new(numbers))
}
