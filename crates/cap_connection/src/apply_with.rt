//! Applications to the tables that a filter accepts.
ghost use Rattle.std.specs.Prelude.{◌≡◌};
ghost use Rattle.std.specs.Option.{option_map};
ghost use Rattle.cap_value.specs.Memory.{RefusesFirst};
ghost use Rattle.cap_connection.specs.Accepted.{AppliesAccepted, AppliesToAll, AppliesWith, fault_in_blob};
ghost use Rattle.cap_connection.specs.Accepted.{filter_fault, why_in_blob};
ghost use Rattle.cap_applier.specs.Chosen.{number_in_blob};
ghost use Rattle.cap_connection.specs.Application.{filter_misuse};

use crate::application::{ApplicationFault, filter_in};
use crate::connection::Connection;
use crate::fault::ConnectionFault;
use crate::iter::BlobIter;
use crate::replies::Applied;
use cap_applier::{Chosen, Numbering, Passed, chosen_of};
use cap_apply::Policy;
use cap_filter::TableFilter;
use cap_value::{Fault, Refusal};
use std::alloc::Global;

impl Connection {
    /// Applies what `apply_quiet` applies, of the tables that the filter of a text accepts, or with an empty
    /// text of all. Groups of other tables are passed over: they are not looked at, and are counted apart from
    /// those that are skipped. The number of a refused change counts all changes. Then the iterator goes over
    /// the accepted groups alone, from before the first change on; where nothing was applied it is as it was.
    pub fn apply_with(
        &mut self,
        alloc: Global,
        it: &mut BlobIter,
        policy: Policy,
        filter: &[u8],
        quiet: &[u64],
    ) -> Result<(Applied, Passed), Fault<ConnectionFault>>
        ensures applied { AppliesWith policy filter.now quiet.now it.old it.new self.old self.new result }
        ensures first { RefusesFirst (option_map filter_fault (filter_misuse filter.now)) result }
    {
        match filter_in(alloc, filter) {
            Ok(Some(filter)) => self.apply_accepted(alloc, it, policy, &filter, quiet),
            Ok(None) => self.apply_to_all(alloc, it, policy, quiet),
            Err(Fault::Refused(why)) => Err(Fault::Refused(filter_fault(why))),
            Err(Fault::OutOfMemory) => Err(Fault::OutOfMemory),
        }
    }

    /// The same of the tables that this filter accepts.
    pub fn apply_accepted(
        &mut self,
        alloc: Global,
        it: &mut BlobIter,
        policy: Policy,
        filter: &TableFilter<Global>,
        quiet: &[u64],
    ) -> Result<(Applied, Passed), Fault<ConnectionFault>>
        ensures { AppliesAccepted filter.now policy quiet.now it.old it.new self.old self.new result }
    {
        let Ok(chosen) = chosen_of(alloc, filter, it.contents()) else {
            return Err(Fault::OutOfMemory);
        };
        let Chosen {
            contents,
            numbering,
        } = chosen;
        let mut accepted = BlobIter::new(alloc, contents);
        match self.apply_quiet(alloc, &mut accepted, policy, quiet) {
            Ok(applied) => {
                *it = accepted;
                Ok((applied, numbering.passed()))
            }
            Err(why) => Err(fault_in_blob(&numbering, why)),
        }
    }

    fn apply_to_all(
        &mut self,
        alloc: Global,
        it: &mut BlobIter,
        policy: Policy,
        quiet: &[u64],
    ) -> Result<(Applied, Passed), Fault<ConnectionFault>>
        ensures { AppliesToAll policy quiet.now it.old it.new self.old self.new result }
    {
        match self.apply_quiet(alloc, it, policy, quiet) {
            Ok(applied) => Ok((
                applied,
                Passed {
                    groups: 0,
                    changes: 0,
                },
            )),
            Err(why) => Err(why),
        }
    }
}

// What a text that spells no filter is told as.
fn filter_fault(why: ApplicationFault) -> ConnectionFault
    ensures { result ≡ filter_fault why }
{
    match why {
        ApplicationFault::NoFilter(why) => ConnectionFault::NoFilter(why),
        _ => ConnectionFault::Misuse,
    }
}

// The fault with the number that the refused change has in the blob.
fn fault_in_blob(
    numbering: &Numbering<Global>,
    why: Fault<ConnectionFault>,
) -> Fault<ConnectionFault>
    ensures { result ≡ fault_in_blob numbering.now.changes why }
{
    match why {
        Fault::Refused(ConnectionFault::Refused { at, why }) => {
            Fault::Refused(ConnectionFault::Refused {
                at: at_in_blob(numbering, at),
                why: why_in_blob(numbering, why),
            })
        }
        _ => why,
    }
}

fn at_in_blob(numbering: &Numbering<Global>, at: Option<u64>) -> Option<u64>
    ensures { result ≡ option_map (number_in_blob numbering.now.changes) at }
{
    match at {
        Some(at) => Some(numbering.change(at)),
        None => None,
    }
}

fn why_in_blob(numbering: &Numbering<Global>, why: Refusal) -> Refusal
    ensures { result ≡ why_in_blob numbering.now.changes why }
{
    match why {
        Refusal::Aborted { at } => Refusal::Aborted {
            at: numbering.change(at),
        },
        Refusal::Misuse { at } => Refusal::Misuse {
            at: numbering.change(at),
        },
        _ => why,
    }
}
