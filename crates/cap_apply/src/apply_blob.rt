//! Applying a blob to a database.
ghost use Rattle.std.specs.Prelude.{◌≡◌, ◌+◌, ◌<◌, ◌^◌, length, map};
ghost use Rattle.cap_value.specs.Memory.{AnswersUnlessMemory, LeavesUnlessMemory};
ghost use Rattle.cap_apply.specs.Apply.{group_applied, groups_applied};
ghost use Rattle.cap_apply.specs.Apply as whole;
ghost use Rattle.cap_apply.specs.Requested.{requested_in};

use crate::decision::Decision;
use crate::entry::BlobChange;
use crate::{Applied, Policy};
use cap_changes::TableGroup;
use cap_codec::Contents;
use cap_database::Database;
use cap_value::{AllocHandle, Fault, Refusal};

/// Applies a changeset or a patchset under a policy (The Session Extension, "sqlite3changeset_apply").
/// Answers the database after it, which shares rows with this one, the changes to its rows, and a report.
/// This database is unchanged.
///
/// A group is skipped where the database has no table for it: none of its name, or one with fewer columns or
/// other key columns. Columns beyond the group's are NULL in new rows and are ignored otherwise.
///
/// Refused with `Aborted` at the first change whose conflict the policy answers with `Abort`, and with
/// `Misuse` at the first change without a row where the policy answers `NotFound` with `Replace`, each with
/// the number of the change, counted from 0 over the whole blob.
pub fn apply<A: AllocHandle>(
    alloc: A,
    database: &Database<A>,
    blob: &Contents<A>,
    policy: Policy,
) -> Result<Applied<A>, Fault<Refusal>>
    ensures { AnswersUnlessMemory result (whole.apply database.now blob.now policy) }
{
    let applied = Applied::new(alloc, database.snapshot()?);
    match blob {
        Contents::Changes(list) => apply_groups(applied, policy, list.groups()),
        Contents::Patches(list) => apply_groups(applied, policy, list.groups()),
    }
}

#[tactic(auto, using(crate::proofs::GroupLemmas::groups_more))]
fn apply_groups<C: BlobChange<A>, A: AllocHandle>(
    applied: Applied<A>,
    policy: Policy,
    groups: &[TableGroup<C, A>],
) -> Result<Applied<A>, Fault<Refusal>>
    ensures { AnswersUnlessMemory result
        (groups_applied policy 0 0 (map (requested_in C.requested) groups.now) applied) }
{
    let mut applied = applied;
    let mut number = 0u64;
    for (place, group) in groups.iter().enumerate() {
        // No memory holds a blob with this many changes.
        let Some(next) = number.checked_add(group.changes().len() as u64) else {
            return Err(Fault::OutOfMemory);
        };
        apply_group(&mut applied, policy, place as u64, number, group)?;
        number = next;
    }
    Ok(applied)
}

#[tactic(auto, using(crate::proofs::GroupLemmas::group_there, crate::proofs::GroupLemmas::group_skipped))]
fn apply_group<C: BlobChange<A>, A: AllocHandle>(
    applied: &mut Applied<A>,
    policy: Policy,
    place: u64,
    number: u64,
    group: &TableGroup<C, A>,
) -> Result<(), Fault<Refusal>>
    requires { number + length group.now.changes < 2 ^ 64 }
    ensures { LeavesUnlessMemory result
        (group_applied policy place number (requested_in C.requested group.now) applied.old) applied.new }
{
    let (table, columns) = (group.table(), group.schema());
    if !applied.has_target(table, columns) {
        applied.skip(place)?;
        return Ok(());
    }
    let mut number = number;
    for change in group.changes() {
        let decision = Decision { number, policy };
        applied.apply_change(&change, decision, table, columns)?;
        number += 1;
    }
    Ok(())
}
