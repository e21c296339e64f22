//! A list of operations, all or nothing.
ghost use Rattle.std.specs.Prelude.{◌≡◌, ◌++◌, OnOk};
ghost use Rattle.cap_value.specs.Memory.{AnswersUnlessMemory};
ghost use Rattle.cap_database.specs.Operation.{run, changes_made};

use crate::{Change, Database, Effect, Op, Outcome, RefusedAt};
use cap_value::{AllocHandle, Fault, OutOfMemory};

/// Makes operations one after another, all of them or none: the database after them and all their changes, or
/// the place of the first that is refused and why. The database that they start from stays as it is.
///
/// The operations are made in place on one snapshot, so a node of a tree is copied once however many of them
/// change it.
pub fn run_ops<A: AllocHandle>(
    alloc: A,
    database: &Database<A>,
    ops: &[Op<A>],
) -> Result<Outcome<A>, Fault<RefusedAt>>
    ensures { AnswersUnlessMemory result (run database.now ops.now) }
{
    let mut next = database.snapshot()?;
    let mut changes = Vec::with_capacity(alloc, ops.len())?;
    for (at, op) in ops.iter().enumerate() {
        match next.step(op) {
            Ok(step) => push_changes(&mut changes, step)?,
            Err(Fault::Refused(why)) => return Err(Fault::Refused(RefusedAt { at, why })),
            Err(Fault::OutOfMemory) => return Err(Fault::OutOfMemory),
        }
    }
    Ok(Outcome::new(next, changes))
}

fn push_changes<A: AllocHandle>(
    changes: &mut Vec<Change<A>, A>,
    step: Effect<A>,
) -> Result<(), OutOfMemory>
    ensures { OnOk result (changes.new.items ≡ changes.old.items ++ changes_made step) }
{
    let Effect { first, second } = step;
    changes.push(first)?;
    match second {
        None => Ok(()),
        Some(second) => {
            changes.push(second)?;
            Ok(())
        }
    }
}
