//! What has which number in a blob of which a filter accepts a part.
ghost use Rattle.std.specs.Prelude.{◌≡◌, IfOk, map};
ghost use Rattle.cap_applier.specs.Chosen.{conflict_in_blob, number_in_blob};

use crate::Passed;
use cap_apply::Conflict;
use cap_value::{AllocHandle, OutOfMemory};
use std::marker::Model;

/// The numbers that the changes and groups of a part of a blob have in the whole blob, and how much of it is
/// passed over. All are counted from 0.
#[derive(Drop)]
pub struct Numbering<A: AllocHandle> {
    pub(crate) changes: Vec<u64, A>,
    pub(crate) groups: Vec<u64, A>,
    pub(crate) passed: Passed,
}

impl<A: AllocHandle> Model for Numbering<A> {
    ghost use Rattle.cap_applier.specs.Numbering.{NumberingState};

    ghost Value = { NumberingState };

    ghost view = { λ n. record { changes = n.changes.items; groups = n.groups.items; passed = n.passed } };
}

impl<A: AllocHandle> Numbering<A> {
    /// The number in the whole blob of the change with this number in the part.
    pub fn change(&self, at: u64) -> u64
        ensures { result ≡ number_in_blob self.now.changes at }
    {
        number_in_blob(self.changes.as_slice(), at)
    }

    /// The number in the whole blob of the group with this number in the part.
    pub fn group(&self, at: u64) -> u64
        ensures { result ≡ number_in_blob self.now.groups at }
    {
        number_in_blob(self.groups.as_slice(), at)
    }

    /// The conflicts of the part, with the numbers in the whole blob.
    pub fn conflicts(
        &self,
        alloc: A,
        conflicts: &[Conflict],
    ) -> Result<Vec<Conflict, A>, OutOfMemory>
        ensures { IfOk result (λ whole.
            whole.items ≡ map (conflict_in_blob self.now.changes) conflicts.now) }
    {
        conflicts_in_blob(alloc, self.changes.as_slice(), conflicts)
    }

    /// The numbers in the whole blob of the changes with these numbers in the part.
    pub fn changes(&self, alloc: A, changes: &[u64]) -> Result<Vec<u64, A>, OutOfMemory>
        ensures { IfOk result (λ whole.
            whole.items ≡ map (number_in_blob self.now.changes) changes.now) }
    {
        numbers_in_blob(alloc, self.changes.as_slice(), changes)
    }

    /// The numbers in the whole blob of the groups with these numbers in the part.
    pub fn groups(&self, alloc: A, groups: &[u64]) -> Result<Vec<u64, A>, OutOfMemory>
        ensures { IfOk result (λ whole.
            whole.items ≡ map (number_in_blob self.now.groups) groups.now) }
    {
        numbers_in_blob(alloc, self.groups.as_slice(), groups)
    }

    /// How much of the blob is passed over.
    pub fn passed(&self) -> Passed
        ensures { result ≡ self.now.passed }
    {
        self.passed
    }
}

fn conflicts_in_blob<A: AllocHandle>(
    alloc: A,
    numbers: &[u64],
    conflicts: &[Conflict],
) -> Result<Vec<Conflict, A>, OutOfMemory>
    ensures { IfOk result (λ whole. whole.items ≡ map (conflict_in_blob numbers.now) conflicts.now) }
{
    let mut whole = Vec::new(alloc);
    for conflict in conflicts {
        whole.push(conflict_in_blob(numbers, *conflict))?;
    }
    Ok(whole)
}

fn conflict_in_blob(numbers: &[u64], conflict: Conflict) -> Conflict
    ensures { result ≡ conflict_in_blob numbers.now conflict }
{
    Conflict {
        change: number_in_blob(numbers, conflict.change),
        kind: conflict.kind,
        answer: conflict.answer,
    }
}

fn numbers_in_blob<A: AllocHandle>(
    alloc: A,
    numbers: &[u64],
    part: &[u64],
) -> Result<Vec<u64, A>, OutOfMemory>
    ensures { IfOk result (λ whole. whole.items ≡ map (number_in_blob numbers.now) part.now) }
{
    let mut whole = Vec::new(alloc);
    for at in part {
        whole.push(number_in_blob(numbers, *at))?;
    }
    Ok(whole)
}

fn number_in_blob(numbers: &[u64], at: u64) -> u64
    ensures { result ≡ number_in_blob numbers.now at }
{
    match numbers.get(at as usize) {
        Some(number) => *number,
        None => at,
    }
}
