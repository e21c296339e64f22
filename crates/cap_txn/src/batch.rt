//! Batches: lists of operations that are committed together.
ghost use Rattle.std.specs.Prelude.{◌≡◌, ◌≤◌, Some, None, [], length, nat_eq, OnErr, if◌then◌else◌};
ghost use Rattle.cap_value.specs.declared.refusal.Refusal.TheVariants.{Stale};
ghost use Rattle.cap_value.specs.Memory.{LeavesUnlessMemory, RefusesFirst};
ghost use Rattle.cap_txn.specs.Batch.{WhereRead, footprint_of, push, refused_push, trace_of};
ghost use Rattle.cap_txn.specs.Stale.{AreOpsOf, IsJudged, stale};

use crate::changed::first_changed;
use crate::read_set::ReadSet;
use crate::{AnsweredCall, Item, OPS_MAX, laws};
use cap_database::{Database, Op};
use cap_value::{AllocHandle, Fault, Refusal};
use std::marker::Model;

/// Operations that are made whole or not at all: on any version, on one alone, or, where a transaction made
/// them, where all that it looked at is still as it was.
#[derive(Drop)]
pub struct Batch<A: AllocHandle> {
    base: Option<u64>,
    ops: Vec<Op<A>, A>,
    reads: Option<ReadSet<A>>,
}

impl<A: AllocHandle> Model for Batch<A> {
    ghost use Rattle.std.specs.Prelude.{◌≡◌, ◌≤◌, None, length};
    ghost use Rattle.cap_txn.specs.Batch.{BatchState, WhereRead};
    ghost use Rattle.cap_txn.specs.Stale.{AreOpsOf};

    ghost Value = { BatchState A };

    ghost view = { λ b. record { base = b.base; ops = b.ops.items; reads = b.reads } };

    ghost invariant = { λ b. (b.reads ≡ None → length b.ops.items ≤ 10000)
        × WhereRead b.base b.reads (AreOpsOf b.ops.items) };
}

impl<A: AllocHandle> Batch<A> {
    /// A batch without operations that may be made on any version.
    pub fn blind(alloc: A) -> Self
        ensures { result ≡ record { base = None; ops = []; reads = None } }
    {
        Batch {
            base: None,
            ops: Vec::new(alloc),
            reads: None,
        }
    }

    /// A batch without operations that may be made on this version alone.
    pub fn based(alloc: A, version: u64) -> Self
        ensures { result ≡ record { base = Some version; ops = []; reads = None } }
    {
        Batch {
            base: Some(version),
            ops: Vec::new(alloc),
            reads: None,
        }
    }

    // The batch of a transaction.
    pub(crate) fn of_ops(version: u64, ops: Vec<Op<A>, A>, reads: ReadSet<A>) -> Self
        requires traced { AreOpsOf ops.items version reads }
        ensures { result ≡ record { base = Some version; ops = ops.items; reads = Some reads } }
    {
        Batch {
            base: Some(version),
            ops,
            reads: Some(reads),
        }
    }

    /// Puts an operation last. Refused with `TooMany` where there are `OPS_MAX`. What a transaction saw is
    /// dropped: the batch keeps its base as a number alone. On an error the batch is as before.
    pub fn push(&mut self, op: Op<A>) -> Result<(), Fault<Refusal>>
        ensures batch { LeavesUnlessMemory result (push self.old op) self.new }
        ensures kept { OnErr result (self.new ≡ self.old) }
        ensures first { RefusesFirst (refused_push self.old.ops) result }
    {
        if self.ops.len() >= OPS_MAX {
            return Err(Fault::Refused(Refusal::TooMany));
        }
        if self.ops.reserve(1).is_err() {
            return Err(Fault::OutOfMemory);
        }
        self.reads = None;
        self.ops.push_reserved(op);
        Ok(())
    }

    /// The operations, in order: at most `OPS_MAX` unless a transaction made the batch.
    pub fn ops(&self) -> &[Op<A>]
        ensures ops { result.now ≡ self.now.ops }
        ensures few { self.now.reads ≡ None → length self.now.ops ≤ OPS_MAX }
    {
        self.ops.as_slice()
    }

    /// The version that the batch was made on, or none where it may be made on any.
    pub fn base(&self) -> Option<u64>
        ensures { result ≡ self.now.base }
    {
        self.base
    }

    /// What the transaction looked at, each item once, in order of first look. It is empty where no
    /// transaction made the batch, or an operation was put last since.
    pub fn footprint(&self) -> &[Item<A>]
        ensures { result.now ≡ footprint_of self.now.reads }
    {
        match &self.reads {
            Some(reads) => reads.footprint.as_slice(),
            None => &[],
        }
    }

    /// The calls of the transaction, in order, with their answers. It is empty where `footprint` is.
    pub fn trace(&self) -> &[AnsweredCall<A>]
        ensures { result.now ≡ trace_of self.now.reads }
    {
        match &self.reads {
            Some(reads) => reads.trace.as_slice(),
            None => &[],
        }
    }

    /// A law of every batch that a transaction made, for who commits it: its operations are what stands after
    /// the calls of its trace on its base, with the answers there. The call does nothing.
    pub fn sound_reads_law(&self)
        ensures { WhereRead self.now.base self.now.reads (AreOpsOf self.now.ops) }
    {
        let _ops = &self.ops;
    }

    /// Why the batch is out of date on a database of this version, if it is. The batch of a transaction is
    /// where an item of its footprint has changed, and the refusal has the number of the first that has.
    /// Another with a base is where the version is not its base. It takes no memory.
    pub fn stale(&self, version: u64, database: &Database<A>) -> Option<Refusal>
        ensures stale { result
            ≡ stale self.now.base self.now.reads (record { version = version; database = database.now }) }
        ensures judged { WhereRead self.now.base self.now.reads
            (IsJudged self.now.ops (record { version = version; database = database.now })) }
    {
        laws::footprints_judge_batches::<A>();
        self.sound_reads_law();
        database.sound_rows_law();
        let base = self.base?;
        match &self.reads {
            Some(reads) => stale_reads(reads, base, version, database),
            None => stale_version(base, version),
        }
    }
}

// Why the batch of a transaction is out of date, if it is.
fn stale_reads<A: AllocHandle>(
    reads: &ReadSet<A>,
    base: u64,
    now: u64,
    database: &Database<A>,
) -> Option<Refusal>
    ensures { result ≡ stale (Some base) (Some reads.now) (record { version = now; database = database.now }) }
{
    let item = first_changed(reads.base.database(), database, reads.footprint.as_slice())?;
    Some(Refusal::Stale {
        base,
        now,
        item: Some(item as u64),
    })
}

// Why a batch that was made on this version is out of date on that one, if it is.
fn stale_version(base: u64, now: u64) -> Option<Refusal>
    ensures { result ≡ (if nat_eq base now then None else Some (Stale base now None)) }
{
    if base == now {
        return None;
    }
    Some(Refusal::Stale {
        base,
        now,
        item: None,
    })
}
