//! What stands of a transaction.
ghost use Rattle.std.specs.Prelude.{◌≡◌, ◌<◌, ◌+◌, Some, None, length, take, slice_index_or};
ghost use Rattle.std.specs.Prelude.{MatchOption, IfOk, OnErr, if◌then◌else◌};
ghost use Rattle.std.specs.Result.{result_err};
ghost use Rattle.cap_value.specs.Memory.{LeavesUnlessMemory, RefusesFirst};
ghost use Rattle.cap_txn.specs.Batch.{refused_push};
ghost use Rattle.cap_database.specs.Read.{read, rows_of};
ghost use Rattle.cap_value.specs.declared.refusal.Refusal.TheVariants.{TooMany};
ghost use Rattle.cap_txn.specs.Workspace.{begin, after_op, after_savepoint, refused_savepoint, after_back};
ghost use Rattle.cap_txn.specs.Workspace.{numbered, up_to};
ghost use Rattle.cap_txn.specs.declared.savepoint.Savepoint as saved;

use crate::savepoint::Savepoint;
use crate::{Mark, OPS_MAX, SAVEPOINTS_MAX};
use cap_database::{Database, Op, Snapshot};
use cap_row::Row;
use cap_table::{RowRef, Rows};
use cap_value::{AllocHandle, Fault, Name, OutOfMemory, Refusal};
use std::marker::Model;

// What a transaction leaves to be committed: the snapshot that it began with, and the operations that stand.
#[derive(Drop)]
pub(crate) struct Left<A: AllocHandle> {
    pub(crate) base: Snapshot<A>,
    pub(crate) ops: Vec<Op<A>, A>,
}

// What stands of a transaction: the database that its operations leave of the snapshot, and its savepoints.
#[derive(Drop)]
pub(crate) struct Workspace<A: AllocHandle> {
    base: Snapshot<A>,
    database: Database<A>,
    ops: Vec<Op<A>, A>,
    savepoints: Vec<Savepoint<A>, A>,
    made: u64,
}

impl<A: AllocHandle> Model for Workspace<A> {
    ghost use Rattle.cap_txn.specs.Workspace.{WorkspaceState};

    ghost Value = { WorkspaceState A };

    ghost view = { λ t. record {
      base = t.base;
      database = t.database;
      ops = t.ops.items;
      savepoints = t.savepoints.items;
      made = t.made;
    } };
}

impl<A: AllocHandle> Workspace<A> {
    // A transaction on the snapshot, of which nothing is done yet.
    pub(crate) fn begin(alloc: A, snapshot: &Snapshot<A>) -> Result<Self, OutOfMemory>
        ensures { IfOk result (λ txn. txn ≡ begin snapshot.now) }
    {
        Ok(Workspace {
            base: snapshot.copy()?,
            database: snapshot.database().snapshot()?,
            ops: Vec::new(alloc),
            savepoints: Vec::new(alloc),
            made: 0,
        })
    }

    // Makes an operation on what stands, or is refused as the operation itself. On an error the transaction is
    // as before.
    pub(crate) fn op(&mut self, op: Op<A>) -> Result<(), Fault<Refusal>>
        ensures txn { LeavesUnlessMemory result (after_op self.old op) self.new }
        ensures kept { OnErr result (self.new ≡ self.old) }
    {
        self.ops.reserve(1)?;
        self.database.step(&op)?;
        let Ok(()) = self.ops.push(op) else {
            unreachable!()
        };
        Ok(())
    }

    // The row of this name in a table as it stands, or its absence, or why it is refused.
    pub(crate) fn get(
        &self,
        table: &Name<A>,
        row: &RowRef<A>,
    ) -> Result<Result<Option<Row<A>>, Refusal>, OutOfMemory>
        ensures { IfOk result (λ found. found ≡ read self.now.database table.now row.now) }
    {
        match self.database.get(table, row) {
            Ok(Some(row)) => Ok(Ok(Some(row.copy()?))),
            Ok(None) => Ok(Ok(None)),
            Err(why) => Ok(Err(why)),
        }
    }

    // All rows of a table as it stands, or why it is refused.
    pub(crate) fn scan(&self, table: &Name<A>) -> Result<Result<Rows<A>, Refusal>, OutOfMemory>
        ensures { IfOk result (λ found. found ≡ rows_of self.now.database table.now) }
    {
        match self.database.table(table) {
            Some(table) => Ok(Ok(table.rows()?)),
            None => Ok(Err(Refusal::NoTable)),
        }
    }

    // Makes a savepoint (SQL As Understood By SQLite, "SAVEPOINT"). Refused with `TooMany` where
    // `SAVEPOINTS_MAX` were made, undone ones too. On an error the transaction is as before.
    pub(crate) fn savepoint(&mut self) -> Result<Mark, Fault<Refusal>>
        ensures txn { LeavesUnlessMemory result (after_savepoint self.old) self.new }
        ensures kept { OnErr result (self.new ≡ self.old) }
        ensures mark { IfOk result (λ mark. mark.number ≡ self.old.made) }
        ensures first { RefusesFirst (refused_savepoint self.old) result }
    {
        let number = self.made;
        if number >= SAVEPOINTS_MAX {
            return Err(Fault::Refused(Refusal::TooMany));
        }
        let savepoint = Savepoint {
            number,
            ops: self.ops.len(),
            database: self.database.snapshot()?,
        };
        if self.savepoints.push(savepoint).is_err() {
            return Err(Fault::OutOfMemory);
        }
        self.made = number + 1;
        Ok(Mark { number })
    }

    // Goes back to a savepoint, which stays, and undoes all later ones (SQL As Understood By SQLite,
    // "ROLLBACK TO"). Refused with `NoMark` where there is no savepoint of the mark, or it was undone. On an
    // error the transaction is as before.
    pub(crate) fn back_to(&mut self, mark: Mark) -> Result<(), Fault<Refusal>>
        ensures txn { LeavesUnlessMemory result (after_back self.old mark.number) self.new }
        ensures kept { OnErr result (self.new ≡ self.old) }
        ensures first { RefusesFirst (result_err (after_back self.old mark.number)) result }
    {
        let Some(place) = place_of(&self.savepoints, mark.number) else {
            return Err(Fault::Refused(Refusal::NoMark));
        };
        let savepoint = &self.savepoints[place];
        let stood = savepoint.ops;
        let database = savepoint.database.snapshot()?;
        self.database = database;
        self.ops.truncate(stood);
        self.savepoints.truncate(place + 1);
        Ok(())
    }

    // The database as it stands.
    pub(crate) fn database(&self) -> &Database<A>
        ensures { result.now ≡ self.now.database }
    {
        &self.database
    }

    // Whether an operation more is one too many.
    pub(crate) fn is_full(&self) -> bool
        ensures { refused_push self.now.ops ≡ (if result then Some TooMany else None) }
    {
        self.ops.len() >= OPS_MAX
    }

    // The snapshot, and the operations that stand. It takes no memory.
    pub(crate) fn into_left(self) -> Left<A>
        ensures left { (result.base ≡ self.base) × (result.ops.items ≡ self.ops) }
    {
        let Workspace {
            base,
            database: _,
            ops,
            savepoints: _,
            made: _,
        } = self;
        Left { base, ops }
    }
}

// The place of the savepoint of this number.
fn place_of<A: AllocHandle>(savepoints: &[Savepoint<A>], number: u64) -> Option<usize>
    ensures within { MatchOption result (numbered number savepoints.now ≡ None)
        (λ i. i < length savepoints.now) }
    ensures found { MatchOption result (numbered number savepoints.now ≡ None) (λ i. (d : saved.Savepoint A)
        → numbered number savepoints.now ≡ Some (slice_index_or savepoints.now i d)) }
    ensures front { MatchOption result (numbered number savepoints.now ≡ None)
        (λ i. up_to number savepoints.now ≡ take (i + 1) savepoints.now) }
{
    for (place, savepoint) in savepoints.iter().enumerate() {
        if savepoint.number == number {
            return Some(place);
        }
    }
    None
}
