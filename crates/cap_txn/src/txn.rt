//! Transactions.
ghost use Rattle.std.specs.Prelude.{◌≡◌, ◌∷◌, [], ◌++◌, IfOk, OnErr, OnOk};
ghost use Rattle.cap_database.specs.Read.{read, rows_of};
ghost use Rattle.cap_txn.specs.Batch.{refused_push};
ghost use Rattle.cap_txn.specs.Calls.{items_of, row_answer, rows_answer};
ghost use Rattle.cap_txn.specs.Footprint.{with_items};
ghost use Rattle.cap_txn.specs.Sound.{IsSound};
ghost use Rattle.cap_txn.specs.Transaction.{IsAnswered, IsAnsweredUnless, IsNewMark, IsTraced, ReadsOwnWrites};
ghost use Rattle.cap_txn.specs.Transaction.{batch_of, begin_traced, handed_on};
ghost use Rattle.cap_txn.specs.declared.answered_call.Answer.{Answer};
ghost use Rattle.cap_txn.specs.declared.answered_call.Asked.{Asked};

use crate::footprint::items_at;
use crate::ordered_set::{OrderedSet, add_each};
use crate::read_set::ReadSet;
use crate::workspace::{Left, Workspace};
use crate::{Answer, AnsweredCall, Asked, Batch, Item, Mark, copy_of_op, laws};
use cap_database::{Op, Snapshot};
use cap_row::Row;
use cap_table::{RowRef, Rows};
use cap_value::{AllocHandle, Fault, Name, OutOfMemory, Refusal};
use std::marker::Model;

/// Operations on a snapshot that are tried one by one, with all that was looked at and answered, and handed
/// on as a batch.
#[derive(Drop)]
pub struct Txn<A: AllocHandle> {
    alloc: A,
    workspace: Workspace<A>,
    footprint: OrderedSet<Item<A>, A>,
    trace: Vec<AnsweredCall<A>, A>,
}

impl<A: AllocHandle> Model for Txn<A> {
    ghost use Rattle.cap_txn.specs.Transaction.{IsTraced, TxnState};

    ghost Value = { TxnState A };

    ghost view = { λ t. record { workspace = t.workspace; footprint = t.footprint; trace = t.trace.items } };

    ghost invariant = { λ t. IsTraced (record {
      workspace = t.workspace;
      footprint = t.footprint;
      trace = t.trace.items;
    }) };
}

impl<A: AllocHandle> Txn<A> {
    /// A transaction on the snapshot, of which nothing is done yet.
    pub fn begin(alloc: A, snapshot: &Snapshot<A>) -> Result<Self, OutOfMemory>
        ensures { IfOk result (λ txn. txn ≡ begin_traced snapshot.now) }
    {
        Ok(Txn {
            alloc,
            workspace: Workspace::begin(alloc, snapshot)?,
            footprint: OrderedSet::new(alloc),
            trace: Vec::new(alloc),
        })
    }

    /// A law of every transaction: its database is what its operations leave of the snapshot's, its
    /// savepoints' numbers rise, and its footprint and trace are those of its calls. The call does nothing.
    pub fn sound_law(&self)
        ensures sound { IsSound self.now.workspace }
        ensures traced { IsTraced self.now }
    {
        let _workspace = &self.workspace;
    }

    /// Makes an operation on what stands. Refused with `TooMany` where `OPS_MAX` operations stand: then the
    /// transaction is as before, without the call. Else as `op_without_limit`.
    pub fn op(&mut self, op: Op<A>) -> Result<(), Fault<Refusal>>
        ensures { IsAnsweredUnless (refused_push self.old.workspace.ops) (λ _. Answer.Done) result
            (Asked.Op op) self.old self.new }
    {
        if self.workspace.is_full() {
            return Err(Fault::Refused(Refusal::TooMany));
        }
        self.op_without_limit(op)
    }

    /// Makes an operation on what stands, however many stand: for who makes a transaction of what was done
    /// elsewhere, as an application. Refused as the operation itself. The call is the last of the trace, also
    /// where it is refused. When out of memory, the transaction is as before.
    pub fn op_without_limit(&mut self, op: Op<A>) -> Result<(), Fault<Refusal>>
        ensures { IsAnswered (λ _. Answer.Done) result (Asked.Op op) self.old self.new }
    {
        let call = Asked::Op(copy_of_op(self.alloc, &op)?);
        let items = items_of(self.alloc, &self.workspace, &call)?;
        let len = self.footprint.len();
        self.trace.reserve(1)?;
        add_each(&mut self.footprint, items)?;
        match self.workspace.op(op) {
            Ok(()) => {
                let answer = Answer::Done;
                self.trace.push_reserved(AnsweredCall { call, answer });
                Ok(())
            }
            Err(Fault::Refused(why)) => {
                let answer = Answer::Refused(why);
                self.trace.push_reserved(AnsweredCall { call, answer });
                Err(Fault::Refused(why))
            }
            Err(Fault::OutOfMemory) => {
                self.footprint.truncate(len);
                Err(Fault::OutOfMemory)
            }
        }
    }

    /// The row of this name in a table as it stands, or its absence. Refused with `NoTable` where no table
    /// has the name. The call is the last of the trace, also where it is refused. When out of memory, the
    /// transaction is as before.
    pub fn get(
        &mut self,
        table: &Name<A>,
        row: &RowRef<A>,
    ) -> Result<Option<Row<A>>, Fault<Refusal>>
        ensures answered { IsAnswered Answer.Row result (Asked.Get table.now row.now) self.old self.new }
        ensures own_writes { ReadsOwnWrites self.old (λ tables. read tables table.now row.now) result }
    {
        let call = Asked::Get(table.copy()?, row.copy()?);
        let items = items_of(self.alloc, &self.workspace, &call)?;
        let found = self.workspace.get(table, row)?;
        let answer = answer_of_row(&found)?;
        let last = AnsweredCall { call, answer };
        let Ok(()) = keep(&mut self.footprint, &mut self.trace, items, last) else {
            return Err(Fault::OutOfMemory);
        };
        handed_on(found)
    }

    /// All rows of a table as it stands, each with its name, in the time of two snapshots: those with a key
    /// in the order of their keys, and then the others by their ids. Refused with `NoTable` where no table
    /// has the name. The call is the last of the trace, also where it is refused. When out of memory, the
    /// transaction is as before.
    pub fn scan(&mut self, table: &Name<A>) -> Result<Rows<A>, Fault<Refusal>>
        ensures answered { IsAnswered Answer.Rows result (Asked.Scan table.now) self.old self.new }
        ensures own_writes { ReadsOwnWrites self.old (λ tables. rows_of tables table.now) result }
    {
        let call = Asked::Scan(table.copy()?);
        let items = items_of(self.alloc, &self.workspace, &call)?;
        let found = self.workspace.scan(table)?;
        let answer = answer_of_rows(&found)?;
        let last = AnsweredCall { call, answer };
        let Ok(()) = keep(&mut self.footprint, &mut self.trace, items, last) else {
            return Err(Fault::OutOfMemory);
        };
        handed_on(found)
    }

    /// Makes a savepoint (SQL As Understood By SQLite, "SAVEPOINT"). Refused with `TooMany` where
    /// `SAVEPOINTS_MAX` were made, undone ones too. The call is the last of the trace, also where it is
    /// refused. When out of memory, the transaction is as before.
    pub fn savepoint(&mut self) -> Result<Mark, Fault<Refusal>>
        ensures answered { IsAnswered Answer.Mark result Asked.Savepoint self.old self.new }
        ensures new_mark { IfOk result (IsNewMark self.old) }
    {
        self.trace.reserve(1)?;
        let call = Asked::Savepoint;
        match self.workspace.savepoint() {
            Ok(mark) => {
                let answer = Answer::Mark(mark);
                self.trace.push_reserved(AnsweredCall { call, answer });
                Ok(mark)
            }
            Err(Fault::Refused(why)) => {
                let answer = Answer::Refused(why);
                self.trace.push_reserved(AnsweredCall { call, answer });
                Err(Fault::Refused(why))
            }
            Err(Fault::OutOfMemory) => Err(Fault::OutOfMemory),
        }
    }

    /// Goes back to a savepoint, which stays, and undoes all later ones (SQL As Understood By SQLite,
    /// "ROLLBACK TO"). Refused with `NoMark` where there is no savepoint of the mark, or it was undone. The
    /// call is the last of the trace, also where it is refused; the footprint keeps what was looked at since.
    /// When out of memory, the transaction is as before.
    pub fn back_to(&mut self, mark: Mark) -> Result<(), Fault<Refusal>>
        ensures { IsAnswered (λ _. Answer.Done) result (Asked.BackTo mark) self.old self.new }
    {
        self.trace.reserve(1)?;
        let call = Asked::BackTo(mark);
        match self.workspace.back_to(mark) {
            Ok(()) => {
                let answer = Answer::Done;
                self.trace.push_reserved(AnsweredCall { call, answer });
                Ok(())
            }
            Err(Fault::Refused(why)) => {
                let answer = Answer::Refused(why);
                self.trace.push_reserved(AnsweredCall { call, answer });
                Err(Fault::Refused(why))
            }
            Err(Fault::OutOfMemory) => Err(Fault::OutOfMemory),
        }
    }

    /// Undoes all of it: the snapshot is as it was, and nothing is left.
    pub fn rollback(self) {
        let Txn {
            alloc: _,
            workspace: _,
            footprint: _,
            trace: _,
        } = self;
    }

    /// The operations that stand, to be made where all that was looked at is still as it was in the snapshot.
    /// It takes no memory.
    pub fn into_batch(self) -> Batch<A>
        ensures { result ≡ batch_of self }
    {
        laws::transactions_are_traced::<A>();
        let Txn {
            alloc: _,
            workspace,
            footprint,
            trace,
        } = self;
        let Left { base, ops } = workspace.into_left();
        base.database().sound_rows_law();
        let version = base.version();
        let footprint = footprint.into_items();
        Batch::of_ops(
            version,
            ops,
            ReadSet {
                base,
                footprint,
                trace,
            },
        )
    }

    /// What was looked at, each item once, in order of first look.
    pub fn footprint(&self) -> &[Item<A>]
        ensures { result.now ≡ self.now.footprint }
    {
        self.footprint.items()
    }

    /// The calls that were answered, in order, with their answers.
    pub fn trace(&self) -> &[AnsweredCall<A>]
        ensures { result.now ≡ self.now.trace }
    {
        self.trace.as_slice()
    }
}

// Puts what a call looked at, and the call, last. When out of memory, both are as before.
fn keep<A: AllocHandle>(
    footprint: &mut OrderedSet<Item<A>, A>,
    trace: &mut Vec<AnsweredCall<A>, A>,
    items: Vec<Item<A>, A>,
    last: AnsweredCall<A>,
) -> Result<(), OutOfMemory>
    ensures footprint { OnOk result (footprint.new ≡ with_items footprint.old items.items) }
    ensures trace { OnOk result (trace.new.items ≡ trace.old.items ++ last ∷ []) }
    ensures kept { OnErr result ((footprint.new ≡ footprint.old) × (trace.new.items ≡ trace.old.items)) }
{
    trace.reserve(1)?;
    add_each(footprint, items)?;
    trace.push_reserved(last);
    Ok(())
}

// What a call looks at.
fn items_of<A: AllocHandle>(
    alloc: A,
    workspace: &Workspace<A>,
    call: &Asked<A>,
) -> Result<Vec<Item<A>, A>, OutOfMemory>
    ensures { IfOk result (λ items. items.items ≡ items_of workspace.now call.now) }
{
    items_at(alloc, workspace.database(), call)
}

fn handed_on<T>(found: Result<T, Refusal>) -> Result<T, Fault<Refusal>>
    ensures { result ≡ handed_on found }
{
    match found {
        Ok(answer) => Ok(answer),
        Err(why) => Err(Fault::Refused(why)),
    }
}

fn answer_of_row<A: AllocHandle>(
    found: &Result<Option<Row<A>>, Refusal>,
) -> Result<Answer<A>, OutOfMemory>
    ensures { IfOk result (λ answer. answer ≡ row_answer found.now) }
{
    match found {
        Ok(Some(row)) => Ok(Answer::Row(Some(row.copy()?))),
        Ok(None) => Ok(Answer::Row(None)),
        Err(why) => Ok(Answer::Refused(*why)),
    }
}

fn answer_of_rows<A: AllocHandle>(
    found: &Result<Rows<A>, Refusal>,
) -> Result<Answer<A>, OutOfMemory>
    ensures { IfOk result (λ answer. answer ≡ rows_answer found.now) }
{
    match found {
        Ok(rows) => Ok(Answer::Rows(rows.copy()?)),
        Err(why) => Ok(Answer::Refused(*why)),
    }
}
