//! The calls of an open transaction that lines make.
ghost use Rattle.std.specs.Prelude.{IfOk};
ghost use Rattle.cap_txn.specs.declared.answered_call.Asked.{Asked};
ghost use Rattle.cap_interpreter.specs.Calls.{IsCalled};

use cap_database::Op;
use cap_table::RowRef;
use cap_txn::{Answer, Asked, Mark, Txn, copy_of_op};
use cap_value::{AllocHandle, Fault, Name, OutOfMemory};

// Makes a call.
pub(crate) fn call<A: AllocHandle>(
    alloc: A,
    txn: &mut Txn<A>,
    call: &Asked<A>,
) -> Result<Answer<A>, OutOfMemory>
    ensures { IfOk result (λ answer. IsCalled txn.old call.now answer txn.new) }
{
    match call {
        Asked::Op(op) => operate(alloc, txn, op),
        Asked::Get(table, row) => get(txn, table, row),
        Asked::Scan(table) => scan(txn, table),
        Asked::Savepoint => savepoint(txn),
        Asked::BackTo(mark) => back_to(txn, *mark),
    }
}

// Makes an operation.
fn operate<A: AllocHandle>(alloc: A, txn: &mut Txn<A>, op: &Op<A>) -> Result<Answer<A>, OutOfMemory>
    ensures { IfOk result (λ answer. IsCalled txn.old (Asked.Op op.now) answer txn.new) }
{
    let op = copy_of_op(alloc, op)?;
    match txn.op(op) {
        Ok(()) => Ok(Answer::Done),
        Err(Fault::Refused(why)) => Ok(Answer::Refused(why)),
        Err(Fault::OutOfMemory) => Err(OutOfMemory),
    }
}

// Reads a row.
pub(crate) fn get<A: AllocHandle>(
    txn: &mut Txn<A>,
    table: &Name<A>,
    row: &RowRef<A>,
) -> Result<Answer<A>, OutOfMemory>
    ensures { IfOk result (λ answer. IsCalled txn.old (Asked.Get table.now row.now) answer txn.new) }
{
    match txn.get(table, row) {
        Ok(found) => Ok(Answer::Row(found)),
        Err(Fault::Refused(why)) => Ok(Answer::Refused(why)),
        Err(Fault::OutOfMemory) => Err(OutOfMemory),
    }
}

// Reads a table.
pub(crate) fn scan<A: AllocHandle>(
    txn: &mut Txn<A>,
    table: &Name<A>,
) -> Result<Answer<A>, OutOfMemory>
    ensures { IfOk result (λ answer. IsCalled txn.old (Asked.Scan table.now) answer txn.new) }
{
    match txn.scan(table) {
        Ok(rows) => Ok(Answer::Rows(rows)),
        Err(Fault::Refused(why)) => Ok(Answer::Refused(why)),
        Err(Fault::OutOfMemory) => Err(OutOfMemory),
    }
}

// Makes a savepoint.
fn savepoint<A: AllocHandle>(txn: &mut Txn<A>) -> Result<Answer<A>, OutOfMemory>
    ensures { IfOk result (λ answer. IsCalled txn.old Asked.Savepoint answer txn.new) }
{
    match txn.savepoint() {
        Ok(mark) => Ok(Answer::Mark(mark)),
        Err(Fault::Refused(why)) => Ok(Answer::Refused(why)),
        Err(Fault::OutOfMemory) => Err(OutOfMemory),
    }
}

// Goes back to a savepoint.
fn back_to<A: AllocHandle>(txn: &mut Txn<A>, mark: Mark) -> Result<Answer<A>, OutOfMemory>
    ensures { IfOk result (λ answer. IsCalled txn.old (Asked.BackTo mark) answer txn.new) }
{
    match txn.back_to(mark) {
        Ok(()) => Ok(Answer::Done),
        Err(Fault::Refused(why)) => Ok(Answer::Refused(why)),
        Err(Fault::OutOfMemory) => Err(OutOfMemory),
    }
}
