//! The calls of a transaction, and their answers.
use crate::Mark;
use cap_database::Op;
use cap_row::Row;
use cap_table::{RowRef, Rows};
use cap_value::{AllocHandle, Name, Refusal};

/// A call of a transaction.
pub enum Asked<A: AllocHandle> {
    /// `Txn::op` or `Txn::op_without_limit`.
    Op(Op<A>),
    /// `Txn::get` of a row of a table.
    Get(Name<A>, RowRef<A>),
    /// `Txn::scan` of a table.
    Scan(Name<A>),
    /// `Txn::savepoint`.
    Savepoint,
    /// `Txn::back_to`.
    BackTo(Mark),
}

/// What a call of a transaction was answered.
pub enum Answer<A: AllocHandle> {
    /// It was done.
    Done,
    /// It was refused.
    Refused(Refusal),
    /// The row, or its absence.
    Row(Option<Row<A>>),
    /// All rows of the table.
    Rows(Rows<A>),
    /// The savepoint.
    Mark(Mark),
}

/// A call of a transaction, with its answer.
pub struct AnsweredCall<A: AllocHandle> {
    /// The call.
    pub call: Asked<A>,
    /// The answer.
    pub answer: Answer<A>,
}

// A derived `Drop` would be opened at each place where one is dropped.
impl<A: AllocHandle> Drop for Asked<A> {
    fn drop(self) {
        match self {
            Asked::Op(_) => {}
            Asked::Get(_, _) => {}
            Asked::Scan(_) => {}
            Asked::Savepoint => {}
            Asked::BackTo(_) => {}
        }
    }
}

impl<A: AllocHandle> Drop for Answer<A> {
    fn drop(self) {
        match self {
            Answer::Done => {}
            Answer::Refused(_) => {}
            Answer::Row(_) => {}
            Answer::Rows(_) => {}
            Answer::Mark(_) => {}
        }
    }
}

impl<A: AllocHandle> Drop for AnsweredCall<A> {
    fn drop(self) {
        let AnsweredCall { call: _, answer: _ } = self;
    }
}
