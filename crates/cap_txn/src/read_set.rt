//! What a transaction saw.
use crate::{AnsweredCall, Item};
use cap_database::Snapshot;
use cap_value::AllocHandle;
use std::marker::Model;

// What a transaction saw: its base, what it looked at there, and its calls with their answers.
pub(crate) struct ReadSet<A: AllocHandle> {
    pub(crate) base: Snapshot<A>,
    pub(crate) footprint: Vec<Item<A>, A>,
    pub(crate) trace: Vec<AnsweredCall<A>, A>,
}

impl<A: AllocHandle> Model for ReadSet<A> {
    ghost use Rattle.cap_txn.specs.ReadSet.{ReadSetState};

    ghost Value = { ReadSetState A };

    ghost view = { λ s. record {
      database = s.base.database;
      footprint = s.footprint.items;
      trace = s.trace.items;
    } };
}

// A derived `Drop` would be opened at each place where one is dropped.
impl<A: AllocHandle> Drop for ReadSet<A> {
    fn drop(self) {
        let ReadSet {
            base: _,
            footprint: _,
            trace: _,
        } = self;
    }
}
