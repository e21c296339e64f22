//! Operations that are made whole or not at all, if a hook allows their changes.
ghost use Rattle.std.specs.Prelude.{◌≡◌, ◌∷◌, [], Ok, Some};
ghost use Rattle.cap_database.specs.KeptKey.{kept_key};
ghost use Rattle.cap_database.specs.Operation.{run};
ghost use Rattle.cap_database.specs.Outcome.{OutcomeState};
ghost use Rattle.cap_database.specs.Write.{Writes};

use crate::write_hook::{RowHook, WriteHook};
use crate::{Database, Op, RefusedAt, run_ops};
use cap_row::Key;
use cap_table::ChangeFault;
use cap_value::{AllocHandle, Fault};

impl<A: AllocHandle> Database<A> {
    /// Makes operations one after another, all of them or none, if the hook allows their changes; or answers
    /// the place of the first that the rules refuse and why, and then the hook is not asked. On an error the
    /// database is as before.
    ///
    /// One alone on a row that has a key and keeps it is made in place, by one way down the tree of the
    /// table's rows. All others are made on a snapshot, which takes the place of the database.
    pub fn write<W: WriteHook<A>>(
        &mut self,
        ops: &[Op<A>],
        hook: &mut W,
    ) -> Result<Result<(), RefusedAt>, Fault<W::Refusal>>
        requires can_ask { (left : OutcomeState A) → run self.old ops.now ≡ Ok left → W.can_ask hook.old }
        ensures { Writes W.gives (run self.old ops.now) self.old self.new hook.old hook.new result }
    {
        match ops {
            [op] => match self.kept_key(op)? {
                Some(key) => self.write_one(op, &key, hook),
                None => self.write_all(ops, hook),
            },
            _ => self.write_all(ops, hook),
        }
    }

    // Makes one operation on a row that keeps this key, in place.
    fn write_one<W: WriteHook<A>>(
        &mut self,
        op: &Op<A>,
        key: &Key<A>,
        hook: &mut W,
    ) -> Result<Result<(), RefusedAt>, Fault<W::Refusal>>
        requires key { kept_key self.old op.now ≡ Some key.now }
        requires can_ask { (left : OutcomeState A) → run self.old (op.now ∷ []) ≡ Ok left
            → W.can_ask hook.old }
        ensures { Writes W.gives (run self.old (op.now ∷ [])) self.old self.new hook.old hook.new result }
    {
        let mut row_hook = RowHook { op, key, hook };
        match self.step_keyed(op, key, &mut row_hook) {
            Ok(()) => Ok(Ok(())),
            Err(ChangeFault::Refused(why)) => Ok(Err(RefusedAt { at: 0, why })),
            Err(ChangeFault::OutOfMemory) => Err(Fault::OutOfMemory),
            Err(ChangeFault::Vetoed(fault)) => Err(fault),
        }
    }

    // Makes operations on a snapshot.
    #[inline(never)]
    fn write_all<W: WriteHook<A>>(
        &mut self,
        ops: &[Op<A>],
        hook: &mut W,
    ) -> Result<Result<(), RefusedAt>, Fault<W::Refusal>>
        requires can_ask { (left : OutcomeState A) → run self.old ops.now ≡ Ok left → W.can_ask hook.old }
        ensures { Writes W.gives (run self.old ops.now) self.old self.new hook.old hook.new result }
    {
        match run_ops(self.allocator(), self, ops) {
            Ok(outcome) => {
                let (database, changes) = outcome.into_parts();
                hook.before_write(changes.as_slice())?;
                *self = database;
                Ok(Ok(()))
            }
            Err(Fault::Refused(refused)) => Ok(Err(refused)),
            Err(Fault::OutOfMemory) => Err(Fault::OutOfMemory),
        }
    }
}
