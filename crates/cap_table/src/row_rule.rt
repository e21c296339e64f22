//! What the tree of keyed rows is changed with: the rule on the present row, and the update of a row.
use crate::ChangeFault;
use cap_row::{Row, Schema};
use cap_tree::{Hook, Modify};
use cap_value::{AllocHandle, OutOfMemory, Refusal, Value};

// Refuses a new row whose key is taken, and any other change where there is no row. It asks the caller's hook
// where it refuses nothing.
#[derive(Drop)]
pub(crate) struct RowRule<'a, H> {
    pub(crate) is_new: bool,
    pub(crate) hook: &'a mut H,
}

impl<'a, A: AllocHandle, H: Hook<Row<A>>> Hook<Row<A>> for RowRule<'a, H> {
    type Refusal = ChangeFault<H::Refusal>;

    ghost use Rattle.std.specs.Prelude.{◌≡◌, None};
    ghost use Rattle.cap_table.specs.RowRule.{GivesByRule, refused_row};

    ghost can_ask = { λ rule present next. refused_row rule.is_new present ≡ None
        → H.can_ask rule.hook.now present next };

    ghost gives = { λ old present next answer new. (new.hook.ghost_name ≡ old.hook.ghost_name)
        × GivesByRule (refused_row old.is_new present) answer (new.hook.now ≡ old.hook.now)
        (λ answer. H.gives old.hook.now present next answer new.hook.now) };

    fn before_change(
        &mut self,
        present: Option<&Row<A>>,
        next: Option<&Row<A>>,
    ) -> Result<(), ChangeFault<H::Refusal>> {
        match (self.is_new, present) {
            (true, Some(_)) => Err(ChangeFault::Refused(Refusal::Duplicate)),
            (false, None) => Err(ChangeFault::Refused(Refusal::NoRow)),
            _ => match self.hook.before_change(present, next) {
                Ok(()) => Ok(()),
                Err(why) => Err(ChangeFault::Vetoed(why)),
            },
        }
    }
}

// Sets fields of a row.
#[derive(Drop)]
pub(crate) struct RowUpdate<'a, 'b, 'c, A: AllocHandle> {
    pub(crate) alloc: &'a A,
    pub(crate) schema: &'b Schema<A>,
    pub(crate) fields: &'c [(usize, Value<A>)],
}

impl<'a, 'b, 'c, A: AllocHandle> Modify<Row<A>> for RowUpdate<'a, 'b, 'c, A> {
    ghost use Rattle.std.specs.Prelude.{◌≡◌, length};
    ghost use Rattle.cap_row.specs.Row.{row_with};

    ghost can_modify = { λ update row. length update.schema.now ≡ length row };

    ghost modified = { λ update row. row_with update.fields.now row };

    fn modify(&self, present: &Row<A>) -> Result<Row<A>, OutOfMemory> {
        match present.with_fields(*self.alloc, self.schema, self.fields) {
            Ok(row) => Ok(row),
            // The columns were judged before.
            Err(_) => Err(OutOfMemory),
        }
    }
}
