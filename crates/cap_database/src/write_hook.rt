//! Hooks that are shown what operations change.
ghost use Rattle.std.specs.Prelude.{◌≡◌, ◌∷◌, [], IfOk, List, Result};
ghost use Rattle.std.specs.Option.{option_copied};
ghost use Rattle.cap_database.specs.KeptKey.{change_of};
ghost use Rattle.cap_database.specs.Write.{AnswersChanges};
ghost use Rattle.cap_database.specs.declared.change.Change.{Change};

use crate::{Change, Op};
use cap_row::{Key, Row};
use cap_tree::Hook;
use cap_value::{AllocHandle, Fault, OutOfMemory};

/// A hook that is shown the changes of operations before they take effect, and allows or refuses all of them
/// (sqlite3_preupdate_hook). It may change itself. It is asked once, when nothing but its own memory is left
/// to be reserved, and where it allows the changes they cannot fail.
///
/// Of an update that is made alone and keeps its row's key it is shown the first change, of the row that goes,
/// and not that of the row that comes.
pub trait WriteHook<A: AllocHandle> {
    /// Why it refuses.
    type Refusal: Drop;

    // Whether it may be asked.
    ghost can_ask: { Self → Type 0 };

    // The hook before the call, the changes, its answer, and the hook after the call.
    ghost gives: { Self → List (Change A) → Result Unit Self.Refusal → Self → Type 0 };

    /// Allows the changes, or refuses them.
    fn before_write(&mut self, changes: &[Change<A>]) -> Result<(), Fault<Self::Refusal>>
        requires { can_ask self.old }
        ensures { AnswersChanges gives changes.now self.old self.new result };
}

// A hook as the tree of a table's rows asks it about one operation on the row of this key.
#[derive(Drop)]
pub(crate) struct RowHook<'a, 'b, 'c, A: AllocHandle, W: WriteHook<A>> {
    pub(crate) op: &'a Op<A>,
    pub(crate) key: &'b Key<A>,
    pub(crate) hook: &'c mut W,
}

impl<'a, 'b, 'c, A: AllocHandle, W: WriteHook<A>> Hook<Row<A>> for RowHook<'a, 'b, 'c, A, W> {
    type Refusal = Fault<W::Refusal>;

    ghost use Rattle.std.specs.Prelude.{◌≡◌, [], ◌∷◌};
    ghost use Rattle.cap_database.specs.KeptKey.{change_of};
    ghost use Rattle.cap_database.specs.Write.{AnswersChanges};

    ghost can_ask = { λ own present next. W.can_ask own.hook.now };

    ghost gives = { λ old present next answer new. (new.hook.ghost_name ≡ old.hook.ghost_name)
        × AnswersChanges W.gives (change_of old.op.now old.key.now present ∷ []) old.hook.now new.hook.now
        answer };

    fn before_change(
        &mut self,
        present: Option<&Row<A>>,
        _next: Option<&Row<A>>,
    ) -> Result<(), Fault<W::Refusal>> {
        let change = change_of(self.op, self.key, present)?;
        self.hook.before_write(&[change])
    }
}

// The change of the row of this key by an operation, with the row before it.
fn change_of<A: AllocHandle>(
    op: &Op<A>,
    key: &Key<A>,
    before: Option<&Row<A>>,
) -> Result<Change<A>, OutOfMemory>
    ensures { IfOk result (λ change. change ≡ change_of op.now key.now (option_copied before.entry)) }
{
    let before = match before {
        Some(row) => Some(row.copy()?),
        None => None,
    };
    Ok(Change {
        table: op.table.copy()?,
        key: Some(key.copy()?),
        cause: op.cause,
        before,
    })
}
