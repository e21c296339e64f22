//! Laws of rebasing, over the definitions alone. The functions do nothing at run time.

ghost use Rattle.std.specs.Prelude.{◌≡◌, ◌↔◌, ℕ, Bool, true, List, Option, Some, None, Ok, IsTrue};
ghost use Rattle.cap_row.specs.Fields.{Fields};
ghost use Rattle.cap_changes.specs.Change.{change_of};
ghost use Rattle.cap_changes.specs.Fits.{change_fits};
ghost use Rattle.cap_changes.specs.declared.row_change.RowChange.{RowChange};
ghost use Rattle.cap_group.specs.ChangeKey.{change_key};
ghost use Rattle.cap_group.specs.Rows.{is_indirect};
ghost use Rattle.cap_apply.specs.Difference.{IsUnder};
ghost use Rattle.cap_apply.specs.Policy.{made_anyway};
ghost use Rattle.cap_apply.specs.declared.conflict.ConflictKind.{ConflictKind};
ghost use Rattle.cap_apply.specs.declared.policy.Answer.{Answer};
ghost use Rattle.cap_rebase.specs.Buffer.{answered};
ghost use Rattle.cap_rebase.specs.Flag.{are_of_one_row};
ghost use Rattle.cap_rebase.specs.OneRow.{AreApplied, HaveOneBase, Leads, Remote, all_buffered};
ghost use Rattle.cap_rebase.specs.OneRow.{client_after, conflict_at};
ghost use Rattle.cap_rebase.specs.Rebase.{rebased, rebased_over};

use cap_value::AllocHandle;

/// Changes that fit their table are of one row exactly where they have the same key.
pub fn one_row_has_one_key<A: AllocHandle>()
    ensures { (flags : List Bool) (a b : RowChange A) → IsTrue (change_fits flags a) →
        IsTrue (change_fits flags b) →
        IsTrue (are_of_one_row flags a b) ↔ (change_key flags a ≡ change_key flags b) }
{}

/// A client and a hub have changed one row of their base. The hub's change is applied to the client's row,
/// with success. The client's change over it is then the change from the hub's row to the row that the client
/// has.
pub fn rebased_from_the_hub_to_the_client<A: AllocHandle>()
    // The hub's change meets a conflict.
    ensures conflict { (flags : List Bool) (key : Fields A) (base client hub : Option (Fields A))
        (local remote buffered : RowChange A) (number : ℕ) (kind : ConflictKind) (answer : Answer)
        (made : Bool) → HaveOneBase flags key base client hub local remote →
        conflict_at flags remote client ≡ Some kind → made_anyway number kind answer ≡ Ok made →
        answered answer remote ≡ Some buffered →
        rebased flags buffered local
        ≡ change_of flags (is_indirect local) hub (client_after flags made remote client) }
    // So on the hub it meets none, and leaves the client's row.
    ensures hub { (flags : List Bool) (key : Fields A) (base client hub : Option (Fields A))
        (local remote buffered : RowChange A) (number : ℕ) (kind : ConflictKind) (answer : Answer)
        (made : Bool) → HaveOneBase flags key base client hub local remote →
        conflict_at flags remote client ≡ Some kind → made_anyway number kind answer ≡ Ok made →
        answered answer remote ≡ Some buffered →
        Leads flags hub (rebased flags buffered local) (client_after flags made remote client) }
    // The hub's change meets no conflict, and is not in the buffer: the client's change as it stands.
    ensures none { (flags : List Bool) (key : Fields A) (base client hub : Option (Fields A))
        (local remote : RowChange A) → HaveOneBase flags key base client hub local remote →
        conflict_at flags remote client ≡ None →
        change_of flags (is_indirect local) hub (client_after flags true remote client) ≡ Some local }
{}

/// A client has changed one row of a base, or has not. The hub has changed it too, several times, and each of
/// its changes is applied to the client's row with success. The client's change over what the buffers have of
/// them is then the change from the hub's row to the row that the client has, or there is none and the rows
/// are the same.
pub fn rebased_over_each_in_turn<A: AllocHandle>()
    ensures { (flags : List Bool) (key : Fields A) (indirect : Bool) (base client : Option (Fields A))
        (remotes : List (Remote A)) (last_client last_hub : Option (Fields A)) →
        IsUnder flags key base → IsUnder flags key client →
        AreApplied flags key client base remotes last_client last_hub →
        rebased_over flags (change_of flags indirect base client) (all_buffered remotes)
        ≡ change_of flags indirect last_hub last_client }
{}
