//! Laws of whole changesets. The functions do nothing when they run.
ghost use Rattle.std.specs.Prelude.{◌≡◌, List, ◌++◌, Ok, map};
ghost use Rattle.std.specs.List.{AllByRecursion};
ghost use Rattle.cap_database.specs.Read.{row_at};
ghost use Rattle.cap_database.specs.Tables.{AreRising, Tables};
ghost use Rattle.cap_changes.specs.Group.{TableChanges};
ghost use Rattle.cap_codec.specs.declared.read.Contents.TheVariants.{Changes};
ghost use Rattle.cap_apply.specs.Fitting.{FitsItsColumns};
ghost use Rattle.cap_apply.specs.declared.policy.Policy.{Policy};
ghost use Rattle.cap_group.specs.ChangeGroup.{concat_of};
ghost use Rattle.cap_captures.specs.Rows.{AreInARow};
ghost use Rattle.cap_rebase.specs.Rebaser.{Buffers, rebase};
ghost use Rattle.cap_convergence.specs.Convergence.{AreAppliedInTurn, Columns, HasOneChangeEach, HasTables};
ghost use Rattle.cap_convergence.specs.Convergence.{HaveSameRows, IsAppliedWhole, LeadsFrom, RemoteChangeset};
ghost use Rattle.cap_convergence.specs.Convergence.{Rows};

use cap_value::AllocHandle;

/// A changeset, applied to a database that has the rows that it leads from, meets no conflict under any
/// policy, and leaves the rows that it leads to.
pub fn a_changeset_applies_to_the_rows_it_leads_from<A: AllocHandle>()
    ensures { (columns : Columns) (before after : Rows A) (changes : List (TableChanges A))
        (database : Tables A) (policy : Policy) → LeadsFrom columns before after changes
        → AreRising database → HasTables columns database → HaveSameRows columns (row_at database) before
        → IsAppliedWhole columns after database changes policy }
{}

/// Changesets of which each begins from the rows that the one before it leaves: their concatenation leads
/// from the first rows to the last, with one change of each row at most.
pub fn a_concatenation_leads_from_the_first_rows_to_the_last<A: AllocHandle>()
    ensures { (columns : Columns) (first last : Rows A) (lists : List (List (TableChanges A)))
        (changes : List (TableChanges A)) → AreInARow columns first last lists
        → AllByRecursion (λ list. FitsItsColumns (Changes list)) lists
        → concat_of (map Changes lists) ≡ Ok (Changes changes)
        → LeadsFrom columns first last changes × HasOneChangeEach changes }
{}

/// A client and a hub have changesets from one base. The client applies those of the hub, one after the
/// other, with success, and has a buffer of each. Its own changeset over these buffers is not refused. It
/// leads from the hub's rows to those that the client then has, with one change of each row at most.
pub fn a_rebased_changeset_leads_from_the_hub_to_the_client<A: AllocHandle>()
    ensures rebased { (columns : Columns) (base hub : Rows A) (client last : Tables A)
        (local : List (TableChanges A)) (remotes : List (RemoteChangeset A)) (buffers : Buffers A)
        → AreRising client → HasTables columns client → LeadsFrom columns base (row_at client) local
        → HasOneChangeEach local → AreAppliedInTurn columns base client remotes buffers hub last
        → (rebased : List (TableChanges A)) × (rebase buffers local ≡ Ok rebased)
        × LeadsFrom columns hub (row_at last) rebased × HasOneChangeEach rebased }
    // So on the hub it meets no conflict, and the hub then has the client's rows.
    ensures hub { (columns : Columns) (base hub : Rows A) (client last main : Tables A)
        (local : List (TableChanges A)) (remotes : List (RemoteChangeset A)) (buffers : Buffers A)
        (policy : Policy)
        → AreRising client → HasTables columns client → LeadsFrom columns base (row_at client) local
        → HasOneChangeEach local → AreAppliedInTurn columns base client remotes buffers hub last
        → AreRising main → HasTables columns main → HaveSameRows columns (row_at main) hub
        → (rebased : List (TableChanges A)) × (rebase buffers local ≡ Ok rebased)
        × IsAppliedWhole columns (row_at last) main rebased policy }
{
    cap_apply::laws::applied_blobs_keep_order::<A>();
}

/// A changeset over several buffers, if it is not refused, is what it is over the first of them and then over
/// the others.
pub fn rebased_over_one_buffer_after_the_other<A: AllocHandle>()
    ensures { (buffers more : Buffers A) (changes rebased : List (TableChanges A))
        → AllByRecursion (λ buffer. FitsItsColumns (Changes buffer)) (buffers ++ more)
        → FitsItsColumns (Changes changes) → rebase (buffers ++ more) changes ≡ Ok rebased
        → (between : List (TableChanges A)) × (rebase buffers changes ≡ Ok between)
        × (rebase more between ≡ Ok rebased) }
{}
