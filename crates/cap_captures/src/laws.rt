//! Laws of captures in a row. The functions do nothing when they run.
ghost use Rattle.std.specs.Prelude.{◌≡◌, ℕ, ◌&&◌, Bool, true, List, Ok, Option, [], ◌∷◌, ◌++◌, map};
ghost use Rattle.cap_row.specs.Fields.{Fields};
ghost use Rattle.cap_database.specs.Read.{row_at};
ghost use Rattle.cap_database.specs.Tables.{AreRising, Tables, schema_of};
ghost use Rattle.cap_changes.specs.Group.{TableChanges};
ghost use Rattle.cap_codec.specs.declared.read.Contents.{Contents};
ghost use Rattle.cap_codec.specs.declared.read.Contents.TheVariants.{Changes};
ghost use Rattle.cap_group.specs.ChangeGroup.{concat_of};
ghost use Rattle.cap_apply.specs.Applied.{AppliedState};
ghost use Rattle.cap_apply.specs.Apply.{apply};
ghost use Rattle.cap_apply.specs.declared.policy.Policy.{Policy};
ghost use Rattle.cap_core.specs.declared.event.Event.{Event};
ghost use Rattle.cap_core.specs.AppliedCapture.{GivesRows};
ghost use Rattle.cap_core.specs.Capture.{session_changes};
ghost use Rattle.cap_core.specs.Flags.{command_to};
ghost use Rattle.cap_core.specs.History.{main};
ghost use Rattle.cap_core.specs.Past.{Past, is_accepted};
ghost use Rattle.cap_core_laws.specs.Restarts.{AppliesAll, AppliesAllPatches, HoldsFirst, IsSteady, captures};
ghost use Rattle.cap_core.specs.Session.{session_of};
ghost use Rattle.cap_core.specs.Table.{BlobsFitPast};
ghost use Rattle.cap_core.specs.Touch.{restarts, touches};
ghost use Rattle.cap_captures.specs.Captures.{AreUnrestarted, HasCaptureOver, as_direct, capture_over};
ghost use Rattle.cap_captures.specs.Captures.{first_row, session_over};
ghost use Rattle.cap_captures.specs.Rows.{AreInARow, HasTogether, row_changes};

use cap_value::AllocHandle;

/// Changesets of which each begins from the rows that the one before it leaves have a concatenation. It has
/// of each row what the row's changes in them are together, and no other change.
pub fn concatenation_of_changesets_in_a_row<A: AllocHandle>()
    ensures { (columns : List ℕ → Option (List Bool)) (first last : List ℕ → Fields A → Option (Fields A))
        (lists : List (List (TableChanges A))) → AreInARow columns first last lists →
        (groups : List (TableChanges A)) × (concat_of (map Changes lists) ≡ Ok (Changes groups))
        × HasTogether columns lists groups }
{}

/// Changesets of which each begins from the rows that the one before it leaves can be concatenated in two
/// steps: those before any place in the row, those behind it, and then the two. That has of each row the
/// change that the concatenation at once has: the same operation with the same records. The indirect flag may
/// differ.
pub fn concatenation_in_two_steps<A: AllocHandle>()
    ensures { (columns : List ℕ → Option (List Bool)) (first last : List ℕ → Fields A → Option (Fields A))
        (lists others : List (List (TableChanges A))) → AreInARow columns first last (lists ++ others)
        → (one other both whole : List (TableChanges A))
        × (concat_of (map Changes lists) ≡ Ok (Changes one))
        × (concat_of (map Changes others) ≡ Ok (Changes other))
        × (concat_of (Changes one ∷ Changes other ∷ []) ≡ Ok (Changes both))
        × (concat_of (map Changes (lists ++ others)) ≡ Ok (Changes whole))
        × ((name : List ℕ) (key : Fields A)
        → map as_direct (row_changes name key both) ≡ map as_direct (row_changes name key whole)) }
{}

/// The one capture over all of a session's restarts is what the session captures where it has a capture in
/// place of each restart, and the same commands otherwise.
pub fn the_one_capture_is_without_restarts<A: AllocHandle>()
    ensures { (session : ℕ) (start : Past A) (later others : List (Event A)) → touches session start ≡ []
        → AreUnrestarted session later others
        → session_changes (main (others ++ start)) (session_of (others ++ start) session)
        ≡ capture_over session later start }
{}

/// Of captures in a row, each by a restart of the session, each begins from the rows that the one before it
/// leaves. They have a concatenation. It has of each row the change that the one capture over all of them
/// has: the same operation with the same records. It has the same indirect flag too, where all touches of the
/// row have one, or where the row has changed at each restart. At the start the session has no touches; from
/// then on it is enabled and not diffed.
pub fn captures_in_a_row_are_the_one_capture<A: AllocHandle>()
    ensures follow { (session : ℕ) (start : Past A) (later : List (Event A)) (event : Event A)
        → touches session start ≡ [] → (is_accepted event.reply && restarts (command_to session event.command)) ≡ true
        → IsSteady session (event ∷ later) start → BlobsFitPast (event ∷ later ++ start)
        → AreInARow (schema_of (main (event ∷ later ++ start))) (first_row session (event ∷ later) start)
        (row_at (main (event ∷ later ++ start))) (captures session (event ∷ later) start) }
    ensures concatenation { (session : ℕ) (start : Past A) (later : List (Event A)) (event : Event A)
        → touches session start ≡ [] → (is_accepted event.reply && restarts (command_to session event.command)) ≡ true
        → IsSteady session (event ∷ later) start → BlobsFitPast (event ∷ later ++ start)
        → (groups : List (TableChanges A))
        × (concat_of (map Changes (captures session (event ∷ later) start)) ≡ Ok (Changes groups))
        × HasCaptureOver session (event ∷ later) start groups }
{
    cap_apply::laws::applied_blobs_keep_order::<A>();
    cap_database::laws::tables_keep_columns::<A>();
    cap_database::laws::tables_keep_order::<A>();
}

/// Captures in a row, applied one after the other to a database that has, for each key touched over all of
/// them, its table with the present columns and the first image, leave the database that their concatenation
/// leaves. It has at each of these keys the row at the last restart, and all else as before. So it is under
/// any policy. The patchsets of the captures, one after the other, leave the same.
pub fn the_concatenation_applies_as_its_captures<A: AllocHandle>()
    ensures changesets { (policy : Policy) (session : ℕ) (start : Past A) (later : List (Event A))
        (event : Event A) (database : Tables A) (blob : Contents A)
        → touches session start ≡ [] → (is_accepted event.reply && restarts (command_to session event.command)) ≡ true
        → IsSteady session (event ∷ later) start → BlobsFitPast (event ∷ later ++ start)
        → AreRising database → HoldsFirst database session (event ∷ later) start
        → concat_of (map Changes (captures session (event ∷ later) start)) ≡ Ok blob
        → (left : AppliedState A) × (apply database blob policy ≡ Ok left)
        × AppliesAll policy (captures session (event ∷ later) start) database left.database
        × GivesRows database (main (event ∷ later ++ start)) left.database
        (session_over session (event ∷ later) start).tables }
    ensures patchsets { (policy : Policy) (session : ℕ) (start : Past A) (later : List (Event A))
        (event : Event A) (database : Tables A) (blob : Contents A)
        → touches session start ≡ [] → (is_accepted event.reply && restarts (command_to session event.command)) ≡ true
        → IsSteady session (event ∷ later) start → BlobsFitPast (event ∷ later ++ start)
        → AreRising database → HoldsFirst database session (event ∷ later) start
        → concat_of (map Changes (captures session (event ∷ later) start)) ≡ Ok blob
        → (left : AppliedState A) × (apply database blob policy ≡ Ok left)
        × AppliesAllPatches policy (captures session (event ∷ later) start) database left.database
        × GivesRows database (main (event ∷ later ++ start)) left.database
        (session_over session (event ∷ later) start).tables }
{
    cap_apply_laws::laws::a_changeset_gives_the_rows_now::<A>();
    cap_apply_laws::laws::a_patchset_gives_the_rows_now::<A>();
    cap_apply::laws::applied_blobs_keep_order::<A>();
    cap_apply_laws::laws::captures_fit_their_columns::<A>();
    cap_database::laws::tables_keep_columns::<A>();
    cap_database::laws::tables_keep_order::<A>();
}
