//! Laws of sessions and captures, over histories alone. The functions do nothing when they run.
ghost use Rattle.std.specs.Prelude.{◌≡◌, ℕ, ◌+◌, ◌&&◌, true, false, Some, None, Ok, [], ◌∷◌, ◌++◌, List, ◌==◌, IsTrue, length, nat_eq};
ghost use Rattle.std.specs.Option.{option_map};
ghost use Rattle.std.specs.FinMap.Entries.{is_sorted};
ghost use Rattle.std.specs.List.{list_any};
ghost use Rattle.cap_value.specs.declared.refusal.Refusal.{Refusal};
ghost use Rattle.cap_row.specs.Fields.{Fields};
ghost use Rattle.cap_row.specs.Key.{fields_cmp};
ghost use Rattle.cap_apply.specs.declared.policy.Policy.{Policy};
ghost use Rattle.cap_changes.specs.Change.{full_record};
ghost use Rattle.cap_changes.specs.Patch.{patch_list_of};
ghost use Rattle.cap_changes.specs.declared.row_change.RowChange.{RowChange};
ghost use Rattle.cap_codec.specs.BlobReading.{blob_at};
ghost use Rattle.cap_codec.specs.Changeset.{list_bytes_with};
ghost use Rattle.cap_codec.specs.Patchset.{patch_list_bytes_with};
ghost use Rattle.cap_codec.specs.Writable.{HasNoEmptyGroup, IsWritable, of_patches};
ghost use Rattle.cap_codec.specs.declared.key_flags.KeyFlags.{KeyFlags};
ghost use Rattle.cap_codec.specs.declared.read.Contents.{Contents};
ghost use Rattle.cap_session.specs.declared.record.Record.{Record};
ghost use Rattle.cap_table.specs.Table.{TableState};
ghost use Rattle.cap_tree.specs.Tree.{get, put_entry};
ghost use Rattle.cap_database.specs.Snapshot.{SnapshotState};
ghost use Rattle.cap_database.specs.Read.{row_at};
ghost use Rattle.cap_database.specs.Tables.{AreRising, Tables};
ghost use Rattle.cap_core.specs.declared.command.Command.{Command};
ghost use Rattle.cap_core.specs.declared.session_command.SessionCommand.{SessionCommand};
ghost use Rattle.cap_session.specs.declared.session_change.SessionChange.{SessionChange};
ghost use Rattle.cap_core.specs.declared.event.Event.{Event};
ghost use Rattle.cap_core.specs.declared.reply.Reply.{Reply};
ghost use Rattle.cap_core.specs.Answer.{IsLegalPast, answer, capture_after, refusal, state_after};
ghost use Rattle.cap_core.specs.Capture.{CaptureState, change_now, session_changes};
ghost use Rattle.cap_core.specs.AppliedCapture.{AppliesRows, AppliesWhole, AreQuiet, HoldsImages, IsDiffed, changes_in};
ghost use Rattle.cap_core.specs.Flags.{command_to, is_quiet, live_sessions, session_named};
ghost use Rattle.cap_core.specs.History.{event_effect, main, version};
ghost use Rattle.cap_core_laws.specs.Insert.{HasChange, IsInsertOfAbsent, changes_by_key};
ghost use Rattle.cap_database.specs.Carried.{is_of_row};
ghost use Rattle.cap_core.specs.Past.{Past, is_accepted};
ghost use Rattle.cap_core.specs.Replies.{replies_after};
ghost use Rattle.cap_core_laws.specs.Restarts.{AppliesAll, AppliesAllPatches, HasRowsNow, HoldsFirst, IsSteady, captures};
ghost use Rattle.cap_core.specs.Session.{all_indirect, records_of, session_of};
ghost use Rattle.cap_core.specs.Table.{BlobsFitPast};
ghost use Rattle.cap_core.specs.Touch.{Touch, restarts, touches, touches_of};

use cap_database::Database;
use cap_value::AllocHandle;

/// A session without touches captures nothing.
pub fn untouched_captures_nothing<A: AllocHandle>()
    ensures { (past : Past A) (session : ℕ) → touches session past ≡ []
        → session_changes (main past) (session_of past session) ≡ [] }
{}

/// `IsEmpty` answers of a live session whether nothing touched it since it was last restarted, and else that
/// there is no such session.
pub fn empty_without_touches<A: AllocHandle>()
    ensures live { (past : Past A) (session : ℕ) → list_any (nat_eq session) (live_sessions past) ≡ true
        → answer (state_after past) (Command.Session session SessionCommand.IsEmpty)
        ≡ Reply.Flag (length (touches session past) == 0) }
    ensures none { (past : Past A) (session : ℕ) → list_any (nat_eq session) (live_sessions past) ≡ false
        → answer (state_after past) (Command.Session session SessionCommand.IsEmpty)
        ≡ refusal Refusal.NoSession }
{}

/// After an accepted insert into a table that an enabled session has attached, or attaches by its rule, of a
/// key that had no row when the session first touched it, a capture has that INSERT as the key's only change,
/// whatever records the session has of other keys and tables.
pub fn insert_is_captured<A: AllocHandle>()
    ensures { (past : Past A) (event : Event A) (session : ℕ) (name : List ℕ) (table : TableState A)
        (key : Fields A) (row : Fields A)
        → IsInsertOfAbsent past event session name table key row
        → HasChange (session_changes (main (event ∷ past)) (session_of (event ∷ past) session))
        name table.schema
        (changes_by_key (record table { keyed = put_entry fields_cmp table.keyed key row })
        (records_of (touches_of name (touches session (event ∷ past)))))
        key (RowChange.Insert false (full_record row)) }
{}

/// A session has one record of a key however often it is touched, with the image of the key's first touch.
pub fn one_record_a_key<A: AllocHandle>()
    ensures once { (touched : List (Fields A × Touch A))
        → IsTrue (is_sorted fields_cmp (records_of touched)) }
    ensures first { (touched : List (Fields A × Touch A)) (key : Fields A) →
        get fields_cmp (records_of touched) key
        ≡ option_map (λ touch. record { image = touch.image; indirect = all_indirect touched key })
        (get fields_cmp touched key) }
{}

/// A touched key whose row is again as it was at the first touch has no change.
pub fn restored_row_is_no_change<A: AllocHandle>()
    ensures { (table : TableState A) (key : Fields A) (touched : Record A) → touched.image
        ≡ get fields_cmp table.keyed key → change_now table (key, touched) ≡ None }
{}

/// A refused command changes no later reply, whatever commands follow.
pub fn refusal_changes_no_reply<A: AllocHandle>()
    ensures { (past : Past A) (event : Event A) → IsLegalPast (event ∷ past) → is_accepted event.reply ≡ false
        → (commands : List (Command A)) → replies_after (event ∷ past) commands
        ≡ replies_after past commands }
{}

/// In every database names, keys and ids rise, ids are at least 1 and at most 2^63 - 1, and each row is
/// stored under its own primary key, or under an id where it has none. The call does nothing.
pub fn database_rises<A: AllocHandle>(database: &Database<A>)
    ensures { AreRising database.now }
{
    let _tables = database.len();
    database.sound_rows_law();
}

/// A capture, applied to a database that has the tables of its touched rows with the same columns and the
/// first image at each touched key, gives the present rows at these keys, and changes nothing else. There is
/// no conflict under any policy. The patchset does the same as the changeset. `Capture` and `Restart` give
/// the same capture. Its version is the number of accepted commands that write before it. Every database is
/// rising (`database_rises`), and in every history that a program can make the blobs fit
/// (`fitting_histories_grow`).
pub fn a_capture_gives_the_rows_now<A: AllocHandle>()
    ensures changeset { (past : Past A) (session : ℕ) (capture : CaptureState A) (database : Tables A)
        (policy : Policy)
        → capture_after past session ≡ Reply.Capture capture → AreRising database
        → BlobsFitPast past → HoldsImages database (main past) (session_of past session).tables
        → AppliesWhole policy (Contents.Changes capture.changes) (changes_in capture.changes) database
        (main past) (session_of past session).tables }
    ensures patchset { (past : Past A) (session : ℕ) (capture : CaptureState A) (database : Tables A)
        (policy : Policy)
        → capture_after past session ≡ Reply.Capture capture → AreRising database
        → BlobsFitPast past → HoldsImages database (main past) (session_of past session).tables
        → AppliesWhole policy (Contents.Patches (patch_list_of capture.changes))
        (changes_in capture.changes) database (main past) (session_of past session).tables }
    ensures restart { (past : Past A) (session : ℕ)
        → answer (state_after past) (Command.Session session (SessionCommand.Change SessionChange.Restart))
        ≡ capture_after past session }
    ensures version { (past : Past A) (session : ℕ) (capture : CaptureState A)
        → capture_after past session ≡ Reply.Capture capture
        → capture.version ≡ version past }
{
    cap_apply_laws::laws::a_changeset_gives_the_rows_now::<A>();
    cap_apply_laws::laws::a_patchset_gives_the_rows_now::<A>();
    cap_apply::laws::applied_blobs_keep_order::<A>();
    cap_database::laws::tables_keep_order::<A>();
}

/// An application leaves each quiet session as it is: its flags, its filter, its tables and its records.
pub fn quiet_sessions_stay<A: AllocHandle>()
    ensures { (past : Past A) (event : Event A) (session : ℕ) → is_quiet session event.command ≡ true
        → session_of (event ∷ past) session ≡ session_of past session }
{}

/// A session without records is diffed; after that nothing is written, and the session is neither diffed nor
/// restarted. Its capture, applied to the saved database of the diff, gives the table its present rows, key
/// by key. There is no conflict under any policy. The patchset does the same.
pub fn a_capture_after_a_diff_gives_the_rows_now<A: AllocHandle>()
    ensures changeset { (past : Past A) (event : Event A) (later : List (Event A)) (session : ℕ)
        (name : List ℕ) (database : Tables A) (table : TableState A) (capture : CaptureState A)
        (policy : Policy)
        → IsDiffed past event session name database table → AreQuiet session later → BlobsFitPast past
        → capture_after (later ++ event ∷ past) session ≡ Reply.Capture capture
        → AppliesRows policy (Contents.Changes capture.changes) (changes_in capture.changes) database
        (main (later ++ event ∷ past)) name }
    ensures patchset { (past : Past A) (event : Event A) (later : List (Event A)) (session : ℕ)
        (name : List ℕ) (database : Tables A) (table : TableState A) (capture : CaptureState A)
        (policy : Policy)
        → IsDiffed past event session name database table → AreQuiet session later → BlobsFitPast past
        → capture_after (later ++ event ∷ past) session ≡ Reply.Capture capture
        → AppliesRows policy (Contents.Patches (patch_list_of capture.changes))
        (changes_in capture.changes) database (main (later ++ event ∷ past)) name }
{
    cap_apply_laws::laws::a_changeset_gives_the_rows_now::<A>();
    cap_apply_laws::laws::a_patchset_gives_the_rows_now::<A>();
    cap_apply::laws::applied_blobs_keep_order::<A>();
    cap_compare::laws::differences_are_just_those::<A>();
    cap_database::laws::tables_keep_order::<A>();
}

/// Captures in a row, each by a restart of the session, are applied in order to a database that has, for each
/// key touched over all of them, its table with the present columns and the first image. They give at each of
/// these keys the row at the last restart. At the start the session has no touches; from then on it is
/// enabled and not diffed. The patchsets do the same.
pub fn captures_in_a_row_give_the_rows_now<A: AllocHandle>()
    ensures changesets { (policy : Policy) (session : ℕ) (start : Past A) (later : List (Event A))
        (event : Event A) (database : Tables A)
        → touches session start ≡ []
        → (is_accepted event.reply && restarts (command_to session event.command)) ≡ true
        → IsSteady session (event ∷ later) start → HoldsFirst database session (event ∷ later) start
        → AreRising database → BlobsFitPast (event ∷ later ++ start)
        → (left : Tables A) × AppliesAll policy (captures session (event ∷ later) start) database left
        × HasRowsNow left session (event ∷ later) start }
    ensures patchsets { (policy : Policy) (session : ℕ) (start : Past A) (later : List (Event A))
        (event : Event A) (database : Tables A)
        → touches session start ≡ []
        → (is_accepted event.reply && restarts (command_to session event.command)) ≡ true
        → IsSteady session (event ∷ later) start → HoldsFirst database session (event ∷ later) start
        → AreRising database → BlobsFitPast (event ∷ later ++ start)
        → (left : Tables A)
        × AppliesAllPatches policy (captures session (event ∷ later) start) database left
        × HasRowsNow left session (event ∷ later) start }
{
    cap_apply_laws::laws::a_changeset_gives_the_rows_now::<A>();
    cap_apply_laws::laws::a_patchset_gives_the_rows_now::<A>();
    cap_apply::laws::applied_blobs_keep_order::<A>();
    cap_apply_laws::laws::captures_fit_their_columns::<A>();
    cap_database::laws::tables_keep_columns::<A>();
    cap_database::laws::tables_keep_order::<A>();
}

/// Whatever the command, a row under a key that none of its changes names stays as it was: so no session
/// misses a row.
pub fn a_row_that_no_change_names_stays<A: AllocHandle>()
    ensures { (now : SnapshotState A) (event : Event A) (name : List ℕ) (key : Fields A)
        → list_any (is_of_row name key) (event_effect now event).changes ≡ false
        → row_at (event_effect now event).database name key ≡ row_at now.database name key }
{}

/// A command to one session, as one that ends it, changes no capture of another session, whatever comes
/// between.
pub fn a_session_changes_no_others_capture<A: AllocHandle>()
    ensures { (past : Past A) (event : Event A) (one : ℕ) (other : ℕ) → session_named event.command ≡ Some one
        → (other ≡ one → ⊥) → (later : List (Event A))
        → capture_after (later ++ event ∷ past) other ≡ capture_after (later ++ past) other }
{}

/// The order of two sessions' commands, one after the other, does not matter to any capture, whatever comes
/// between.
pub fn order_of_two_sessions_does_not_matter<A: AllocHandle>()
    ensures { (past : Past A) (first : Event A) (second : Event A) (one : ℕ) (other : ℕ)
        → session_named first.command ≡ Some one → session_named second.command ≡ Some other
        → (one ≡ other → ⊥) → (later : List (Event A)) (session : ℕ)
        → capture_after (later ++ second ∷ first ∷ past) session
        ≡ capture_after (later ++ first ∷ second ∷ past) session }
{}

/// A capture has no group without changes.
pub fn captures_have_no_empty_group<A: AllocHandle>()
    ensures { (past : Past A) (session : ℕ) (capture : CaptureState A)
        → capture_after past session ≡ Reply.Capture capture
        → HasNoEmptyGroup (Contents.Changes capture.changes) }
{}

/// The bytes of a capture, with either key flags, are read as just its changes, and those of its patchset as
/// the patches of these, or as an empty changeset where there is no change. What is read, applied to a
/// database with the first images, gives the present rows at the touched keys, and changes nothing else. It
/// counts each change as applied, under any policy, and there is no conflict. The changes of every capture
/// can be written (`a_capture_is_writable`).
pub fn bytes_of_a_capture_give_the_rows_now<A: AllocHandle>()
    ensures changeset_read { (past : Past A) (session : ℕ) (capture : CaptureState A)
        (key_flags : KeyFlags)
        → capture_after past session ≡ Reply.Capture capture
        → IsWritable (Contents.Changes capture.changes)
        → blob_at (list_bytes_with key_flags capture.changes) ≡ Ok (Contents.Changes capture.changes) }
    ensures patchset_read { (past : Past A) (session : ℕ) (capture : CaptureState A)
        (key_flags : KeyFlags)
        → capture_after past session ≡ Reply.Capture capture
        → IsWritable (Contents.Changes capture.changes)
        → blob_at (patch_list_bytes_with key_flags (patch_list_of capture.changes))
        ≡ Ok (of_patches (patch_list_of capture.changes)) }
    ensures changeset { (past : Past A) (session : ℕ) (capture : CaptureState A) (database : Tables A)
        (policy : Policy) (key_flags : KeyFlags) (blob : Contents A)
        → capture_after past session ≡ Reply.Capture capture
        → IsWritable (Contents.Changes capture.changes) → AreRising database → BlobsFitPast past
        → HoldsImages database (main past) (session_of past session).tables
        → blob_at (list_bytes_with key_flags capture.changes) ≡ Ok blob
        → AppliesWhole policy blob (changes_in capture.changes) database (main past)
        (session_of past session).tables }
    ensures patchset { (past : Past A) (session : ℕ) (capture : CaptureState A) (database : Tables A)
        (policy : Policy) (key_flags : KeyFlags) (blob : Contents A)
        → capture_after past session ≡ Reply.Capture capture
        → IsWritable (Contents.Changes capture.changes) → AreRising database → BlobsFitPast past
        → HoldsImages database (main past) (session_of past session).tables
        → blob_at (patch_list_bytes_with key_flags (patch_list_of capture.changes)) ≡ Ok blob
        → AppliesWhole policy blob (changes_in capture.changes) database (main past)
        (session_of past session).tables }
{
    a_capture_gives_the_rows_now::<A>();
    captures_have_no_empty_group::<A>();
    cap_codec_laws::laws::written_is_read_again::<A>();
}
