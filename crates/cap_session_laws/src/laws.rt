//! Laws of sessions, over the definitions alone. The functions do nothing at run time.
ghost use Rattle.std.specs.Prelude.{◌≡◌, ℕ, Bool, true, false, Option, Some, None, [], ◌∷◌, ◌&&◌, List};
ghost use Rattle.std.specs.Prelude.{if◌then◌else◌};
ghost use Rattle.std.specs.List.{list_any};
ghost use Rattle.std.specs.Option.{option_map};
ghost use Rattle.cap_value.specs.Bytes.{bytes_eq};
ghost use Rattle.cap_filter.specs.Rule.{Rule};
ghost use Rattle.cap_row.specs.Fields.{Fields};
ghost use Rattle.cap_row.specs.Key.{fields_cmp};
ghost use Rattle.cap_tree.specs.Tree.{get};
ghost use Rattle.cap_database.specs.Carried.{CarryFirstRows};
ghost use Rattle.cap_database.specs.Read.{row_at};
ghost use Rattle.cap_database.specs.Tables.{Tables};
ghost use Rattle.cap_database.specs.declared.change.Change.{Change};
ghost use Rattle.cap_session.specs.declared.record.Record.{Record};
ghost use Rattle.cap_session.specs.declared.rule.AutomaticRule.{AutomaticRule};
ghost use Rattle.cap_session.specs.Recording.{attach_by_rule, record_commit, touches_of};
ghost use Rattle.cap_session.specs.Records.{Records, Touch, with_touches};
ghost use Rattle.cap_session.specs.Session.{AttachedTables, SessionState, accepts_by, attach_all, records_of};
ghost use Rattle.cap_session.specs.Session.{set_filter};
ghost use Rattle.cap_session.specs.Sessions.{NumberedSessions, record_commit_each};
ghost use Rattle.cap_session_laws.specs.Touched.{AreTouched, touches_at};

use cap_value::AllocHandle;

/// The records after touches: a record keeps its image, a new record has the image of the first touch of its
/// key, a record is indirect where it was and every touch of its key is, and no other key gains or loses a
/// record.
#[tactic(auto, using(crate::proofs::TouchedLemmas::are_touched))]
pub fn touches_make_these_records<A: AllocHandle>()
    ensures { (before : Records A) (touches : List (Touch A))
        → AreTouched before touches (with_touches before touches) }
{}

/// A record is direct from the first direct touch of its key on, whatever touches follow.
pub fn records_stay_direct<A: AllocHandle>()
    ensures { (before : Records A) (t : Touch A) (more : List (Touch A)) (r : Record A) → t.indirect ≡ false
        → get fields_cmp (with_touches before (t ∷ more)) t.key ≡ Some r → r.indirect ≡ false }
{}

/// The image of the first touch of a key by a commit is the row of the database before it.
#[tactic(auto, using(crate::proofs::TouchedLemmas::carried_image))]
pub fn images_are_the_rows_before<A: AllocHandle>()
    ensures { (before : Tables A) (indirect : Bool) (name : List ℕ) (changes : List (Change A))
        (key : Fields A) (first : Touch A) (others : List (Touch A)) → CarryFirstRows before changes
        → touches_at key (touches_of indirect name changes) ≡ first ∷ others
        → first.image ≡ row_at before name key }
{}

/// A commit touches the rows of exactly the tables that are attached after it, each with its own changes.
#[tactic(auto, using(crate::proofs::TouchedLemmas::records_of_touch_tables))]
pub fn commits_touch_attached_tables<A: AllocHandle>()
    ensures { (changes : List (Change A)) (session : SessionState A) (name : List ℕ)
        → session.enabled ≡ true → records_of (record_commit changes session).tables name
        ≡ option_map (λ records. with_touches records (touches_of session.indirect name changes))
        (records_of (attach_by_rule session.rule changes session.tables) name) }
{}

/// Attached tables stay attached with their records. Of the others exactly those are attached that the rule
/// accepts and that have a change, even one of a row without a key.
#[tactic(auto, using(crate::proofs::TouchedLemmas::records_of_attach_by_rule))]
pub fn rule_attaches_changed_tables<A: AllocHandle>()
    ensures stays { (rule : AutomaticRule A) (changes : List (Change A)) (tables : AttachedTables A)
        (name : List ℕ) (records : Records A) → records_of tables name ≡ Some records
        → records_of (attach_by_rule rule changes tables) name ≡ Some records }
    ensures new { (rule : AutomaticRule A) (changes : List (Change A)) (tables : AttachedTables A)
        (name : List ℕ) → records_of tables name ≡ None
        → records_of (attach_by_rule rule changes tables) name
        ≡ (if list_any (λ change. bytes_eq name change.table) changes && accepts_by rule name
        then Some [] else None) }
{}

/// A commit leaves a disabled session unchanged.
pub fn disabled_session_gains_nothing<A: AllocHandle>()
    ensures { (changes : List (Change A)) (session : SessionState A)
        → session.enabled ≡ false → record_commit changes session ≡ session }
{}

/// A second change of a key by the same cause adds nothing, whatever row it carries.
pub fn changes_of_a_key_are_one_touch<A: AllocHandle>()
    ensures { (change : Change A) (row : Option (Fields A)) (quiet : List ℕ) (sessions : NumberedSessions A)
        → record_commit_each (change ∷ record change { before = row } ∷ []) quiet sessions
        ≡ record_commit_each (change ∷ []) quiet sessions }
{}

/// A filter takes precedence over attaching every table, in whatever order they are set.
pub fn filter_decides<A: AllocHandle>()
    ensures first { (rule : Rule) (session : SessionState A)
        → attach_all (set_filter rule session) ≡ set_filter rule session }
    ensures last { (rule : Rule) (session : SessionState A)
        → set_filter rule (attach_all session) ≡ set_filter rule session }
{}
