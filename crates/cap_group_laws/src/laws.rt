//! Laws of changegroups, over the definitions alone. The functions do nothing at run time.

ghost use Rattle.std.specs.Prelude.{◌≡◌, ◌∷◌, [], ℕ, Bool, List, Option, Ok, All};
ghost use Rattle.std.specs.Option.{ForSome};
ghost use Rattle.cap_row.specs.Fields.{Fields};
ghost use Rattle.cap_row.specs.Key.{fields_cmp};
ghost use Rattle.cap_tree.specs.Tree.{get};
ghost use Rattle.cap_changes.specs.Change.{change_of};
ghost use Rattle.cap_changes.specs.declared.row_change.RowChange.{RowChange};
ghost use Rattle.cap_changes.specs.declared.patch.Patch.{Patch};
ghost use Rattle.cap_codec.specs.Writable.{with_some};
ghost use Rattle.cap_codec.specs.declared.read.Contents.{Contents};
ghost use Rattle.cap_group.specs.ChangeGroup.{concat_of};
ghost use Rattle.cap_group.specs.ChangeKey.{change_key, patch_key};
ghost use Rattle.cap_group.specs.Combined.{combined, patches_combined};
ghost use Rattle.cap_group.specs.KeyedChanges.{no_changes, with_changes};
ghost use Rattle.cap_group.specs.Rows.{Follow, IsRowUnder};
ghost use Rattle.cap_group.specs.Rows.{changes_of_row, is_indirect, together};
ghost use Rattle.cap_group_laws.specs.OneEach.{BlobHasOneForEachRow};

use cap_value::AllocHandle;

/// The concatenation of one list is that list without its empty groups, where it has one change for each row
/// as SQLite makes them.
#[tactic(auto, using(crate::proofs::AloneLemmas::one_blob))]
pub fn one_list_alone<A: AllocHandle>()
    ensures { (blob : Contents A) → BlobHasOneForEachRow blob →
        concat_of (blob ∷ []) ≡ Ok (with_some blob) }
{}

/// The change at each key of a table is what the changes of that row make together, one after the other.
#[tactic(auto, using(cap_group::proofs::RowLemmas::row_alone))]
pub fn each_row_by_itself<A: AllocHandle>()
    ensures changes { (table : List ℕ) (flags : List Bool) (changes : List (RowChange A)) (row : Fields A) →
        get fields_cmp (with_changes change_key combined (no_changes table flags) changes).changes row
        ≡ together combined flags (changes_of_row change_key flags row changes) }
    ensures patches { (table : List ℕ) (flags : List Bool) (changes : List (Patch A)) (row : Fields A) →
        get fields_cmp
        (with_changes patch_key (λ flags. patches_combined) (no_changes table flags) changes).changes row
        ≡ together (λ flags. patches_combined) flags (changes_of_row patch_key flags row changes) }
{}

/// Changes of one row of which each leads to the row that the next begins from are together the change from
/// the first row to the last. It is indirect where they all are, and direct where they all are.
pub fn changes_that_follow<A: AllocHandle>()
    ensures change { (flags : List Bool) (key : Fields A) (first : Option (Fields A))
        (changes : List (RowChange A)) (last : Option (Fields A)) → ForSome first (IsRowUnder flags key) →
        Follow flags key first changes last →
        (indirect : Bool) × (together combined flags changes ≡ change_of flags indirect first last) }
    ensures flag { (flags : List Bool) (key : Fields A) (indirect : Bool) (first : Option (Fields A))
        (changes : List (RowChange A)) (last : Option (Fields A)) → ForSome first (IsRowUnder flags key) →
        Follow flags key first changes last → All (λ change. is_indirect change ≡ indirect) changes →
        together combined flags changes ≡ change_of flags indirect first last }
{}
