//! Laws of comparison, over the definitions alone. The functions do nothing at run time.
ghost use Rattle.std.specs.Prelude.{◌≡◌, List, []};
ghost use Rattle.cap_row.specs.Fields.{Fields};
ghost use Rattle.cap_row.specs.Key.{fields_cmp};
ghost use Rattle.cap_tree.specs.Tree.{IsOrdered, get};
ghost use Rattle.cap_compare.specs.Beside.{beside, both_at};
ghost use Rattle.cap_compare.specs.Compare.{AreDifferences, differences};

use cap_row::{Key, Row};
use cap_value::AllocHandle;

/// Merging two lists of entries keeps the keys in order, and pairs each key with its value in either list.
pub fn entries_stand_beside<K: Ord, V, W>()
    ensures ordered { (first : List (K × V)) (second : List (K × W)) → IsOrdered K.cmp first →
        IsOrdered K.cmp (beside K.cmp first second) }
    ensures each { (first : List (K × V)) (second : List (K × W)) → IsOrdered K.cmp second → (key : K) →
        get K.cmp (beside K.cmp first second) key
        ≡ both_at (get K.cmp first key) (get K.cmp second key) }
{}

/// The differences of two tables are exactly the keys at which their rows differ, in order, each with its row
/// in the first table, if any.
pub fn differences_are_just_those<A: AllocHandle>()
    ensures { (from to : List (Fields A × Fields A)) → IsOrdered fields_cmp from → IsOrdered fields_cmp to →
        AreDifferences from to (differences from to) }
{
    entries_stand_beside::<Key<A>, Row<A>, Row<A>>();
}

/// A table does not differ from itself.
pub fn a_table_does_not_differ_from_itself<A: AllocHandle>()
    ensures { (rows : List (Fields A × Fields A)) → IsOrdered fields_cmp rows → differences rows rows ≡ [] }
{
    entries_stand_beside::<Key<A>, Row<A>, Row<A>>();
}
