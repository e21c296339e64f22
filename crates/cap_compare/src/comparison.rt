//! The comparison of two tables.
ghost use Rattle.std.specs.Prelude.{◌≡◌, IfOk, Some};
ghost use Rattle.std.specs.Option.{option_copied};
ghost use Rattle.std.specs.Result.{result_err};
ghost use Rattle.cap_value.specs.Memory.{RefusesFirst, ShowsUnlessMemory};
ghost use Rattle.cap_table.specs.Table.{TableState};
ghost use Rattle.cap_compare.specs.Compare.{AreDifferences, compare, differences, difference_at, image_at};

use crate::{Beside, Difference, laws};
use cap_row::{Key, Row};
use cap_table::Table;
use cap_tree::Tree;
use cap_value::{AllocHandle, Fault, OutOfMemory, Refusal};

/// The keys at which two tables differ, in order, each with its row in the first table (SQLite's
/// sqlite3session_diff): the row is in one table only, or the two rows differ. Rows without a key are not
/// compared.
///
/// Refused with `Incompatible` where there is no first table, or its columns are not those of the second.
/// Takes time in proportion to the rows of both.
pub fn compare<A: AllocHandle>(
    alloc: A,
    from: Option<&Table<A>>,
    to: &Table<A>,
) -> Result<Vec<Difference<A>, A>, Fault<Refusal>>
    ensures found { ShowsUnlessMemory (λ found. found.items) result
        (compare (option_copied from.entry) to.now) }
    ensures just { (first : TableState A) → option_copied from.entry ≡ Some first
        → IfOk result (λ found. AreDifferences first.keyed to.now.keyed found.items) }
    ensures first { RefusesFirst (result_err (compare (option_copied from.entry) to.now)) result }
{
    match from {
        Some(from) => {
            if from.schema() != to.schema() {
                return Err(Fault::Refused(Refusal::Incompatible));
            }
            let found = differences(alloc, from.keyed(), to.keyed())?;
            // The numbers of rows show that their keys rise.
            let _rows = (from.keyed().len(), to.keyed().len());
            laws::differences_are_just_those::<A>();
            Ok(found)
        }
        None => Err(Fault::Refused(Refusal::Incompatible)),
    }
}

fn differences<A: AllocHandle>(
    alloc: A,
    from: &Tree<Key<A>, Row<A>, A>,
    to: &Tree<Key<A>, Row<A>, A>,
) -> Result<Vec<Difference<A>, A>, OutOfMemory>
    ensures { IfOk result (λ found. found.items ≡ differences from.now to.now) }
{
    let mut found = Vec::new(alloc);
    for (key, old, new) in Beside::of(from, to) {
        if let Some(difference) = difference(key, old, new)? {
            found.push(difference)?;
        }
    }
    Ok(found)
}

// The difference at a key, by its rows in both tables.
fn difference<A: AllocHandle>(
    key: &Key<A>,
    old: Option<&Row<A>>,
    new: Option<&Row<A>>,
) -> Result<Option<Difference<A>>, OutOfMemory>
    ensures { IfOk result (λ difference. difference
        ≡ difference_at key.now (image_at (option_copied old.entry) (option_copied new.entry))) }
{
    let same = match (old, new) {
        (None, None) => true,
        (Some(old), Some(new)) => old == new,
        _ => false,
    };
    if same {
        return Ok(None);
    }
    let image = match old {
        None => None,
        Some(row) => Some(row.copy()?),
    };
    Ok(Some(Difference {
        key: key.copy()?,
        image,
    }))
}
