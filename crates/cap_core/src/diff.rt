//! The differences of a table from a saved database.
ghost use Rattle.std.specs.Prelude.{IfOk, IfSome, IsTrue};
ghost use Rattle.std.specs.Option.{option_map};
ghost use Rattle.cap_core.specs.Code.Sound.{are_own_differences};
ghost use Rattle.cap_core.specs.Diff.{diff};
ghost use Rattle.cap_database.specs.Tables.{schema_of};
ghost use Rattle.cap_value.specs.Memory.{ShowsUnlessMemory};

use cap_compare::{Difference, compare};
use cap_database::Database;
use cap_tree::Tree;
use cap_value::{AllocHandle, Fault, Name, Refusal};

// What a diff finds: the differences, or none where nothing is compared.
type Differences<A> = Option<Vec<Difference<A>, A>>;

// The keys at which a table differs from the table of the same name in a saved database, each with its row
// there. None where the table does not exist or has no key columns. Otherwise refused with `NoDatabase`, or
// with `Incompatible` where the saved database lacks the table or its columns differ.
pub(crate) fn differences<A: AllocHandle>(
    alloc: A,
    main: &Database<A>,
    saved: &Tree<Name<A>, Database<A>, A>,
    from: &Name<A>,
    name: &Name<A>,
) -> Result<Differences<A>, Fault<Refusal>>
    ensures found { ShowsUnlessMemory (option_map (λ found. found.items)) result
        (diff main.now saved.now from.now name.now) }
    ensures sound { IfOk result (λ answer. IfSome answer (λ found.
        IsTrue (are_own_differences (schema_of main.now name.now) found.items))) }
{
    let Some(table) = main.table(name) else {
        return Ok(None);
    };
    if !table.schema().has_key() {
        return Ok(None);
    }
    let Some(database) = saved.get(from) else {
        return Err(Fault::Refused(Refusal::NoDatabase));
    };
    database.sound_rows_law();
    let found = compare(alloc, database.table(name), table)?;
    Ok(Some(found))
}
