//! The tables and rows of a blob, made in a database.
ghost use Rattle.std.specs.Prelude.{◌≡◌, map, is_some};
ghost use Rattle.std.specs.List.{list_any};
ghost use Rattle.cap_value.specs.Memory.{AnswersUnlessMemory, LeavesUnlessMemory, RefusesFirst};
ghost use Rattle.cap_database.specs.Tables.{table_of};
ghost use Rattle.cap_dump.specs.Load as whole;
ghost use Rattle.cap_dump.specs.Load.{create_each, filled, named_in, refused_load, tables_in};

use cap_apply::{Answer, Policy, apply};
use cap_changes::{Entry, TableGroup};
use cap_codec::Contents;
use cap_database::Database;
use cap_value::{AllocHandle, Fault, Refusal};

/// Creates the table of each group of a blob, and applies the blob to them. Answers the database after it,
/// which shares rows with this one. This database is unchanged.
///
/// Refused with `TableExists` where the database has one of the tables, before anything else; then as
/// `Database::create` refuses a table; and then with `Aborted` at the first change that is no INSERT of a new
/// row.
pub fn load<A: AllocHandle>(
    alloc: A,
    database: &Database<A>,
    blob: &Contents<A>,
) -> Result<Database<A>, Fault<Refusal>>
    ensures database { AnswersUnlessMemory result (whole.load database.now blob.now) }
    ensures first { RefusesFirst (refused_load database.now blob.now) result }
{
    if has_table_of(database, blob) {
        return Err(Fault::Refused(Refusal::TableExists));
    }
    let mut made = database.snapshot()?;
    create_tables(&mut made, blob)?;
    fill(alloc, &made, blob)
}

// Whether the database has the table of one of the groups.
fn has_table_of<A: AllocHandle>(database: &Database<A>, blob: &Contents<A>) -> bool
    ensures { result ≡ list_any (λ named. is_some (table_of database.now named.0)) (tables_in blob.now) }
{
    match blob {
        Contents::Changes(list) => has_any(database, list.groups()),
        Contents::Patches(list) => has_any(database, list.groups()),
    }
}

fn has_any<C: Entry, A: AllocHandle>(database: &Database<A>, groups: &[TableGroup<C, A>]) -> bool
    ensures { result ≡ list_any (λ named. is_some (table_of database.now named.0)) (map named_in groups.now) }
{
    for group in groups {
        if database.table(group.table()).is_some() {
            return true;
        }
    }
    false
}

fn create_tables<A: AllocHandle>(
    database: &mut Database<A>,
    blob: &Contents<A>,
) -> Result<(), Fault<Refusal>>
    ensures { LeavesUnlessMemory result (create_each database.old (tables_in blob.now)) database.new }
{
    match blob {
        Contents::Changes(list) => create_groups(database, list.groups()),
        Contents::Patches(list) => create_groups(database, list.groups()),
    }
}

fn create_groups<C: Entry, A: AllocHandle>(
    database: &mut Database<A>,
    groups: &[TableGroup<C, A>],
) -> Result<(), Fault<Refusal>>
    ensures { LeavesUnlessMemory result (create_each database.old (map named_in groups.now)) database.new }
{
    for group in groups {
        database.create(group.table().copy()?, group.schema().copy()?)?;
    }
    Ok(())
}

// Applies the blob to its new tables.
fn fill<A: AllocHandle>(
    alloc: A,
    made: &Database<A>,
    blob: &Contents<A>,
) -> Result<Database<A>, Fault<Refusal>>
    ensures { AnswersUnlessMemory result (filled blob.now made.now) }
{
    let applied = apply(alloc, made, blob, Policy::always(Answer::Abort))?;
    let (database, _changes, _report) = applied.into_parts();
    Ok(database)
}
