//! The bytes of the changeset that makes tables of nothing.
ghost use Rattle.std.specs.Prelude.{◌≡◌, ◌∷◌, ◌++◌, [], IfOk, None, Ok, OnOk};
ghost use Rattle.std.specs.List.{flat_map};
ghost use Rattle.std.specs.Result.{result_err};
ghost use Rattle.cap_value.specs.Memory.{RefusesFirst, ShowsUnlessMemory};
ghost use Rattle.cap_changes.specs.ChangeBytes.{change_bytes};
ghost use Rattle.cap_codec.specs.declared.read.Contents.TheVariants.{Changes};
ghost use Rattle.cap_dump.specs.Dump as whole;
ghost use Rattle.cap_dump.specs.Dump.{dump_bytes, dump_table, insert_of, inserts_of, keyed_part, keyed_parts};
ghost use Rattle.cap_dump.specs.Dump.{whole_group_bytes};
ghost use Rattle.cap_dump.specs.Load.{load};

use crate::laws;
use cap_codec::{KeyFlags, push_change_between, push_group_header};
use cap_database::Database;
use cap_row::{Row, Schema};
use cap_table::Table;
use cap_value::{AllocHandle, Fault, Name, OutOfMemory, Refusal};

/// The bytes of a changeset with a direct INSERT for each row of a table that has a key, in the order of the
/// keys. A table without rows is a group without changes. Of several tables the bytes of each, one behind the
/// other, are one changeset. SQLite applies a group with a key of several columns only where the key flags
/// are `KeyFlags::Places`.
///
/// A changeset has no place for a row without a key, which is left out, and for a table without key columns,
/// of which there are no bytes. Refused with `NoTable` where no table has the name.
pub fn dump<A: AllocHandle>(
    alloc: A,
    key_flags: KeyFlags,
    database: &Database<A>,
    table: &Name<A>,
) -> Result<Vec<u8, A>, Fault<Refusal>>
    ensures bytes { ShowsUnlessMemory (λ bytes. bytes.items) result
        (dump_table key_flags database.now table.now) }
    ensures first { RefusesFirst (result_err (dump_table key_flags database.now table.now)) result }
{
    match database.table(table) {
        Some(found) => Ok(bytes_of(alloc, key_flags, table, found)?),
        None => Err(Fault::Refused(Refusal::NoTable)),
    }
}

/// The bytes of all tables of a database, in the order of their names, each as `dump` has it. Loaded into a
/// database without tables, they give what a changeset can hold of each.
pub fn dump_all<A: AllocHandle>(
    alloc: A,
    key_flags: KeyFlags,
    database: &Database<A>,
) -> Result<Vec<u8, A>, OutOfMemory>
    ensures bytes { IfOk result (λ bytes. bytes.items ≡ dump_bytes key_flags database.now) }
    ensures again { load [] (Changes (whole.dump database.now)) ≡ Ok (keyed_parts database.now) }
{
    is_loaded_again(database);
    let mut out = Vec::new(alloc);
    push_tables(&mut out, key_flags, database.tables())?;
    Ok(out)
}

// What is dumped of a database comes again.
fn is_loaded_again<A: AllocHandle>(database: &Database<A>)
    ensures { load [] (Changes (whole.dump database.now)) ≡ Ok (keyed_parts database.now) }
{
    laws::dumps_are_loaded_again::<A>();
    let _tables = database.len();
    database.sound_rows_law();
}

// Appends the groups of these tables.
fn push_tables<A: AllocHandle>(
    out: &mut Vec<u8, A>,
    key_flags: KeyFlags,
    tables: &[(Name<A>, Table<A>)],
) -> Result<(), OutOfMemory>
    ensures { OnOk result (out.new.items ≡ out.old.items ++ dump_bytes key_flags tables.now) }
{
    for named in tables {
        push_table(out, key_flags, &named.0, &named.1)?;
    }
    Ok(())
}

// The bytes of a table that was found.
pub(crate) fn bytes_of<A: AllocHandle>(
    alloc: A,
    key_flags: KeyFlags,
    name: &Name<A>,
    table: &Table<A>,
) -> Result<Vec<u8, A>, OutOfMemory>
    ensures { IfOk result (λ bytes. bytes.items ≡ dump_bytes key_flags ((name.now, table.now) ∷ [])) }
{
    let mut out = Vec::new(alloc);
    push_table(&mut out, key_flags, name, table)?;
    Ok(out)
}

// Appends the group of a table, if it has key columns.
#[tactic(auto, using(crate::proofs::SpelledLemmas::own_group, crate::proofs::SpelledLemmas::no_group))]
fn push_table<A: AllocHandle>(
    out: &mut Vec<u8, A>,
    key_flags: KeyFlags,
    name: &Name<A>,
    table: &Table<A>,
) -> Result<(), OutOfMemory>
    ensures { OnOk result (out.new.items ≡ out.old.items ++ dump_bytes key_flags ((name.now, table.now) ∷ [])) }
{
    if table.schema().has_key() {
        push_group(out, key_flags, name, table)
    } else {
        Ok(())
    }
}

fn push_group<A: AllocHandle>(
    out: &mut Vec<u8, A>,
    key_flags: KeyFlags,
    name: &Name<A>,
    table: &Table<A>,
) -> Result<(), OutOfMemory>
    ensures { OnOk result (out.new.items ≡ out.old.items
        ++ whole_group_bytes key_flags (inserts_of (name.now, keyed_part table.now))) }
{
    push_group_header(out, key_flags, name, table.schema())?;
    push_rows(out, table)
}

// Appends the INSERTs of the rows that have a key.
fn push_rows<A: AllocHandle>(out: &mut Vec<u8, A>, table: &Table<A>) -> Result<(), OutOfMemory>
    ensures { OnOk result (out.new.items ≡ out.old.items
        ++ flat_map (λ row. change_bytes (insert_of row.1)) table.now.keyed) }
{
    for (_, row) in table.keyed() {
        push_row(out, table.schema(), row)?;
    }
    Ok(())
}

fn push_row<'a, A: AllocHandle>(
    out: &mut Vec<u8, A>,
    schema: &'a Schema<A>,
    row: &'a Row<A>,
) -> Result<(), OutOfMemory>
    ensures { OnOk result (out.new.items ≡ out.old.items ++ change_bytes (insert_of row.now)) }
{
    let none: Option<&'a Row<A>> = None;
    push_change_between(out, schema, false, none, Some(row))
}
