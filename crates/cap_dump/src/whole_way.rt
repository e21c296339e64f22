//! The whole way of a table: dumped, read and loaded.
ghost use Rattle.std.specs.Prelude.{◌≡◌, ◌∷◌, [], IfOk};
ghost use Rattle.std.specs.Result.{result_err};
ghost use Rattle.cap_value.specs.Memory.{AnswersUnlessMemory, RefusesFirst};
ghost use Rattle.cap_table.specs.Sound.{IsRising};
ghost use Rattle.cap_dump.specs.Dump.{comes_again, keyed_parts};

use crate::dump_bytes::bytes_of;
use crate::{laws, load, table_has_limits};
use cap_codec::{KeyFlags, read_blob};
use cap_database::Database;
use cap_table::Table;
use cap_value::{AllocHandle, Fault, Name, OutOfMemory, Refusal};

/// Dumps a table, reads the bytes, and loads what was read into a database without tables. That has what a
/// changeset can hold of the table: its columns, and its rows that have a key. Refused with `NoTable` where
/// no table has the name.
pub fn dump_and_load<A: AllocHandle>(
    alloc: A,
    key_flags: KeyFlags,
    database: &Database<A>,
    name: &Name<A>,
) -> Result<Database<A>, Fault<Refusal>>
    ensures again { AnswersUnlessMemory result (comes_again database.now name.now) }
    ensures first { RefusesFirst (result_err (comes_again database.now name.now)) result }
{
    database.sound_rows_law();
    match database.table(name) {
        Some(table) => Ok(carry(alloc, key_flags, name, table)?),
        None => Err(Fault::Refused(Refusal::NoTable)),
    }
}

fn carry<A: AllocHandle>(
    alloc: A,
    key_flags: KeyFlags,
    name: &Name<A>,
    table: &Table<A>,
) -> Result<Database<A>, OutOfMemory>
    requires { IsRising table.now }
    ensures { IfOk result (λ again. again ≡ keyed_parts ((name.now, table.now) ∷ [])) }
{
    laws::dumps_are_loaded_again::<A>();
    laws::dumps_are_read_again::<A>();
    table_has_limits(name, table);
    let bytes = bytes_of(alloc, key_flags, name, table)?;
    match read_blob(alloc, bytes.as_slice()) {
        Ok(blob) => match load(alloc, &Database::empty(alloc), &blob) {
            Ok(again) => Ok(again),
            Err(Fault::OutOfMemory) => Err(OutOfMemory),
            Err(Fault::Refused(_)) => unreachable!(),
        },
        Err(Fault::OutOfMemory) => Err(OutOfMemory),
        Err(Fault::Refused(_)) => unreachable!(),
    }
}
