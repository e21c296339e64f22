//! The changes of a session used without a server.
ghost use Rattle.std.specs.Prelude.{◌≡◌, IfOk, IsTrue};
ghost use Rattle.std.specs.Option.{option_copied, option_map};
ghost use Rattle.cap_row.specs.Key.{fields_eq, key_fields};
ghost use Rattle.cap_table.specs.Sound.{is_keyed_row};
ghost use Rattle.cap_core.specs.CanCapture.{are_own_records, is_own_image, is_own_session};
ghost use Rattle.cap_core.specs.Capture.{session_changes};

use crate::capture;
use cap_changes::ChangeList;
use cap_database::Database;
use cap_field::ValueRef;
use cap_row::{Key, Row, RowFields, Schema};
use cap_session::{Records, Session};
use cap_table::Table;
use cap_value::{AllocHandle, OutOfMemory, Value};

/// What a session captures against a database: the changes of its attached tables, from each first image to
/// the row in the database (The Session Extension, "sqlite3session_changeset"). `can_capture` tells whether
/// it may be called. It may wherever the session recorded changes to this database.
pub fn changes_of<A: AllocHandle>(
    alloc: A,
    session: &Session<A>,
    database: &Database<A>,
) -> Result<ChangeList<A>, OutOfMemory>
    requires { IsTrue (is_own_session database.now session.now) }
    ensures { IfOk result (λ list. list ≡ session_changes database.now session.now) }
{
    capture::changes_of(alloc, session.attached(), database)
}

/// Whether a session can be captured against a database: each first image is a row of a table of the
/// database, with the table's width, and has the key of its record. Takes no memory.
pub fn can_capture<A: AllocHandle>(session: &Session<A>, database: &Database<A>) -> bool
    ensures { result ≡ is_own_session database.now session.now }
{
    for (name, records) in session.attached() {
        if !are_own_records(database.table(name), records) {
            return false;
        }
    }
    true
}

// Whether each first image is a row of this table.
fn are_own_records<A: AllocHandle>(table: Option<&Table<A>>, records: &Records<A>) -> bool
    ensures { result ≡ are_own_records (option_map (λ t. t.schema) (option_copied table.entry)) records.now }
{
    for (key, record) in records {
        if !is_own_image(table, key, record.image.as_ref()) {
            return false;
        }
    }
    true
}

fn is_own_image<A: AllocHandle>(
    table: Option<&Table<A>>,
    key: &Key<A>,
    image: Option<&Row<A>>,
) -> bool
    ensures { result ≡ is_own_image (option_map (λ t. t.schema) (option_copied table.entry)) key.now
        (option_copied image.entry) }
{
    match (table, image) {
        (_, None) => true,
        (None, Some(_)) => false,
        (Some(table), Some(row)) => is_keyed_row(table.schema(), key, row),
    }
}

// Whether the row is as wide as the table, and has this key.
#[tactic(auto, using(crate::proofs::SoundLemmas::is_keyed_row_fields))]
fn is_keyed_row<A: AllocHandle>(schema: &Schema<A>, key: &Key<A>, row: &Row<A>) -> bool
    ensures { result ≡ is_keyed_row schema.now key.now row.now }
{
    row.width() == schema.width() && has_key_fields(schema.flags(), row.fields(), key.fields())
}

// Whether these are the values of the key columns.
#[tactic(auto, using(crate::proofs::SoundLemmas::no_row, crate::proofs::SoundLemmas::no_fields))]
fn has_key_fields<A: AllocHandle>(flags: &[bool], row: RowFields<'_, A>, key: &[Value<A>]) -> bool
    ensures { result ≡ fields_eq (key_fields flags.now row.entry) key.now }
{
    let mut fields = row;
    let mut rest = key;
    for flag in flags {
        let Some(value) = fields.next_value() else {
            return rest.is_empty();
        };
        if *flag {
            let Some((first, others)) = rest.split_first() else {
                return false;
            };
            if !value.same::<A>(ValueRef::of(first)) {
                return false;
            }
            rest = others;
        }
    }
    rest.is_empty()
}
