//! What is listed.
ghost use Rattle.std.specs.Prelude.{◌++◌, codes};
ghost use Rattle.std.specs.List.{flat_map};
ghost use Rattle.cap_replies.specs.ReplyJson as spec;
ghost use Rattle.cap_show.specs.Json.{Appends};

use crate::members::{write_flag, write_kind, write_names, write_number};
use cap_core::{ListedSession, ListedTable, NameList, SessionList, TableList};
use cap_script::columns_text;
use cap_show::write_text_member;
use cap_value::{AllocHandle, OutOfMemory};
use json::Writer;

// Writes the names of the saved databases.
pub(crate) fn write_databases<A: AllocHandle>(
    writer: &mut Writer<A>,
    names: &NameList<A>,
) -> Result<(), OutOfMemory>
    ensures { Appends result writer.old writer.new
        (spec.kind (codes "databases") ++ spec.texts_member (codes "databases") names.now) }
{
    write_kind(writer, "databases")?;
    write_names(writer, "databases", names.as_slice())
}

// Writes the live sessions.
pub(crate) fn write_sessions<A: AllocHandle>(
    writer: &mut Writer<A>,
    sessions: &SessionList<A>,
) -> Result<(), OutOfMemory>
    ensures { Appends result writer.old writer.new
        (spec.kind (codes "sessions") ++ spec.sessions_member sessions.now) }
{
    write_kind(writer, "sessions")?;
    write_listed(writer, sessions.as_slice())
}

#[tactic(auto, unfolding(crate::specs::ReplyJson::sessions_member))]
fn write_listed<A: AllocHandle>(
    writer: &mut Writer<A>,
    sessions: &[ListedSession<A>],
) -> Result<(), OutOfMemory>
    ensures { Appends result writer.old writer.new (spec.sessions_member sessions.now) }
{
    writer.key("sessions")?;
    writer.begin_array()?;
    write_each_session(writer, sessions)?;
    writer.end_array()
}

fn write_each_session<A: AllocHandle>(
    writer: &mut Writer<A>,
    sessions: &[ListedSession<A>],
) -> Result<(), OutOfMemory>
    ensures { Appends result writer.old writer.new (flat_map spec.session sessions.now) }
{
    for session in sessions {
        write_session(writer, session)?;
    }
    Ok(())
}

// Writes a session: its number, its flags, whether it is empty, and its attached tables.
#[tactic(auto, unfolding(crate::specs::ReplyJson::session))]
fn write_session<A: AllocHandle>(
    writer: &mut Writer<A>,
    session: &ListedSession<A>,
) -> Result<(), OutOfMemory>
    ensures { Appends result writer.old writer.new (spec.session session.now) }
{
    writer.begin_object()?;
    write_number(writer, "session", session.number)?;
    write_flag(writer, "enabled", session.enabled)?;
    write_flag(writer, "indirect", session.indirect)?;
    write_flag(writer, "empty", session.is_empty)?;
    write_names(writer, "tables", session.attached.as_slice())?;
    writer.end_object()
}

// Writes the tables.
pub(crate) fn write_tables<A: AllocHandle>(
    alloc: A,
    writer: &mut Writer<A>,
    tables: &TableList<A>,
) -> Result<(), OutOfMemory>
    ensures { Appends result writer.old writer.new (spec.kind (codes "tables") ++ spec.tables_member tables.now) }
{
    write_kind(writer, "tables")?;
    write_listed_tables(alloc, writer, tables.as_slice())
}

#[tactic(auto, unfolding(crate::specs::ReplyJson::tables_member))]
fn write_listed_tables<A: AllocHandle>(
    alloc: A,
    writer: &mut Writer<A>,
    tables: &[ListedTable<A>],
) -> Result<(), OutOfMemory>
    ensures { Appends result writer.old writer.new (spec.tables_member tables.now) }
{
    writer.key("tables")?;
    writer.begin_array()?;
    write_each_table(alloc, writer, tables)?;
    writer.end_array()
}

fn write_each_table<A: AllocHandle>(
    alloc: A,
    writer: &mut Writer<A>,
    tables: &[ListedTable<A>],
) -> Result<(), OutOfMemory>
    ensures { Appends result writer.old writer.new (flat_map spec.table tables.now) }
{
    for table in tables {
        write_table(alloc, writer, table)?;
    }
    Ok(())
}

// Writes a table: its name, its columns, and how many rows it has with a key and without one.
#[tactic(auto, unfolding(crate::specs::ReplyJson::table))]
fn write_table<A: AllocHandle>(
    alloc: A,
    writer: &mut Writer<A>,
    table: &ListedTable<A>,
) -> Result<(), OutOfMemory>
    ensures { Appends result writer.old writer.new (spec.table table.now) }
{
    let columns = columns_text(alloc, &table.schema)?;
    writer.begin_object()?;
    write_text_member(writer, "table", table.name.as_str())?;
    write_text_member(writer, "columns", columns.as_str())?;
    write_number(writer, "keyed", table.keyed)?;
    write_number(writer, "loose", table.loose)?;
    writer.end_object()
}
