//! The text of what is listed.
ghost use Rattle.std.specs.Prelude.{◌≡◌, ◌++◌, IfOk, OnOk, string_bytes};
ghost use Rattle.std.specs.List.{flat_map};
ghost use Rattle.cap_script.specs.ListText.{column_letter, columns_text, databases_text, name_behind, name_line};
ghost use Rattle.cap_script.specs.ListText.{on_word, session_line, sessions_text, table_line, tables_text};
ghost use Rattle.cap_script.specs.ListText.{true_word};
ghost use Rattle.cap_show.specs.Sql.{identifier};

use cap_core::{ListedSession, ListedTable, NameList, SessionList, TableList};
use cap_row::Schema;
use cap_show::Identifier;
use cap_value::{AllocHandle, Name, OutOfMemory};

// The names of the saved databases.
pub(crate) fn databases_text<A: AllocHandle>(
    alloc: A,
    names: &NameList<A>,
) -> Result<String<A>, OutOfMemory>
    ensures { IfOk result (λ text. string_bytes text ≡ databases_text names.now) }
{
    let names = names.as_slice();
    let mut text = format!(in alloc; "databases {}", names.len())?;
    write_lines(names, &mut text)?;
    Ok(text)
}

// The live sessions.
pub(crate) fn sessions_text<A: AllocHandle>(
    alloc: A,
    sessions: &SessionList<A>,
) -> Result<String<A>, OutOfMemory>
    ensures { IfOk result (λ text. string_bytes text ≡ sessions_text sessions.now) }
{
    let sessions = sessions.as_slice();
    let mut text = format!(in alloc; "sessions {}", sessions.len())?;
    write_sessions(sessions, &mut text)?;
    Ok(text)
}

// The tables.
pub(crate) fn tables_text<A: AllocHandle>(
    alloc: A,
    tables: &TableList<A>,
) -> Result<String<A>, OutOfMemory>
    ensures { IfOk result (λ text. string_bytes text ≡ tables_text tables.now) }
{
    let tables = tables.as_slice();
    let mut text = format!(in alloc; "tables {}", tables.len())?;
    write_tables(tables, &mut text)?;
    Ok(text)
}

/// The columns of a table, as `create` reads them: a letter for each, `k` in the primary key and `v` elsewhere.
pub fn columns_text<A: AllocHandle>(alloc: A, schema: &Schema<A>) -> Result<String<A>, OutOfMemory>
    ensures { IfOk result (λ text. string_bytes text ≡ columns_text schema.now) }
{
    let mut text = String::new(alloc);
    write_columns(schema.flags(), &mut text)?;
    Ok(text)
}

// Appends the names to `out`, each after a line feed.
fn write_lines<A: AllocHandle>(names: &[Name<A>], out: &mut String<A>) -> Result<(), OutOfMemory>
    ensures { OnOk result (string_bytes out.new ≡ string_bytes out.old ++ flat_map name_line names.now) }
{
    for name in names {
        write_name("\n", name, out)?;
    }
    Ok(())
}

// Appends the sessions to `out`, each after a line feed.
fn write_sessions<A: AllocHandle>(
    sessions: &[ListedSession<A>],
    out: &mut String<A>,
) -> Result<(), OutOfMemory>
    ensures { OnOk result (string_bytes out.new
        ≡ string_bytes out.old ++ flat_map session_line sessions.now) }
{
    for session in sessions {
        write_session(session, out)?;
    }
    Ok(())
}

// Appends a line feed and a session to `out`.
fn write_session<A: AllocHandle>(
    session: &ListedSession<A>,
    out: &mut String<A>,
) -> Result<(), OutOfMemory>
    ensures { OnOk result (string_bytes out.new ≡ string_bytes out.old ++ session_line session.now) }
{
    let number = session.number;
    let enabled = on_word(session.enabled);
    let indirect = on_word(session.indirect);
    let is_empty = true_word(session.is_empty);
    write!(
        out,
        "\n{number} enable {enabled} indirect {indirect} isempty {is_empty}"
    )?;
    write_names(session.attached.as_slice(), out)
}

// Appends the tables to `out`, each after a line feed.
fn write_tables<A: AllocHandle>(
    tables: &[ListedTable<A>],
    out: &mut String<A>,
) -> Result<(), OutOfMemory>
    ensures { OnOk result (string_bytes out.new ≡ string_bytes out.old ++ flat_map table_line tables.now) }
{
    for table in tables {
        write_table(table, out)?;
    }
    Ok(())
}

// Appends a line feed and a table to `out`.
fn write_table<A: AllocHandle>(
    table: &ListedTable<A>,
    out: &mut String<A>,
) -> Result<(), OutOfMemory>
    ensures { OnOk result (string_bytes out.new ≡ string_bytes out.old ++ table_line table.now) }
{
    write_name("\n", &table.name, out)?;
    out.push_str(" ")?;
    write_columns(table.schema.flags(), out)?;
    let keyed = table.keyed;
    let loose = table.loose;
    write!(out, " keyed {keyed} loose {loose}")
}

// Appends the letter of each column to `out`.
fn write_columns<A: AllocHandle>(flags: &[bool], out: &mut String<A>) -> Result<(), OutOfMemory>
    ensures { OnOk result (string_bytes out.new ≡ string_bytes out.old ++ columns_text flags.now) }
{
    for flag in flags {
        write_column(*flag, out)?;
    }
    Ok(())
}

// Appends the letter of a column to `out`.
fn write_column<A: AllocHandle>(flag: bool, out: &mut String<A>) -> Result<(), OutOfMemory>
    ensures { OnOk result (string_bytes out.new ≡ string_bytes out.old ++ column_letter flag) }
{
    if flag {
        out.push_str("k")
    } else {
        out.push_str("v")
    }
}

// Appends the names to `out`, each after a space.
fn write_names<A: AllocHandle>(names: &[Name<A>], out: &mut String<A>) -> Result<(), OutOfMemory>
    ensures { OnOk result (string_bytes out.new ≡ string_bytes out.old ++ flat_map name_behind names.now) }
{
    for name in names {
        write_name(" ", name, out)?;
    }
    Ok(())
}

// Appends a name to `out`, between double quotes, behind what separates it.
fn write_name<A: AllocHandle>(
    before: &str,
    name: &Name<A>,
    out: &mut String<A>,
) -> Result<(), OutOfMemory>
    ensures { OnOk result (string_bytes out.new
        ≡ string_bytes out.old ++ (before.now ++ identifier name.now)) }
{
    out.push_str(before)?;
    write!(out, "{}", Identifier(name.as_str()))
}

// Whether a flag is set.
pub(crate) fn on_word(flag: bool) -> &'static str
    ensures { result.now ≡ on_word flag }
{
    if flag { "on" } else { "off" }
}

// Whether a session is empty.
pub(crate) fn true_word(flag: bool) -> &'static str
    ensures { result.now ≡ true_word flag }
{
    if flag { "true" } else { "false" }
}
