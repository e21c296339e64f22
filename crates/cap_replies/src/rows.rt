//! The rows of a snapshot.
ghost use Rattle.std.specs.Prelude.{◌≡◌, ◌++◌, ◌∷◌, [], codes};
ghost use Rattle.std.specs.List.{flat_map};
ghost use Rattle.std.specs.Option.{option_copied};
ghost use Rattle.std.specs.Result.{result_map_both};
ghost use Rattle.json.specs.Token as token;
ghost use Rattle.cap_replies.specs.ReplyJson as spec;
ghost use Rattle.cap_show.specs.Json.{Appends, value};
ghost use Rattle.cap_table.specs.Scan.{name_shown, row_shown};

use crate::members::{write_kind, write_kind_at, write_number};
use crate::report::{write_named_refusal, write_refused};
use cap_database::Snapshot;
use cap_row::{Row, RowFields};
use cap_script::Show;
use cap_show::write_json_value;
use cap_table::{RowName, Scan};
use cap_value::{AllocHandle, OutOfMemory, Refusal};
use json::Writer;

// Writes what is asked of a snapshot.
pub(crate) fn write_snapshot<A: AllocHandle>(
    alloc: A,
    writer: &mut Writer<A>,
    show: &Show<A>,
    snapshot: &Snapshot<A>,
) -> Result<(), OutOfMemory>
    ensures { Appends result writer.old writer.new (spec.snapshot_reply show.now snapshot.now) }
{
    let version = snapshot.version();
    match show {
        Show::Get(table, row) => write_get(alloc, writer, version, snapshot.get(table, row)),
        Show::Scan(table) => write_scan(alloc, writer, version, snapshot.scan(table)),
        Show::Step(_) => write_named_refusal(writer, "E21 NoTransaction"),
        _ => write_kind(writer, "done"),
    }
}

// Writes the requested row.
fn write_get<A: AllocHandle>(
    alloc: A,
    writer: &mut Writer<A>,
    version: u64,
    found: Result<Option<&Row<A>>, Refusal>,
) -> Result<(), OutOfMemory>
    ensures { Appends result writer.old writer.new
        (spec.get_reply version (result_map_both option_copied (λ why. why) found.entry)) }
{
    match found {
        Ok(row) => write_got(alloc, writer, version, row),
        Err(why) => write_refused(writer, None, why),
    }
}

fn write_got<A: AllocHandle>(
    alloc: A,
    writer: &mut Writer<A>,
    version: u64,
    found: Option<&Row<A>>,
) -> Result<(), OutOfMemory>
    ensures { Appends result writer.old writer.new (spec.kind_at (codes "row") version
        ++ token.key (codes "row") ∷ spec.found (option_copied found.entry)) }
{
    write_kind_at(writer, "row", version)?;
    writer.key("row")?;
    write_found(alloc, writer, found)
}

// Writes a row, or null.
pub(crate) fn write_found<A: AllocHandle>(
    alloc: A,
    writer: &mut Writer<A>,
    found: Option<&Row<A>>,
) -> Result<(), OutOfMemory>
    ensures { Appends result writer.old writer.new (spec.found (option_copied found.entry)) }
{
    match found {
        Some(row) => write_row(alloc, writer, row),
        None => writer.null(),
    }
}

// Writes all rows of a table.
fn write_scan<A: AllocHandle>(
    alloc: A,
    writer: &mut Writer<A>,
    version: u64,
    found: Result<Scan<'_, A>, Refusal>,
) -> Result<(), OutOfMemory>
    ensures { Appends result writer.old writer.new (spec.scan_reply version found.entry) }
{
    match found {
        Ok(rows) => {
            write_kind_at(writer, "rows", version)?;
            write_rows(alloc, writer, rows)
        }
        Err(why) => write_refused(writer, None, why),
    }
}

// Writes the rows of a table as a member.
#[tactic(auto, unfolding(crate::specs::ReplyJson::rows_member))]
pub(crate) fn write_rows<A: AllocHandle>(
    alloc: A,
    writer: &mut Writer<A>,
    rows: Scan<'_, A>,
) -> Result<(), OutOfMemory>
    ensures { Appends result writer.old writer.new (spec.rows_member rows.entry) }
{
    writer.key("rows")?;
    writer.begin_array()?;
    write_each_row(alloc, writer, rows)?;
    writer.end_array()
}

fn write_each_row<A: AllocHandle>(
    alloc: A,
    writer: &mut Writer<A>,
    rows: Scan<'_, A>,
) -> Result<(), OutOfMemory>
    ensures { Appends result writer.old writer.new (flat_map spec.named_row rows.entry) }
{
    for (name, row) in rows {
        write_named_row(alloc, writer, name, row)?;
    }
    Ok(())
}

// Writes a row, with its id where it has no key.
#[tactic(auto, unfolding(crate::specs::ReplyJson::named_row))]
fn write_named_row<A: AllocHandle>(
    alloc: A,
    writer: &mut Writer<A>,
    name: RowName<'_, A>,
    row: &Row<A>,
) -> Result<(), OutOfMemory>
    ensures { Appends result writer.old writer.new
        (spec.named_row (row_shown (name.entry, row.entry))) }
{
    writer.begin_object()?;
    write_id(writer, name)?;
    writer.key("row")?;
    write_row(alloc, writer, row)?;
    writer.end_object()
}

fn write_id<A: AllocHandle>(writer: &mut Writer<A>, name: RowName<'_, A>) -> Result<(), OutOfMemory>
    ensures { Appends result writer.old writer.new (spec.id_member (name_shown name.entry)) }
{
    match name {
        RowName::Loose(id) => write_number(writer, "id", id),
        RowName::Key(_) => Ok(()),
    }
}

// Writes the values of a row.
#[tactic(auto, unfolding(crate::specs::ReplyJson::row))]
fn write_row<A: AllocHandle>(
    alloc: A,
    writer: &mut Writer<A>,
    row: &Row<A>,
) -> Result<(), OutOfMemory>
    ensures { Appends result writer.old writer.new (spec.row row.now) }
{
    writer.begin_array()?;
    write_values(alloc, writer, row.fields())?;
    writer.end_array()
}

fn write_values<A: AllocHandle>(
    alloc: A,
    writer: &mut Writer<A>,
    values: RowFields<'_, A>,
) -> Result<(), OutOfMemory>
    ensures { Appends result writer.old writer.new (flat_map value values.entry) }
{
    let mut rest = values;
    while let Some(value) = rest.next_value() {
        write_json_value(alloc, writer, value)?;
    }
    Ok(())
}
