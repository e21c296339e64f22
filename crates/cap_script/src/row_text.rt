//! The text of rows.
ghost use Rattle.std.specs.Prelude.{◌≡◌, ◌++◌, ◌∷◌, OnOk, IfOk, string_bytes};
ghost use Rattle.std.specs.Option.{option_copied};
ghost use Rattle.std.specs.Result.{result_map_both};
ghost use Rattle.cap_field.specs.FieldReading.{value_of};
ghost use Rattle.cap_show.specs.ShowText.{value_text};
ghost use Rattle.cap_script.specs.RowText.{get_text, more_values, named_row_text, row_text, rows_text};
ghost use Rattle.cap_script.specs.RowText.{scan_text, snapshot_text, values_text};
ghost use Rattle.cap_table.specs.Scan.{row_shown};
ghost use Rattle.cap_database.specs.Read.{Lends};

use crate::Show;
use crate::refusal_text::RefusalText;
use cap_database::Snapshot;
use cap_field::ValueRef;
use cap_row::{Row, RowFields};
use cap_show::ValueText;
use cap_table::{RowName, Scan};
use cap_value::{AllocHandle, OutOfMemory, Refusal};

// The text of a snapshot.
pub(crate) fn snapshot_text<A: AllocHandle>(
    alloc: A,
    show: &Show<A>,
    snapshot: &Snapshot<A>,
) -> Result<String<A>, OutOfMemory>
    ensures { IfOk result (λ text. string_bytes text ≡ snapshot_text show.now snapshot.now) }
{
    match show {
        Show::Get(table, row) => get_text(alloc, snapshot.get(table, row)),
        Show::Scan(table) => scan_text(alloc, snapshot.scan(table)),
        Show::Step(_) => String::from_str(alloc, "refused: E21 NoTransaction"),
        _ => String::from_str(alloc, "ok"),
    }
}

// The text of the requested row.
pub(crate) fn get_text<A: AllocHandle>(
    alloc: A,
    found: Result<Option<&Row<A>>, Refusal>,
) -> Result<String<A>, OutOfMemory>
    ensures { IfOk result (λ text.
        string_bytes text ≡ get_text (result_map_both option_copied (λ why. why) found.entry)) }
{
    match found {
        Ok(Some(row)) => {
            let mut text = String::from_str(alloc, "row ")?;
            write_row(row, &mut text)?;
            Ok(text)
        }
        Ok(None) => String::from_str(alloc, "no row"),
        Err(why) => format!(in alloc; "refused: {}", RefusalText(why)),
    }
}

// The text of all rows of a table, each on a line.
pub(crate) fn scan_text<A: AllocHandle>(
    alloc: A,
    found: Result<Scan<'_, A>, Refusal>,
) -> Result<String<A>, OutOfMemory>
    ensures { IfOk result (λ text. string_bytes text ≡ scan_text found.entry) }
{
    match found {
        Ok(rows) => {
            let mut text = format!(in alloc; "rows {}", rows.left())?;
            write_rows(rows, &mut text)?;
            Ok(text)
        }
        Err(why) => format!(in alloc; "refused: {}", RefusalText(why)),
    }
}

// Appends the rows to `out`, each after a line feed.
fn write_rows<A: AllocHandle>(rows: Scan<'_, A>, out: &mut String<A>) -> Result<(), OutOfMemory>
    ensures { OnOk result (string_bytes out.new ≡ string_bytes out.old ++ rows_text rows.entry) }
{
    for (name, row) in rows {
        write_named_row(name, row, out)?;
    }
    Ok(())
}

// Appends a line feed and a row to `out`, with its id where it has no key.
fn write_named_row<A: AllocHandle>(
    name: RowName<'_, A>,
    row: &Row<A>,
    out: &mut String<A>,
) -> Result<(), OutOfMemory>
    ensures { OnOk result (string_bytes out.new
        ≡ string_bytes out.old ++ 10 ∷ named_row_text (row_shown (name.entry, row.entry))) }
{
    out.push_str("\n")?;
    if let RowName::Loose(id) = name {
        write!(out, "loose {id} ")?;
    }
    write_row(row, out)
}

// Appends a row to `out`.
fn write_row<A: AllocHandle>(row: &Row<A>, out: &mut String<A>) -> Result<(), OutOfMemory>
    ensures { OnOk result (string_bytes out.new ≡ string_bytes out.old ++ row_text row.now) }
{
    out.push_str("(")?;
    write_values(row.fields(), out)?;
    out.push_str(")")
}

// Appends the values to `out`, separated by commas.
fn write_values<A: AllocHandle>(
    values: RowFields<'_, A>,
    out: &mut String<A>,
) -> Result<(), OutOfMemory>
    ensures { OnOk result (string_bytes out.new ≡ string_bytes out.old ++ values_text values.entry) }
{
    let mut rest = values;
    match rest.next_value() {
        Some(first) => {
            write_value(first, out)?;
            write_more(rest, out)
        }
        None => Ok(()),
    }
}

fn write_value<A: AllocHandle>(value: ValueRef<'_>, out: &mut String<A>) -> Result<(), OutOfMemory>
    ensures { OnOk result (string_bytes out.new
        ≡ string_bytes out.old ++ value_text {A = A} (value_of value.entry)) }
{
    let text: ValueText<'_, A> = ValueText::of_ref(value);
    write!(out, "{text}")
}

// Appends the values to `out`, each after a comma.
fn write_more<A: AllocHandle>(
    values: RowFields<'_, A>,
    out: &mut String<A>,
) -> Result<(), OutOfMemory>
    ensures { OnOk result (string_bytes out.new ≡ string_bytes out.old ++ more_values values.entry) }
{
    let mut rest = values;
    while let Some(value) = rest.next_value() {
        out.push_str(",")?;
        write_value(value, out)?;
    }
    Ok(())
}
