//! Updates of rows: which fields they may set, and the values that they leave.
ghost use Rattle.std.specs.Prelude.{◌≡◌, ◌++◌, ◌≤◌, ◌<◌, List, ℕ, length, OnOk, nat_eq};
ghost use Rattle.std.specs.List.{list_any};
ghost use Rattle.std.specs.Option.{option_copied, unwrap_or};
ghost use Rattle.cap_row.specs.Row.{are_columns, columns_of, new_value, row_with};

use crate::{COLUMNS_MAX, RowBuilder, RowFields};
use cap_value::{AllocHandle, OutOfMemory, Value};

// Up to so many fields are compared with each other.
const FEW: usize = 8;

/// Whether an update may set these fields of a table with so many columns: each is one of them, counted from
/// 0, and none is named twice.
pub fn are_columns<A: AllocHandle>(width: usize, fields: &[(usize, Value<A>)]) -> bool
    requires { width ≤ COLUMNS_MAX }
    ensures { result ≡ are_columns width (columns_of fields.now) }
{
    if fields.len() <= FEW {
        are_few_columns(width, fields)
    } else {
        are_many_columns(width, fields)
    }
}

fn are_few_columns<A: AllocHandle>(width: usize, fields: &[(usize, Value<A>)]) -> bool
    ensures { result ≡ are_columns width (columns_of fields.now) }
{
    let Some((first, rest)) = fields.split_first() else {
        return true;
    };
    let column = first.0;
    column < width && !names(rest, column) && are_few_columns(width, rest)
}

// Whether some field is of the column.
fn names<A: AllocHandle>(fields: &[(usize, Value<A>)], column: usize) -> bool
    ensures { result ≡ list_any (nat_eq column) (columns_of fields.now) }
{
    let Some((first, rest)) = fields.split_first() else {
        return false;
    };
    column == first.0 || names(rest, column)
}

#[tactic(auto, using(crate::proofs::RowLemmas::all_left))]
fn are_many_columns<A: AllocHandle>(width: usize, fields: &[(usize, Value<A>)]) -> bool
    requires { width ≤ COLUMNS_MAX }
    ensures { result ≡ are_columns width (columns_of fields.now) }
{
    let mut named = [false; COLUMNS_MAX];
    for (column, _) in fields {
        if *column >= width || named[*column] {
            return false;
        }
        named[*column] = true;
    }
    true
}

// The value that the changes give to a column, if they name it.
fn new_value<A: AllocHandle>(changes: &[(usize, Value<A>)], column: usize) -> Option<&Value<A>>
    ensures { (old : Value A) → new_value changes.now column old ≡ unwrap_or (option_copied result) old }
{
    let (first, rest) = changes.split_first()?;
    if first.0 == column {
        Some(&first.1)
    } else {
        new_value(rest, column)
    }
}

/// Appends the values of a row with just these fields set.
#[tactic(auto, using(crate::proofs::RowLemmas::put_more))]
pub(crate) fn push_with<A: AllocHandle>(
    builder: &mut RowBuilder<A>,
    width: usize,
    row: RowFields<'_, A>,
    changes: &[(usize, Value<A>)],
) -> Result<(), OutOfMemory>
    requires { width ≡ length row }
    ensures { OnOk result (builder.new ≡ builder.old ++ row_with changes.now row.entry) }
{
    let mut rest = row;
    for column in 0..width {
        builder.push_next_or(new_value(changes, column), &mut rest)?;
    }
    Ok(())
}
