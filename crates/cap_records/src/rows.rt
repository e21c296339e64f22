//! A cursor over rows that were read.
ghost use Rattle.std.specs.Prelude.{◌≡◌, IfOk};
ghost use Rattle.std.specs.Option.{option_copied, option_map};
ghost use Rattle.cap_field.specs.FieldReading as read;
ghost use Rattle.cap_records.specs.Rows.{Steps, begin, columns_of, id_of_row, record_at, row_at, value_of};

use crate::record::record_of_row;
use crate::with_ids::IdRows;
use cap_field::ValueRef;
use cap_row::Row;
use cap_value::OutOfMemory;
use std::alloc::Global;
use std::marker::Model;

/// Rows that were read, the one at which the cursor stands, and the next one.
#[derive(Drop)]
pub struct RowCursor {
    rows: IdRows,
    current: Option<usize>,
    next: usize,
}

impl Model for RowCursor {
    ghost use Rattle.cap_records.specs.Rows.{RowCursorState};

    ghost Value = { RowCursorState };

    ghost view = { λ c. record { rows = c.rows.items; current = c.current; next = c.next } };
}

impl RowCursor {
    /// The cursor before the first of these rows.
    pub(crate) fn new(rows: IdRows) -> Self
        ensures { result ≡ begin rows.items }
    {
        RowCursor {
            rows,
            current: None,
            next: 0,
        }
    }

    /// Goes to the next row, or behind the last.
    pub fn step(&mut self) -> bool
        ensures { Steps self.old self.new result }
    {
        if self.next < self.rows.len() {
            self.current = Some(self.next);
            self.next += 1;
            true
        } else {
            self.current = None;
            false
        }
    }

    // The row at which it stands, with its id.
    fn row(&self) -> Option<&(u64, Row<Global>)>
        ensures { option_copied result ≡ row_at self.now }
    {
        let at = self.current?;
        self.rows.as_slice().get(at)
    }

    /// The id of the row, or 0 where it has a key. None where the cursor stands at no row, as below.
    pub fn id(&self) -> Option<u64>
        ensures { result ≡ id_of_row self.now }
    {
        match self.row() {
            Some(row) => Some(row.0),
            None => None,
        }
    }

    /// How many columns the row has.
    pub fn columns(&self) -> Option<usize>
        ensures { result ≡ columns_of self.now }
    {
        match self.row() {
            Some(row) => Some(row.1.width()),
            None => None,
        }
    }

    /// The value of a column of the row, counted from 0.
    pub fn value(&self, column: usize) -> Option<ValueRef<'_>>
        ensures { option_map read.value_of result ≡ value_of self.now column }
    {
        let row = self.row()?;
        row.1.get(column)
    }

    /// The record of the row.
    pub fn record(&self, alloc: Global) -> Result<Option<Vec<u8, Global>>, OutOfMemory>
        ensures { IfOk result (λ it. option_map (λ bytes. bytes.items) it ≡ record_at self.now) }
    {
        match self.row() {
            Some(row) => Ok(Some(record_of_row(alloc, &row.1)?)),
            None => Ok(None),
        }
    }
}
