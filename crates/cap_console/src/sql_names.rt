//! The SQL of a blob with other names for its columns.
use crate::columns::{TableColumns, column_name};
use std::alloc::{AllocError, Global};

// A table, as its name stands in a statement, and its columns.
#[derive(Drop)]
struct QuotedTable {
    table: String,
    columns: Vec<String>,
}

// The name between double quotes, each in it doubled.
fn quoted(alloc: Global, name: &str) -> Result<String, AllocError> {
    let mut text = String::from_str(alloc, "\"")?;
    let mut is_first = true;
    for part in name.split('"') {
        if !is_first {
            text.push_str("\"\"")?;
        }
        is_first = false;
        text.push_str(part)?;
    }
    text.push_str("\"")?;
    Ok(text)
}

fn quoted_table(alloc: Global, of: &TableColumns) -> Result<QuotedTable, AllocError> {
    let mut columns = Vec::new(alloc);
    for name in of.columns.as_slice() {
        columns.push(quoted(alloc, name.as_str())?)?;
    }
    let table = quoted(alloc, of.table.as_str())?;
    Ok(QuotedTable { table, columns })
}

fn quoted_tables(alloc: Global, all: &[TableColumns]) -> Result<Vec<QuotedTable>, AllocError> {
    let mut tables = Vec::new(alloc);
    for one in all {
        tables.push(quoted_table(alloc, one)?)?;
    }
    Ok(tables)
}

// Where in the SQL of a blob a byte stands.
#[derive(Clone, Copy, Drop)]
enum Place {
    // Outside of quotes.
    Plain,
    // In a literal.
    Literal,
    // In the name of a table.
    Name,
    // Behind a quote in that name, which ends it unless another one follows.
    NameQuote,
    // Behind the `c` before a column's number.
    Column,
}

// SQL that is gone through byte by byte. The name of a statement's table is the only thing in it between double
// quotes, and stands before its columns. Outside of quotes a `c` stands only before the number of a column.
#[derive(Drop)]
struct Renaming<'a> {
    tables: &'a [QuotedTable],
    // The columns of this statement's table.
    columns: &'a [String],
    place: Place,
    // The name of the table, or of the column, as far as it is read.
    word: String,
    made: String,
}

impl<'a> Renaming<'a> {
    fn take(&mut self, next: char) -> Result<(), AllocError> {
        match self.place {
            Place::Plain => self.take_plain(next),
            Place::Literal => {
                if next == '\'' {
                    self.place = Place::Plain;
                }
                self.made.push(next)
            }
            Place::Name => {
                if next == '"' {
                    self.place = Place::NameQuote;
                }
                self.word.push(next)
            }
            Place::NameQuote => self.take_behind_quote(next),
            Place::Column => self.take_in_column(next),
        }
    }

    fn take_plain(&mut self, next: char) -> Result<(), AllocError> {
        match next {
            '"' => self.begin(Place::Name, next),
            'c' => self.begin(Place::Column, next),
            '\'' => {
                self.place = Place::Literal;
                self.made.push(next)
            }
            _ => self.made.push(next),
        }
    }

    fn begin(&mut self, place: Place, first: char) -> Result<(), AllocError> {
        self.place = place;
        self.word.clear();
        self.word.push(first)
    }

    fn take_behind_quote(&mut self, next: char) -> Result<(), AllocError> {
        if next == '"' {
            self.place = Place::Name;
            return self.word.push(next);
        }
        self.end_name()?;
        self.place = Place::Plain;
        self.take_plain(next)
    }

    // The table's name is followed by its columns where rows are inserted.
    fn end_name(&mut self) -> Result<(), AllocError> {
        let is_insert = self.made.as_str().ends_with("INSERT INTO ");
        self.columns = columns_in(self.tables, self.word.as_str());
        self.made.push_str(self.word.as_str())?;
        if is_insert && !self.columns.is_empty() {
            push_list(&mut self.made, self.columns)?;
        }
        Ok(())
    }

    fn take_in_column(&mut self, next: char) -> Result<(), AllocError> {
        if next.is_ascii_digit() {
            return self.word.push(next);
        }
        self.made
            .push_str(column_name(self.columns, self.word.as_str()))?;
        self.place = Place::Plain;
        self.take_plain(next)
    }
}

fn columns_in<'a>(tables: &'a [QuotedTable], name: &str) -> &'a [String] {
    for one in tables {
        if one.table.as_str() == name {
            return one.columns.as_slice();
        }
    }
    &[]
}

fn push_list(made: &mut String, names: &[String]) -> Result<(), AllocError> {
    let mut before = "(";
    for name in names {
        made.push_str(before)?;
        made.push_str(name.as_str())?;
        before = ",";
    }
    made.push_str(")")
}

/// The SQL of a blob with names for its columns.
pub fn named_sql(alloc: Global, text: &str, all: &[TableColumns]) -> Result<String, AllocError> {
    let tables = quoted_tables(alloc, all)?;
    let mut renaming = Renaming {
        tables: tables.as_slice(),
        columns: &[],
        place: Place::Plain,
        word: String::new(alloc),
        made: String::new(alloc),
    };
    for next in text.chars() {
        renaming.take(next)?;
    }
    let Renaming { made, .. } = renaming;
    Ok(made)
}
