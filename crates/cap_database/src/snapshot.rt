//! Snapshots: a database and its version.
ghost use Rattle.std.specs.Prelude.{◌≡◌, IfOk};
ghost use Rattle.cap_database.specs.Read.{read, rows_of, Lends};

use crate::Database;
use cap_row::Row;
use cap_table::{RowRef, Scan};
use cap_value::{AllocHandle, Name, OutOfMemory, Refusal};
use std::marker::Model;

/// A database at one version.
#[derive(Drop)]
pub struct Snapshot<A: AllocHandle> {
    version: u64,
    database: Database<A>,
}

impl<A: AllocHandle> Model for Snapshot<A> {
    ghost use Rattle.cap_database.specs.Snapshot.{SnapshotState};

    ghost Value = { SnapshotState A };

    ghost view = { λ s. record { version = s.version; database = s.database } };
}

impl<A: AllocHandle> Snapshot<A> {
    /// This database at this version.
    pub fn new(version: u64, database: Database<A>) -> Self
        ensures { result ≡ record { version = version; database = database } }
    {
        Snapshot { version, database }
    }

    /// The version.
    pub fn version(&self) -> u64
        ensures { result ≡ self.now.version }
    {
        self.version
    }

    /// The database.
    pub fn database(&self) -> &Database<A>
        ensures { result.now ≡ self.now.database }
    {
        &self.database
    }

    /// The row of this name in a table, or its absence. Refused with `NoTable` where no table has the name.
    pub fn get(&self, table: &Name<A>, row: &RowRef<A>) -> Result<Option<&Row<A>>, Refusal>
        ensures { Lends result (read self.now.database table.now row.now) }
    {
        self.database.get(table, row)
    }

    /// All rows of a table, each with its name: those with a key in the order of their keys, and then the
    /// others by their ids. Refused with `NoTable` where no table has the name.
    pub fn scan(&self, table: &Name<A>) -> Result<Scan<'_, A>, Refusal>
        ensures { result ≡ rows_of self.now.database table.now }
    {
        self.database.scan(table)
    }

    /// The same snapshot, which shares its rows.
    pub fn copy(&self) -> Result<Self, OutOfMemory>
        ensures { IfOk result (λ copy. copy ≡ self.now) }
    {
        Ok(Snapshot {
            version: self.version,
            database: self.database.snapshot()?,
        })
    }
}
