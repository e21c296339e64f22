//! The items of a footprint: what a commit compares.
ghost use Rattle.std.specs.Prelude.{◌≡◌, slice_get, IfOk};
ghost use Rattle.std.specs.Option.{option_copied};
ghost use Rattle.cap_txn.specs.Batch.{footprint_of};
ghost use Rattle.cap_txn.specs.Footprint.{id_in, key_in, table_named};
ghost use Rattle.cap_records.specs.Items.{item_kind};
ghost use Rattle.cap_records.specs.Record.{values_bytes};

use crate::record::record_of_key;
use cap_table::RowRef;
use cap_txn::{Batch, Item};
use cap_value::{Name, OutOfMemory};
use std::alloc::Global;

/// What an item is.
#[derive(Clone, Copy, Debug, PartialEq, Eq, Drop)]
pub enum ItemKind {
    /// Whether there is a table, and its columns.
    Table,
    /// A row, or its absence.
    Row,
    /// All rows of a table.
    Scan,
    /// The id that a table gives next.
    NextId,
}

/// An item of what a transaction's batch looked at, counted from 0. A batch that no transaction made has
/// none.
pub fn item_at(batch: &Batch<Global>, at: usize) -> Option<&Item<Global>>
    ensures { option_copied result ≡ slice_get (footprint_of batch.now.reads) at }
{
    batch.footprint().get(at)
}

/// What the item is.
pub fn item_kind(item: &Item<Global>) -> ItemKind
    ensures { result ≡ item_kind item.now }
{
    match item {
        Item::Table(_) => ItemKind::Table,
        Item::Row(_, _) => ItemKind::Row,
        Item::Scan(_) => ItemKind::Scan,
        Item::NextId(_) => ItemKind::NextId,
    }
}

/// The name of its table.
pub fn item_table(item: &Item<Global>) -> &Name<Global>
    ensures { result.now ≡ table_named item.now }
{
    item.table()
}

/// The id of a row without a key, and 0 of any other item.
pub fn item_id(item: &Item<Global>) -> u64
    ensures { result ≡ id_in item.now }
{
    match item {
        Item::Row(_, RowRef::Loose(id)) => *id,
        _ => 0,
    }
}

/// The record of the key of a row that has one, and no bytes of any other item.
pub fn item_key(alloc: Global, item: &Item<Global>) -> Result<Vec<u8, Global>, OutOfMemory>
    ensures { IfOk result (λ bytes. bytes.items ≡ values_bytes (key_in item.now)) }
{
    match item {
        Item::Row(_, RowRef::Key(key)) => record_of_key(alloc, key),
        _ => Ok(Vec::new(alloc)),
    }
}
