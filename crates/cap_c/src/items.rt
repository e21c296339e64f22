//! The calls that show what a transaction looked at, by its batch.
ghost use Rattle.std.specs.Prelude.{◌≡◌, IsSome};
ghost use Rattle.std.specs.Option.{option_map};
ghost use Rattle.cap_txn.specs.Footprint.{table_named};
ghost use Rattle.cap_c.specs.Handle.{Keeps};
ghost use Rattle.cap_c.specs.Items.{info_of, item_of, key_bytes, kind_number};
ghost use Rattle.cap_c.specs.Outputs.{OutputsBytes, OutputsFound, OutputsMade};

use crate::batch_handle::{BatchHandle, put, take};
use crate::output::{write_bytes, write_made};
use crate::status::{MISUSE, OK};
use cap_records::{ItemKind, item_at, item_id, item_key, item_kind, item_table};
use cap_txn::Batch;
use std::alloc::Global;

/// What an item is, and the id of a row that has no key; elsewhere 0.
#[repr(C)]
#[derive(Clone, Copy, Drop)]
pub struct ItemInfo {
    pub kind: u32,
    pub id: u64,
}

/// Sets `item` to what an item of a transaction's batch is.
#[unsafe(no_mangle)]
pub extern "C" fn changecap_batch_item(
    alloc: Global,
    batch: &mut BatchHandle,
    at: usize,
    item: &mut ItemInfo,
) -> u32
    requires opened { IsSome batch.old.value }
    ensures outputs { Keeps batch.old.value batch.new.value
        (λ had. OutputsFound (option_map info_of (item_of had at)) result item.old item.new) }
{
    let held = take(alloc, batch);
    let status = set_item(&held.batch, at, item);
    put(batch, held);
    status
}

/// Writes the name of an item's table.
#[unsafe(no_mangle)]
pub extern "C" fn changecap_batch_item_table(
    alloc: Global,
    batch: &mut BatchHandle,
    at: usize,
    out: &mut [u8],
    len: &mut usize,
) -> u32
    requires opened { IsSome batch.old.value }
    ensures outputs { Keeps batch.old.value batch.new.value
        (λ had. OutputsBytes (option_map table_named (item_of had at)) result out.old out.new len.old
        len.new) }
{
    let held = take(alloc, batch);
    let status = set_table(&held.batch, at, out, len);
    put(batch, held);
    status
}

/// Writes the record of the key of an item that is a row with a key; any other has no bytes.
#[unsafe(no_mangle)]
pub extern "C" fn changecap_batch_item_key(
    alloc: Global,
    batch: &mut BatchHandle,
    at: usize,
    out: &mut [u8],
    len: &mut usize,
) -> u32
    requires opened { IsSome batch.old.value }
    ensures outputs { Keeps batch.old.value batch.new.value
        (λ had. OutputsMade (option_map key_bytes (item_of had at)) result out.old out.new len.old
        len.new) }
{
    let held = take(alloc, batch);
    let status = set_key(alloc, &held.batch, at, out, len);
    put(batch, held);
    status
}

fn set_item(batch: &Batch<Global>, at: usize, item: &mut ItemInfo) -> u32
    ensures { OutputsFound (option_map info_of (item_of batch.now at)) result item.old item.new }
{
    match item_at(batch, at) {
        Some(found) => {
            *item = ItemInfo {
                kind: kind_number(item_kind(found)),
                id: item_id(found),
            };
            OK
        }
        None => MISUSE,
    }
}

fn set_table(batch: &Batch<Global>, at: usize, out: &mut [u8], len: &mut usize) -> u32
    ensures { OutputsBytes (option_map table_named (item_of batch.now at)) result out.old out.new len.old
        len.new }
{
    match item_at(batch, at) {
        Some(found) => write_bytes(item_table(found).as_str().as_bytes(), out, len),
        None => MISUSE,
    }
}

fn set_key(alloc: Global, batch: &Batch<Global>, at: usize, out: &mut [u8], len: &mut usize) -> u32
    ensures { OutputsMade (option_map key_bytes (item_of batch.now at)) result out.old out.new len.old
        len.new }
{
    match item_at(batch, at) {
        Some(found) => write_made(item_key(alloc, found), out, len),
        None => MISUSE,
    }
}

fn kind_number(kind: ItemKind) -> u32
    ensures { result ≡ kind_number kind }
{
    match kind {
        ItemKind::Table => 0,
        ItemKind::Row => 1,
        ItemKind::Scan => 2,
        ItemKind::NextId => 3,
    }
}
