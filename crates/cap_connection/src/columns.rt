//! The columns of tables, as bytes.
ghost use Rattle.std.specs.Prelude.{◌≡◌, IfOk, false, true};
ghost use Rattle.cap_connection.specs.Columns.{AreColumns, key_columns};

use cap_row::{COLUMNS_MAX, Schema};
use cap_value::OutOfMemory;
use std::alloc::Global;

/// Whether a table may have as many columns.
pub(crate) fn are_columns(key: &[u8]) -> bool
    ensures are { result ≡ true → AreColumns key.now }
    ensures none { result ≡ false → ¬ (AreColumns key.now) }
{
    !key.is_empty() && key.len() <= COLUMNS_MAX
}

/// The columns of a table, one byte each.
pub(crate) fn schema_of(alloc: Global, key: &[u8]) -> Result<Schema<Global>, OutOfMemory>
    requires columns { AreColumns key.now }
    ensures { IfOk result (λ schema. schema ≡ key_columns key.now) }
{
    let flags = key_columns(alloc, key)?;
    match Schema::new(alloc, flags.as_slice()) {
        Ok(schema) => Ok(schema),
        Err(_) => Err(OutOfMemory),
    }
}

fn key_columns(alloc: Global, key: &[u8]) -> Result<Vec<bool, Global>, OutOfMemory>
    ensures { IfOk result (λ flags. flags.items ≡ key_columns key.now) }
{
    key.iter().map(|flag| *flag != 0).collect(alloc)
}
