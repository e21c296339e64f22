//! Writing of records that stand alone.
ghost use Rattle.std.specs.Prelude.{◌≡◌, All, IfOk, OnOk};
ghost use Rattle.cap_value.specs.Value.{IsValue};
ghost use Rattle.cap_records.specs.Record.{values_bytes};

use cap_codec::push_value;
use cap_value::{OutOfMemory, Value};
use std::alloc::Global;

/// The record of these values.
pub(crate) fn values_record(
    alloc: Global,
    values: &[Value<Global>],
) -> Result<Vec<u8, Global>, OutOfMemory>
    ensures bytes { IfOk result (λ bytes. bytes.items ≡ values_bytes values.now) }
    // Each value is within its limits, so that it is read again.
    ensures fits { OnOk result (All IsValue values.now) }
{
    let mut out = Vec::new(alloc);
    for value in values {
        value.keeps_limits();
        push_value(&mut out, value)?;
    }
    Ok(out)
}
