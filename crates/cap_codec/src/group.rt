//! Decoding of groups.

ghost use Rattle.std.specs.Prelude.{◌≡◌, ◌≤◌, length, map, IfOk, IsTrue};
ghost use Rattle.cap_value.specs.Bytes.{is_name};
ghost use Rattle.std.specs.List.{list_any};
ghost use Rattle.cap_row.specs.Schema.{has_key};
ghost use Rattle.cap_row.specs.declared.limits.TheConstants.{COLUMNS_MAX};
ghost use Rattle.cap_value.specs.Memory.{ShowsUnlessMemory};
ghost use Rattle.cap_changes.specs.ChangeReading.{is_set, changes_at, with_changes};
ghost use Rattle.cap_codec.specs.BlobReading.{entries_at};

use crate::header::take_header;
use cap_changes::{Entry, TableGroup};
use cap_field::BlobFault;
use cap_row::Schema;
use cap_value::{AllocHandle, Fault, Name, OutOfMemory};

/// The name of a table, copied out of a header.
pub fn own_name<A: AllocHandle>(alloc: A, name: &str) -> Result<Name<A>, Fault<BlobFault>>
    requires { IsTrue (is_name name.now) }
    ensures { ShowsUnlessMemory (λ name. name) result (Ok name.now) }
{
    match Name::new(alloc, name) {
        Ok(name) => Ok(name),
        Err(Fault::OutOfMemory) => Err(Fault::OutOfMemory),
        Err(Fault::Refused(_)) => unreachable!(),
    }
}

/// The key flags of these bytes: any but zero flags a key column.
pub fn set_flags<A: AllocHandle>(alloc: A, flags: &[u8]) -> Result<Vec<bool, A>, OutOfMemory>
    ensures { IfOk result (λ set. set.items ≡ map is_set flags.now) }
{
    flags.iter().map(|flag| *flag != 0).collect(alloc)
}

/// The schema with these key flags: any byte but zero flags a key column.
#[tactic(auto, using(crate::proofs::HeaderLemmas::key_is_set, std::proofs::lemmas::Bool::Decides::nat_tests))]
pub fn own_schema<A: AllocHandle>(alloc: A, flags: &[u8]) -> Result<Schema<A>, Fault<BlobFault>>
    requires some { 1 ≤ length flags.now }
    requires fits { length flags.now ≤ COLUMNS_MAX }
    requires keyed { IsTrue (list_any is_set flags.now) }
    ensures gives { ShowsUnlessMemory (λ schema. schema) result (Ok (map is_set flags.now)) }
    ensures keyed { IfOk result (λ schema. IsTrue (has_key schema)) }
{
    let flags = set_flags(alloc, flags)?;
    match Schema::new(alloc, &flags) {
        Ok(schema) => Ok(schema),
        Err(Fault::OutOfMemory) => Err(Fault::OutOfMemory),
        Err(Fault::Refused(_)) => unreachable!(),
    }
}

/// The group behind its kind byte.
pub fn take_group<C: Entry + Drop, A: AllocHandle>(
    alloc: A,
    total: usize,
    bytes: &[u8],
) -> Result<(TableGroup<C, A>, &[u8]), Fault<BlobFault>>
    ensures gives { ShowsUnlessMemory (λ x. (x.0, x.1.now)) result (entries_at C.one_at total bytes.now) }
    ensures behind { IfOk result (λ x. length x.1.now ≤ length bytes.now) }
{
    let (header, rest) = take_header(total, bytes)?;
    let table = own_name(alloc, header.table)?;
    let schema = own_schema(alloc, header.flags)?;
    let mut group = TableGroup::new(alloc, table, schema);
    let rest = group.push_read(total, rest)?;
    Ok((group, rest))
}
