//! The records after a touch.
ghost use Rattle.std.specs.Prelude.{◌≡◌, IsTrue, IfOk, OnOk};
ghost use Rattle.std.specs.Option.{option_copied, option_map, unwrap_or};
ghost use Rattle.cap_row.specs.Key.{fields_cmp};
ghost use Rattle.cap_tree.specs.Tree.{IsOrdered, get, put_entry};
ghost use Rattle.cap_session.specs.Records.{Records, Touch, record_after, touch};

use crate::{Record, Records};
use cap_row::{Key, Row};
use cap_value::{AllocHandle, OutOfMemory};

// Touches a key, with the row before it.
pub(crate) fn touch<A: AllocHandle>(
    records: &mut Records<A>,
    key: &Key<A>,
    image: Option<&Row<A>>,
    indirect: bool,
) -> Result<(), OutOfMemory>
    ensures { OnOk result (records.new ≡ touch records.old (record {
      key = key.now;
      image = option_copied image.entry;
      indirect = indirect;
    })) }
{
    if let Some(record) = new_record(records, key, image, indirect)? {
        records.put(key.copy()?, record)?;
    }
    Ok(())
}

// The record of a key after a touch, with the row before it, or none where it stays as it is. The key is
// searched once.
#[inline(always)]
pub(crate) fn new_record<A: AllocHandle>(
    records: &Records<A>,
    key: &Key<A>,
    image: Option<&Row<A>>,
    indirect: bool,
) -> Result<Option<Record<A>>, OutOfMemory>
    ensures { IfOk result (λ record_new. unwrap_or
        (option_map (put_entry fields_cmp records.now key.now) record_new) records.now
        ≡ touch records.now (record {
          key = key.now;
          image = option_copied image.entry;
          indirect = indirect;
        })) }
{
    let found = records.get(key);
    if changes_nothing(found, indirect) {
        return Ok(None);
    }
    Ok(Some(record_after(found, image, indirect)?))
}

// Whether a touch of a key with this record leaves the records as they are, whatever its image: the record is
// direct, or this touch is indirect too.
fn changes_nothing<A: AllocHandle>(found: Option<&Record<A>>, indirect: bool) -> bool
    ensures { IsTrue result → (records : Records A) (t : Touch A) → IsOrdered fields_cmp records
        → get fields_cmp records t.key ≡ option_copied found.entry → t.indirect ≡ indirect
        → touch records t ≡ records }
{
    match found {
        Some(record) => !record.indirect || indirect,
        None => false,
    }
}

// The record of a key after a touch. A record keeps its image.
fn record_after<A: AllocHandle>(
    before: Option<&Record<A>>,
    image: Option<&Row<A>>,
    indirect: bool,
) -> Result<Record<A>, OutOfMemory>
    ensures { IfOk result (λ after. after
        ≡ record_after (option_copied before.entry) (option_copied image.entry) indirect) }
{
    match before {
        Some(record) => {
            let mut after = record.copy()?;
            after.indirect = record.indirect && indirect;
            Ok(after)
        }
        None => {
            let image = copy_of(image)?;
            Ok(Record { image, indirect })
        }
    }
}

fn copy_of<A: AllocHandle>(row: Option<&Row<A>>) -> Result<Option<Row<A>>, OutOfMemory>
    ensures { IfOk result (λ copy. copy ≡ option_copied row.entry) }
{
    match row {
        Some(row) => Ok(Some(row.copy()?)),
        None => Ok(None),
    }
}
