//! The bytes of a capture's changeset, written from the records of a session and the rows now.
ghost use Rattle.std.specs.Prelude.{◌≡◌, ◌++◌, [], IfOk, OnOk, Some};
ghost use Rattle.std.specs.List.{cons_option, filter_map, flat_map};
ghost use Rattle.std.specs.Option.{option_copied};
ghost use Rattle.cap_changes.specs.Change.{change_of};
ghost use Rattle.cap_changes.specs.ChangeBytes.{change_bytes};
ghost use Rattle.cap_codec.specs.Changeset.{list_bytes_with};
ghost use Rattle.cap_core.specs.Capture.{change_now, changes_of, table_changes};

use cap_changes::is_changed;
use cap_codec::{KeyFlags, push_change_between, push_group_header};
use cap_database::Database;
use cap_row::{Row, Schema};
use cap_session::{Attached, Record, Records};
use cap_table::Table;
use cap_value::{AllocHandle, Name, OutOfMemory};

// The changes of the attached tables, from each first image to the present row, as a changeset with these key
// flags. No list of them is made.
#[tactic(auto, using(crate::proofs::ChangesetLemmas::one_more))]
pub(crate) fn changeset_of<A: AllocHandle>(
    alloc: A,
    key_flags: KeyFlags,
    attached: Attached<'_, A>,
    main: &Database<A>,
) -> Result<Vec<u8, A>, OutOfMemory>
    ensures { IfOk result (λ bytes. bytes.items
        ≡ list_bytes_with key_flags (changes_of main.now attached.entry)) }
{
    let mut out = Vec::new(alloc);
    for (name, records) in attached {
        push_attached(&mut out, key_flags, name, records, main.table(name))?;
    }
    Ok(out)
}

// Appends the group of an attached table, if it has a change.
fn push_attached<A: AllocHandle>(
    out: &mut Vec<u8, A>,
    key_flags: KeyFlags,
    name: &Name<A>,
    records: &Records<A>,
    table: Option<&Table<A>>,
) -> Result<(), OutOfMemory>
    ensures { OnOk result (out.new.items ≡ out.old.items ++ list_bytes_with key_flags
        (cons_option (table_changes (name.now, records.now) (option_copied table.entry)) [])) }
{
    match table {
        Some(table) => push_group(out, key_flags, name, records, table),
        None => Ok(()),
    }
}

// Appends a header and the changes of a table, and takes the header off where there is no change.
#[tactic(auto, using(crate::proofs::ChangesetLemmas::group_pushed))]
fn push_group<A: AllocHandle>(
    out: &mut Vec<u8, A>,
    key_flags: KeyFlags,
    name: &Name<A>,
    records: &Records<A>,
    table: &Table<A>,
) -> Result<(), OutOfMemory>
    ensures { OnOk result (out.new.items ≡ out.old.items ++ list_bytes_with key_flags
        (cons_option (table_changes (name.now, records.now) (Some table.now)) [])) }
{
    let before = out.len();
    push_group_header(out, key_flags, name, table.schema())?;
    let headed = out.len();
    push_changes(out, records, table)?;
    if out.len() == headed {
        out.truncate(before);
    }
    Ok(())
}

// Appends the changes of a table.
#[tactic(auto, using(crate::proofs::ChangesetLemmas::one_more))]
fn push_changes<A: AllocHandle>(
    out: &mut Vec<u8, A>,
    records: &Records<A>,
    table: &Table<A>,
) -> Result<(), OutOfMemory>
    ensures { OnOk result (out.new.items
        ≡ out.old.items ++ flat_map change_bytes (filter_map (change_now table.now) records.now)) }
{
    let rows = table.keyed();
    for (key, kept) in records {
        push_touched(out, table.schema(), kept, rows.get(key))?;
    }
    Ok(())
}

// Appends the change of a touched key, if its row has changed.
#[inline(always)]
#[tactic(auto, using(crate::proofs::ChangesetLemmas::no_change))]
fn push_touched<A: AllocHandle>(
    out: &mut Vec<u8, A>,
    schema: &Schema<A>,
    kept: &Record<A>,
    now: Option<&Row<A>>,
) -> Result<(), OutOfMemory>
    ensures { OnOk result (out.new.items ≡ out.old.items ++ flat_map change_bytes (cons_option
        (change_of schema.now kept.now.indirect kept.now.image (option_copied now.entry)) [])) }
{
    let image = kept.image.as_ref();
    if !is_changed(image, now) {
        return Ok(());
    }
    push_change_between(out, schema, kept.indirect, image, now)
}
