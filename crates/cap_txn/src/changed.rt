//! Which item of a footprint has changed.
ghost use Rattle.std.specs.Prelude.{◌≡◌, Some};
ghost use Rattle.std.specs.Option.{option_copied, option_eq};
ghost use Rattle.std.specs.Cmp.Lexicographic.{pointwise};
ghost use Rattle.cap_row.specs.Key.{fields_eq};
ghost use Rattle.cap_table.specs.Scan.{name_shown, rows};
ghost use Rattle.cap_txn.specs.Footprint.{first_changed, look, look_in, name_eq, row_eq, appearance_eq};

use crate::Item;
use cap_database::Database;
use cap_row::Row;
use cap_table::{RowName, Table};
use cap_value::AllocHandle;

// The number, from 0, of the first item that looks otherwise now than in the base.
pub(crate) fn first_changed<A: AllocHandle>(
    base: &Database<A>,
    now: &Database<A>,
    items: &[Item<A>],
) -> Option<usize>
    ensures { result ≡ first_changed base.now now.now items.now }
{
    for (place, item) in items.iter().enumerate() {
        if !is_same(base, now, item) {
            return Some(place);
        }
    }
    None
}

fn is_same<A: AllocHandle>(base: &Database<A>, now: &Database<A>, item: &Item<A>) -> bool
    ensures { result ≡ appearance_eq (look base.now item.now) (look now.now item.now) }
{
    match (base.table(item.table()), now.table(item.table())) {
        (None, None) => true,
        (Some(old), Some(new)) => is_same_in(old, new, item),
        _ => false,
    }
}

fn is_same_in<A: AllocHandle>(old: &Table<A>, new: &Table<A>, item: &Item<A>) -> bool
    ensures { result ≡ appearance_eq (look_in (Some old.now) item.now) (look_in (Some new.now) item.now) }
{
    match item {
        Item::Table(_) => old.schema() == new.schema(),
        Item::Row(_, row) => is_same_row(old.get(row), new.get(row)),
        Item::Scan(_) => are_same_rows(old, new),
        Item::NextId(_) => old.next_id() == new.next_id(),
    }
}

fn is_same_row<A: AllocHandle>(old: Option<&Row<A>>, new: Option<&Row<A>>) -> bool
    ensures { result ≡ option_eq fields_eq (option_copied old.entry) (option_copied new.entry) }
{
    match (old, new) {
        (None, None) => true,
        (Some(old), Some(new)) => old == new,
        _ => false,
    }
}

// Whether both give the same rows, in the same order.
fn are_same_rows<A: AllocHandle>(old: &Table<A>, new: &Table<A>) -> bool
    ensures { result ≡ pointwise row_eq (rows old.now) (rows new.now) }
{
    let mut others = new.scan();
    for (name, row) in old.scan() {
        let Some((other, beside)) = others.next() else {
            return false;
        };
        if !is_same_name(name, other) || row != beside {
            return false;
        }
    }
    others.next().is_none()
}

fn is_same_name<A: AllocHandle>(name: RowName<'_, A>, other: RowName<'_, A>) -> bool
    ensures { result ≡ name_eq (name_shown name.entry) (name_shown other.entry) }
{
    match (name, other) {
        (RowName::Key(a), RowName::Key(b)) => a == b,
        (RowName::Loose(a), RowName::Loose(b)) => a == b,
        _ => false,
    }
}
