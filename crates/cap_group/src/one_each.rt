//! The changes of a group, one for each row.
ghost use Rattle.std.specs.Prelude.{◌≡◌, ◌++◌, [], All, IfOk, OnOk, map};
ghost use Rattle.std.specs.List.Sorted.{IsSorted};
ghost use Rattle.cap_group.specs.KeyedChanges.{entries_of, keyed_of, no_changes, with_changes};
ghost use Rattle.cap_group.specs.Place.{IsPlace, place_cmp};

use crate::combine::Combine;
use crate::place::{Place, places_of};
use crate::together::Together;
use cap_changes::TableGroup;
use cap_value::{AllocHandle, OutOfMemory};

// The changes of a group, one for each row, in the order of their keys.
pub(crate) fn one_each<C: Combine<A> + Drop, A: AllocHandle>(
    alloc: A,
    group: &TableGroup<C, A>,
) -> Result<TableGroup<C, A>, OutOfMemory>
    ensures made { IfOk result (λ made. made ≡ entries_of (with_changes C.key C.combined
        (no_changes group.now.table group.now.schema) group.now.changes)) }
    ensures again { IfOk result (λ made. keyed_of C.key C.combined made ≡ keyed_of C.key C.combined group.now) }
{
    // For the proof: the changes fit.
    group.fits();
    let mut places = places_of(alloc, group)?;
    places.sort_by(|one, other| one.order(other))?;
    let mut made = TableGroup::new(alloc, group.table().copy()?, group.schema().copy()?);
    push_rows(alloc, &mut made, group.schema().flags(), places.as_slice())?;
    Ok(made)
}

// Appends what the changes of each row are together, where they are in the order of their keys.
fn push_rows<'a, C: Combine<A> + Drop, A: AllocHandle>(
    alloc: A,
    group: &mut TableGroup<C, A>,
    flags: &'a [bool],
    places: &[Place<'a, C, A>],
) -> Result<(), OutOfMemory>
    requires none { group.old.changes ≡ [] }
    requires columns { group.old.schema ≡ flags.now }
    requires each { All (IsPlace C.key C.fits_in flags.now) places.now }
    requires sorted { IsSorted place_cmp places.now }
    ensures made { OnOk result (group.new ≡ entries_of (with_changes C.key C.combined
        (no_changes group.old.table flags.now) (map (λ place. place.change) places.now))) }
    ensures again { OnOk result (keyed_of C.key C.combined group.new ≡ with_changes C.key C.combined
        (no_changes group.old.table flags.now) (map (λ place. place.change) places.now)) }
{
    if places.is_empty() {
        return Ok(());
    }
    // For the proof: what changes of one row become is of that row.
    C::keeps_row();
    let mut row = Together::new(alloc, flags);
    row.add(places[0].change())?;
    for number in 1..places.len() {
        let place = &places[number];
        if !places[number - 1].order(place).is_eq() {
            row.finish(group)?;
        }
        row.add(place.change())?;
    }
    row.finish(group)
}
