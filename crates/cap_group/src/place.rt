//! Changes in the order of their keys.
ghost use Rattle.std.specs.Prelude.{◌≡◌, IfOk, map};
ghost use Rattle.cap_row.specs.Key.{fields_cmp};
ghost use Rattle.cap_group.specs.Place.{place_of};

use crate::combine::Combine;
use crate::key_ref::KeyRef;
use cap_changes::{EntryRef, TableGroup};
use cap_field::ValueRef;
use cap_value::{AllocHandle, OutOfMemory};
use std::cmp::Ordering;
use std::marker::Model;

// A change and its key, both in place.
#[derive(Drop)]
pub(crate) struct Place<'a, C: Combine<A> + Drop, A: AllocHandle> {
    // The first value of the key, and the others.
    first: Option<ValueRef<'a>>,
    others: KeyRef<'a, A>,
    change: EntryRef<'a, C>,
}

impl<'a, C: Combine<A> + Drop, A: AllocHandle> Model for Place<'a, C, A> {
    ghost use Rattle.std.specs.Prelude.{◌≡◌, None, []};
    ghost use Rattle.std.specs.List.{cons_option};
    ghost use Rattle.std.specs.Option.{option_map};
    ghost use Rattle.cap_field.specs.FieldReading.{value_of};
    ghost use Rattle.cap_group.specs.Place as places;

    ghost Value = { places.Place A C };

    ghost view = { λ p. record {
      key = cons_option (option_map value_of p.first) p.others;
      change = p.change;
    } };

    ghost invariant = { λ p. p.first ≡ None → p.others ≡ [] };
}

impl<'a, C: Combine<A> + Drop, A: AllocHandle> Place<'a, C, A> {
    // The change with the key that its flags give.
    fn new(flags: &'a [bool], change: EntryRef<'a, C>) -> Self
        ensures { result ≡ place_of C.key flags.now change.entry }
    {
        let mut others = KeyRef::new(flags, C::key_record(&change));
        Place {
            first: others.next_value(),
            others,
            change,
        }
    }

    pub(crate) fn change(&self) -> &EntryRef<'a, C>
        ensures { result.now ≡ self.now.change }
    {
        &self.change
    }

    // The order of their keys.
    #[inline(always)]
    pub(crate) fn order(&self, other: &Self) -> Ordering
        ensures { result ≡ fields_cmp self.now.key other.now.key }
    {
        match (self.first, other.first) {
            (Some(value), Some(against)) => match value.order::<A>(against) {
                Ordering::Equal => self.others.order(&other.others),
                order => order,
            },
            (Some(_), None) => Ordering::Greater,
            (None, Some(_)) => Ordering::Less,
            (None, None) => Ordering::Equal,
        }
    }
}

// The changes of a group, each with its key.
pub(crate) fn places_of<'a, C: Combine<A> + Drop, A: AllocHandle>(
    alloc: A,
    group: &'a TableGroup<C, A>,
) -> Result<Vec<Place<'a, C, A>, A>, OutOfMemory>
    ensures { IfOk result (λ places.
        places.items ≡ map (place_of C.key group.now.schema) group.now.changes) }
{
    let changes = group.changes();
    let mut places = Vec::with_capacity(alloc, changes.len())?;
    for change in changes {
        places.push(Place::new(group.schema().flags(), change))?;
    }
    Ok(places)
}
