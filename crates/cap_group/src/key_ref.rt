//! The key of the row that a change is of, in place.
ghost use Rattle.std.specs.Prelude.{◌≡◌};
ghost use Rattle.std.specs.Map.Iter.{TakesFirst};
ghost use Rattle.cap_field.specs.FieldReading.{value_of};
ghost use Rattle.cap_row.specs.Key.{fields_cmp};
ghost use Rattle.cap_changes.specs.FieldRecord.{RecordFields};
ghost use Rattle.cap_group.specs.ChangeKey.{key_values};

use cap_changes::RecordRef;
use cap_field::ValueRef;
use cap_value::AllocHandle;
use std::cmp::Ordering;
use std::marker::Model;

// The values of a key that are left to go over, in place.
#[derive(Drop)]
pub(crate) struct KeyRef<'a, A: AllocHandle> {
    flags: &'a [bool],
    fields: RecordRef<'a, A>,
}

impl<'a, A: AllocHandle> Model for KeyRef<'a, A> {
    ghost use Rattle.cap_row.specs.Fields.{Fields};
    ghost use Rattle.cap_group.specs.ChangeKey.{key_values};

    ghost Value = { Fields A };

    ghost view = { λ k. key_values k.flags.now k.fields };
}

impl<'a, A: AllocHandle> KeyRef<'a, A> {
    // The values of the key fields of a record. No field behind the last one of the key is looked at.
    #[inline(always)]
    pub(crate) fn new(flags: &'a [bool], fields: RecordRef<'a, A>) -> Self
        ensures { result ≡ key_values flags.now fields.entry }
    {
        KeyRef {
            flags: key_columns::<A>(flags),
            fields,
        }
    }

    #[inline(always)]
    fn copy(&self) -> Self
        ensures { result ≡ self.now }
    {
        KeyRef {
            flags: self.flags,
            fields: self.fields.copy(),
        }
    }

    // The next value.
    #[inline(always)]
    pub(crate) fn next_value(&mut self) -> Option<ValueRef<'a>>
        ensures { TakesFirst (value_of {A = A}) self.old result self.new }
    {
        while let [key, others @ ..] = self.flags {
            self.flags = others;
            let field = self.fields.next_field()?;
            if let (true, Some(value)) = (*key, field) {
                return Some(value);
            }
        }
        None
    }

    // The order of keys.
    pub(crate) fn order(&self, other: &Self) -> Ordering
        ensures { result ≡ fields_cmp self.now other.now }
    {
        let (mut left, mut right) = (self.copy(), other.copy());
        loop {
            match (left.next_value(), right.next_value()) {
                (Some(value), Some(against)) => match value.order::<A>(against) {
                    Ordering::Equal => {}
                    order => return order,
                },
                (Some(_), None) => return Ordering::Greater,
                (None, Some(_)) => return Ordering::Less,
                (None, None) => return Ordering::Equal,
            }
        }
    }
}

// The key flags up to the last column of the key.
#[tactic(auto, using(crate::proofs::FieldLemmas::outside_key))]
#[inline(always)]
fn key_columns<A: AllocHandle>(flags: &[bool]) -> &[bool]
    ensures { (fields : RecordFields A) → key_values result.now fields ≡ key_values flags.now fields }
{
    let mut keys = flags;
    while let Some((key, front)) = keys.split_last() {
        if *key {
            break;
        }
        keys = front;
    }
    keys
}
