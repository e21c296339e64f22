//! Primary keys.
ghost use Rattle.std.specs.Prelude.{◌≡◌, ◌∷◌, [], ◌≤◌, ◌<◌, ◌↔◌, List, ℕ, length, IfOk, IfSome, IsTrue, slice_get};
ghost use Rattle.std.specs.Option.{option_copied};
ghost use Rattle.cap_value.specs.Value.{IsValue};
ghost use Rattle.cap_row.specs.Key.{key_from, key_fields, key_of, fields_cmp, is_key};

use crate::{Row, RowFields, Schema};
use cap_value::{AllocHandle, Exact, OutOfMemory, Value};
use smallvec::SmallVec;
use std::cmp::Ordering;
use std::fmt::{self, Debug, Formatter, Write};
use std::marker::Model;
use std::slice;
use std::sync::Arc;

/// The values of a key that is being made. Two fit inline, so that most keys of several columns are one
/// allocation.
pub type KeyValues<A> = SmallVec<Value<A>, 2, A>;

/// A primary key: the values of a row's key columns, in column order, none of them NULL. Copies share the
/// values.
pub struct Key<A: AllocHandle> {
    values: Values<A>,
}

// One value takes no memory of its own.
pub(crate) enum Values<A: AllocHandle> {
    One(Value<A>),
    Many(Arc<KeyValues<A>, A>),
}

impl<A: AllocHandle> Model for Key<A> {
    ghost use Rattle.cap_row.specs.Fields.{Fields};
    ghost use Rattle.cap_row.specs.Key.{is_key};
    ghost use Rattle.cap_row.specs.Values.{values_of};
    ghost use Rattle.std.specs.Prelude.{IsTrue};

    ghost Value = { Fields A };

    ghost view = { λ k. values_of k.values };

    ghost invariant = { λ k. IsTrue (is_key (values_of k.values)) };
}

impl<A: AllocHandle> Drop for Values<A> {
    fn drop(self) {
        match self {
            Values::One(_) => {}
            Values::Many(_) => {}
        }
    }
}

impl<A: AllocHandle> Drop for Key<A> {
    fn drop(self) {
        let Key { values: _ } = self;
    }
}

impl<A: AllocHandle> Key<A> {
    /// The key of these values, or none where there is no value, or a NULL among them.
    pub fn new(alloc: A, fields: Vec<Value<A>, A>) -> Result<Option<Self>, OutOfMemory>
        ensures { IfOk result (λ key. key ≡ key_from fields.items) }
    {
        let mut values = SmallVec::new(alloc);
        values.extend(fields)?;
        Key::of_values(alloc, values)
    }

    /// The key of values that were put one after another, or none where there is no value, or a NULL among
    /// them. One value takes no memory.
    pub fn of_values(alloc: A, values: KeyValues<A>) -> Result<Option<Self>, OutOfMemory>
        ensures { IfOk result (λ key. key ≡ key_from values.items) }
    {
        if !is_key(values.as_slice()) {
            return Ok(None);
        }
        if values.len() == 1 {
            return Ok(Some(Key::of_value(values)));
        }
        match Arc::new(alloc, values) {
            Ok(values) => Ok(Some(Key {
                values: Values::Many(values),
            })),
            Err(_) => Err(OutOfMemory),
        }
    }

    /// The key of one value, or none where it is NULL. Takes no memory.
    #[inline(always)]
    pub fn of_one(value: Value<A>) -> Option<Self>
        ensures { result ≡ key_from (value ∷ []) }
    {
        if value.is_null() {
            return None;
        }
        Some(Key {
            values: Values::One(value),
        })
    }

    fn of_value(mut values: KeyValues<A>) -> Self
        requires one { length values.items ≡ 1 }
        requires key { IsTrue (is_key values.items) }
        ensures { result ≡ values.items }
    {
        let Some(only) = values.pop() else {
            unreachable!()
        };
        Key {
            values: Values::One(only),
        }
    }

    /// The values, in column order.
    pub fn fields(&self) -> &[Value<A>]
        ensures fields { result.now ≡ self.now }
        ensures key { IsTrue (is_key self.now) }
    {
        match &self.values {
            Values::One(value) => slice::from_ref(value),
            Values::Many(values) => values.as_slice(),
        }
    }

    /// The value in a place of the key, counted from 0, or none past its end.
    pub fn get(&self, place: usize) -> Option<&Value<A>>
        ensures value { option_copied result ≡ slice_get self.now place }
        ensures fits { IfSome result (λ value. IsValue value.now) }
    {
        let value = self.fields().get(place)?;
        value.keeps_limits();
        Some(value)
    }

    /// How many values there are.
    pub fn width(&self) -> usize
        ensures { result ≡ length self.now }
    {
        self.fields().len()
    }

    /// The order of keys: value by value, and a key before what extends it.
    #[inline(always)]
    pub fn order(&self, other: &Self) -> Ordering
        ensures order { result ≡ fields_cmp self.now other.now }
        ensures equal { (result ≡ Ordering.Equal) ↔ (self.now ≡ other.now) }
    {
        match (&self.values, &other.values) {
            (Values::One(value), Values::One(against)) => value.order(against),
            _ => self.order_of_many(other),
        }
    }

    // Most keys are one value, so the order of these alone is made part of the callers.
    #[inline(never)]
    fn order_of_many(&self, other: &Self) -> Ordering
        ensures order { result ≡ fields_cmp self.now other.now }
        ensures equal { (result ≡ Ordering.Equal) ↔ (self.now ≡ other.now) }
    {
        self.fields().cmp(other.fields())
    }

    /// Whether both are the same key.
    pub fn same(&self, other: &Self) -> bool
        ensures { IsTrue result ↔ (self.now ≡ other.now) }
    {
        self.order(other).is_eq()
    }

    /// The same key, which shares its values.
    pub fn copy(&self) -> Result<Self, OutOfMemory>
        ensures { IfOk result (λ copy. copy ≡ self.now) }
    {
        let values = match &self.values {
            Values::One(value) => Values::One(value.copy()?),
            Values::Many(values) => Values::Many(Arc::try_clone(values)?),
        };
        Ok(Key { values })
    }
}

fn is_key<A: AllocHandle>(values: &[Value<A>]) -> bool
    ensures { result ≡ is_key values.now }
{
    !values.is_empty() && !values.iter().any(|value| value.is_null())
}

/// The primary key of a row: the values of the schema's key columns. None where no column is a key column,
/// or a key column's value is NULL.
pub fn key_of<A: AllocHandle>(
    alloc: A,
    schema: &Schema<A>,
    row: &Row<A>,
) -> Result<Option<Key<A>>, OutOfMemory>
    requires { length schema.now ≡ length row.now }
    ensures { IfOk result (λ key. key ≡ key_of schema.now row.now) }
{
    Key::of_values(alloc, key_values(alloc, schema.flags(), row.fields())?)
}

#[tactic(auto, using(crate::proofs::KeyLemmas::no_more_row))]
fn key_values<A: AllocHandle>(
    alloc: A,
    flags: &[bool],
    fields: RowFields<'_, A>,
) -> Result<KeyValues<A>, OutOfMemory>
    ensures { IfOk result (λ values. values.items ≡ key_fields flags.now fields.entry) }
{
    let mut values = SmallVec::new(alloc);
    let mut rest = fields;
    for flag in flags {
        let Some(value) = rest.next_value() else {
            return Ok(values);
        };
        if *flag {
            values.push(value.own(alloc)?)?;
        }
    }
    Ok(values)
}

impl<A: AllocHandle> PartialEq for Key<A> {
    ghost use Rattle.std.specs.Cmp.{eq_by_cmp_equiv, partial_equiv_from_equiv};
    ghost use Rattle.cap_row.specs.Key.{fields_eq, fields_cmp_total};

    ghost eq = { fields_eq };

    ghost laws = { partial_equiv_from_equiv (eq_by_cmp_equiv fields_cmp_total) };

    fn eq(&self, other: &Self) -> bool {
        self.order(other).is_eq()
    }
}

impl<A: AllocHandle> Eq for Key<A> {
    ghost use Rattle.std.specs.Cmp.{eq_by_cmp_equiv};
    ghost use Rattle.cap_row.specs.Key.{fields_cmp_total};

    ghost laws = { eq_by_cmp_equiv fields_cmp_total };
}

impl<A: AllocHandle> PartialOrd for Key<A> {
    ghost use Rattle.std.proofs.Common.{refl};
    ghost use Rattle.std.specs.Cmp.{partial_order_from_agreeing_total};
    ghost use Rattle.std.specs.Ordering.{as_partial_cmp};
    ghost use Rattle.cap_row.specs.Key.{fields_cmp, fields_cmp_total};

    ghost partial_cmp = { as_partial_cmp fields_cmp };

    ghost laws = { partial_order_from_agreeing_total fields_cmp fields_cmp_total
        (λ x y. refl) (λ x y. refl) };

    fn partial_cmp(&self, other: &Self) -> Option<Ordering> {
        Some(self.order(other))
    }
}

impl<A: AllocHandle> Ord for Key<A> {
    ghost use Rattle.std.proofs.Common.{refl};
    ghost use Rattle.cap_row.specs.Key.{fields_cmp, fields_cmp_total};

    ghost cmp = { fields_cmp };

    ghost total = { fields_cmp_total };

    ghost matches_partial_cmp = { λ x y. refl };

    ghost matches_eq = { λ x y. refl };

    #[inline(always)]
    fn cmp(&self, other: &Self) -> Ordering {
        self.order(other)
    }
}

impl<A: AllocHandle> Debug for Key<A> {
    fn fmt<W: Write>(&self, f: &mut Formatter<W>) -> fmt::Result {
        f.debug_tuple("Key").field(&self.fields()).finish()
    }
}

/// The same key, which shares its values.
impl<A: AllocHandle> Clone for Key<A> {
    ghost use Rattle.std.specs.Prelude.{◌≡◌};

    ghost is_clone = { λ key clone. clone ≡ key };

    fn clone(&self) -> Result<Self, OutOfMemory> {
        self.copy()
    }
}

impl<A: AllocHandle> Exact for Key<A> {
    ghost exact = { λ key clone same. same };
}
