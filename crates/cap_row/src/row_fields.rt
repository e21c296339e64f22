//! The values of a row, one after another.
ghost use Rattle.std.specs.Prelude.{◌≡◌, ◌∷◌, [], List, drop, length, slice_get, MatchOption, IfSome};
ghost use Rattle.std.specs.Option.{option_map};
ghost use Rattle.std.specs.Map.Iter.{TakesFirst};
ghost use Rattle.std.specs.Iterator.{at_most};
ghost use Rattle.cap_value.specs.Value.{IsValue};
ghost use Rattle.cap_field.specs.Field.{values_bytes};
ghost use Rattle.cap_field.specs.FieldReading.{value_of};
ghost use Rattle.cap_row.specs.Encoding.{fields_of, AreValues, BeginsWith, Encodes, IsFieldOf};

use cap_field::{ValueRef, stored_value};
use cap_value::AllocHandle;
use std::fmt::{self, Debug, Formatter, Write};
use std::marker::{Model, PhantomData};

/// The values of a row that are left to go over, one a column. They are read in place.
#[derive(Drop)]
pub struct RowFields<'a, A: AllocHandle> {
    bytes: &'a [u8],
    marker: PhantomData<A>,
}

impl<'a, A: AllocHandle> Model for RowFields<'a, A> {
    ghost use Rattle.cap_row.specs.Encoding.{fields_of, Encodes};
    ghost use Rattle.cap_row.specs.Fields.{Fields};

    ghost Value = { Fields A };

    ghost view = { λ f. fields_of f.bytes.now };

    ghost invariant = { λ f. Encodes {A = A} f.bytes.now (fields_of f.bytes.now) };
}

impl<'a, A: AllocHandle> RowFields<'a, A> {
    /// The values of these bytes.
    #[inline(always)]
    pub fn of(bytes: &'a [u8]) -> Self
        requires { Encodes {A = A} bytes.now (fields_of bytes.now) }
        ensures { result ≡ fields_of bytes.now }
    {
        RowFields {
            bytes,
            marker: PhantomData,
        }
    }

    /// The next value. As `next`, which says nothing of its limits.
    #[inline(always)]
    pub fn next_value(&mut self) -> Option<ValueRef<'a>>
        ensures value { TakesFirst value_of self.old result self.new }
        ensures fits { IfSome result (λ value. IsValue {A = A} (value_of value)) }
    {
        let (value, _) = self.next_both()?;
        Some(value)
    }

    /// The next value, as its bytes.
    #[inline(always)]
    pub fn next_field(&mut self) -> Option<&'a [u8]>
        ensures { MatchOption result ((self.old ≡ []) × (self.new ≡ []))
            (λ field. BeginsWith self.old field.now self.new) }
    {
        let (_, field) = self.next_both()?;
        Some(field)
    }

    // The next value, and its bytes.
    #[tactic(auto, using(crate::proofs::EncodingLemmas::ended))]
    #[inline(always)]
    fn next_both(&mut self) -> Option<(ValueRef<'a>, &'a [u8])>
        ensures { MatchOption result ((self.old ≡ []) × (self.new ≡ []))
            (λ x. (self.old ≡ value_of x.0 ∷ self.new) × IsFieldOf {A = A} x.1.now (value_of x.0)) }
    {
        let bytes = self.bytes;
        if bytes.is_empty() {
            return None;
        }
        let (value, rest) = stored_value::<A>(bytes);
        self.bytes = rest;
        Some((value, &bytes[..bytes.len() - rest.len()]))
    }

    /// Passes the next value, where there is one.
    #[inline(always)]
    pub fn pass(&mut self)
        ensures { self.new ≡ drop 1 self.old }
    {
        let Some(_) = self.next_value() else {
            return;
        };
    }

    /// The bytes of the values that are left, as a record has them.
    #[inline(always)]
    pub fn as_bytes(&self) -> &'a [u8]
        ensures bytes { result.now ≡ values_bytes self.now }
        ensures fits { AreValues self.now }
    {
        self.bytes
    }

    /// How many values are left.
    #[tactic(auto, using(crate::proofs::EncodingLemmas::few_values))]
    pub fn width(&self) -> usize
        ensures { result ≡ length self.now }
    {
        let most = self.bytes.len();
        let mut rest: RowFields<'_, A> = RowFields::of(self.bytes);
        for width in 0..most {
            let Some(_) = rest.next_field() else {
                return width;
            };
        }
        most
    }

    /// The value so many places on, or none behind the end.
    #[tactic(auto, using(crate::proofs::EncodingLemmas::slice_get_behind))]
    #[inline(always)]
    pub fn get(self, place: usize) -> Option<ValueRef<'a>>
        ensures value { option_map value_of result ≡ slice_get self.entry place }
        ensures fits { IfSome result (λ value. IsValue {A = A} (value_of value)) }
    {
        let mut fields = self;
        for passed in 0..place {
            fields.next_value()?;
        }
        fields.next_value()
    }
}

impl<'a, A: AllocHandle> Iterator for RowFields<'a, A> {
    type Item = ValueRef<'a>;

    ghost next_gives = { TakesFirst value_of };

    ghost remaining = { λ f. at_most (length f) };

    fn next(&mut self) -> Option<ValueRef<'a>> {
        self.next_value()
    }
}

impl<'a, A: AllocHandle> Debug for RowFields<'a, A> {
    fn fmt<W: Write>(&self, f: &mut Formatter<W>) -> fmt::Result {
        let rest: RowFields<'_, A> = RowFields::of(self.bytes);
        f.debug_list().entries(rest).finish()
    }
}
