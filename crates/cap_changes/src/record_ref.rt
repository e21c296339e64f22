//! The fields of a record, one after another.
ghost use Rattle.std.specs.Prelude.{◌≡◌, ◌-◌, [], List, Ok, length, slice_get, take, is_some, IfErr, IfOk, IfSome, IsOk, IsTrue, MatchOption};
ghost use Rattle.std.specs.List.{list_all};
ghost use Rattle.std.specs.Option.{option_flatten, option_map};
ghost use Rattle.std.specs.Map.Iter.{TakesFirst};
ghost use Rattle.std.specs.Iterator.{at_most};
ghost use Rattle.cap_value.specs.Value.{IsValue};
ghost use Rattle.cap_field.specs.FieldReading.{value_of};
ghost use Rattle.cap_changes.specs.Change.{full_record};
ghost use Rattle.cap_changes.specs.FieldReading.{field_at, field_of};
ghost use Rattle.cap_changes.specs.declared.field_requirement.FieldRequirement.TheVariants.{Any};
ghost use Rattle.cap_changes.specs.Field.{record_bytes};
ghost use Rattle.cap_changes.specs.Record.{fields_of, keys_of, AreFields, IsRecord, IsKeyRecord};
ghost use Rattle.cap_changes.specs.Record.{BeginsWithField, IsFirstField};

use crate::field::stored_field;
use cap_field::{UNDEFINED, ValueRef};
use cap_row::RowFields;
use cap_value::AllocHandle;
use std::marker::{Model, PhantomData};

// The bytes of an undefined field.
const NO_FIELD: &[u8] = &[UNDEFINED];

/// The fields of a record that are left to go over, one a column, each a value or undefined. They are read in
/// place.
#[derive(Drop)]
pub struct RecordRef<'a, A: AllocHandle> {
    bytes: &'a [u8],
    // The key flags of the columns, where the fields outside the key are undefined and have no byte.
    keys: Option<&'a [bool]>,
    marker: PhantomData<A>,
}

impl<'a, A: AllocHandle> Model for RecordRef<'a, A> {
    ghost use Rattle.std.specs.Option.{option_copied};
    ghost use Rattle.cap_changes.specs.FieldRecord.{RecordFields};
    ghost use Rattle.cap_changes.specs.Record.{stored_fields, IsStored};

    ghost Value = { RecordFields A };

    ghost view = { λ r. stored_fields (option_copied r.keys) r.bytes.now };

    ghost invariant = { λ r. IsStored A (option_copied r.keys) r.bytes.now };
}

impl<'a, A: AllocHandle> RecordRef<'a, A> {
    /// A record without fields.
    #[tactic(auto, using(crate::proofs::StoredRecord::of_none))]
    pub fn empty() -> Self
        ensures { result ≡ [] }
    {
        RecordRef::of(&[])
    }

    /// The record with these bytes.
    #[inline(always)]
    pub fn of(bytes: &'a [u8]) -> Self
        requires { IsRecord {A = A} bytes.now (fields_of bytes.now) }
        ensures { result ≡ fields_of bytes.now }
    {
        RecordRef {
            bytes,
            keys: None,
            marker: PhantomData,
        }
    }

    // The record with the key fields alone, which have these bytes.
    pub(crate) fn of_key(flags: &'a [bool], bytes: &'a [u8]) -> Self
        requires { IsKeyRecord {A = A} flags.now bytes.now (keys_of flags.now bytes.now) }
        ensures { result ≡ keys_of flags.now bytes.now }
    {
        RecordRef {
            bytes,
            keys: Some(flags),
            marker: PhantomData,
        }
    }

    /// The same fields.
    #[inline(always)]
    pub fn copy(&self) -> Self
        ensures { result ≡ self.now }
    {
        RecordRef {
            bytes: self.bytes,
            keys: self.keys,
            marker: PhantomData,
        }
    }

    /// The next field: a value, or none where it is undefined. As `next`, which says nothing of its limits.
    #[inline(always)]
    pub fn next_field(&mut self) -> Option<Option<ValueRef<'a>>>
        ensures field { TakesFirst field_of self.old result self.new }
        ensures fits { IfSome result (λ field. IfSome (field_of {A = A} field) IsValue) }
    {
        Some(self.next_parts()?.0)
    }

    /// The next field, as its bytes, a zero byte where it is undefined.
    #[inline(always)]
    pub fn next_bytes(&mut self) -> Option<&'a [u8]>
        ensures { MatchOption result ((self.old ≡ []) × (self.new ≡ []))
            (λ field. BeginsWithField self.old field.now self.new) }
    {
        Some(self.next_parts()?.1)
    }

    // The next field, and its bytes.
    #[inline(always)]
    #[tactic(auto, using(crate::proofs::StoredRecord::none_first, crate::proofs::StoredRecord::is_read, crate::proofs::StoredRecord::other_first, crate::proofs::StoredRecord::whole_left, crate::proofs::StoredRecord::first_flag))]
    fn next_parts(&mut self) -> Option<(Option<ValueRef<'a>>, &'a [u8])>
        ensures { MatchOption result ((self.old ≡ []) × (self.new ≡ [])) (λ parts.
            IsFirstField self.old (field_of parts.0) parts.1.now self.new) }
    {
        let keys = match self.keys {
            None if self.bytes.is_empty() => return None,
            None => None,
            Some(keys) => {
                let [key, others @ ..] = keys else {
                    return None;
                };
                if !*key {
                    self.keys = Some(others);
                    return Some((None, NO_FIELD));
                }
                Some(others)
            }
        };
        let (field, rest) = stored_field::<A>(self.bytes);
        let front = &self.bytes[..self.bytes.len().saturating_sub(rest.len())];
        *self = RecordRef {
            bytes: rest,
            keys,
            marker: PhantomData,
        };
        Some((field, front))
    }

    /// The value of the column so many places on, none where it is undefined or outside the record.
    #[tactic(auto, using(crate::proofs::LeftLemmas::none_left, crate::proofs::LeftLemmas::next_at, crate::proofs::LeftLemmas::taken, std::proofs::lemmas::Option::slice_get_past))]
    pub fn get(self, place: usize) -> Option<ValueRef<'a>>
        ensures value { field_of result ≡ option_flatten (slice_get self.entry place) }
        ensures fits { IfSome (field_of {A = A} result) IsValue }
    {
        let mut fields = self;
        for passed in 0..place {
            fields.next_field()?;
        }
        fields.next_field()?
    }

    /// The values of a record in which every field is defined, by the bytes that are there.
    #[inline(always)]
    #[tactic(auto, using(crate::proofs::WholeLemmas::whole_view))]
    pub fn as_values(&self) -> RowFields<'a, A>
        requires { IsTrue (list_all is_some self.now) }
        ensures { self.now ≡ full_record result }
    {
        RowFields::of(self.bytes)
    }

    /// How many fields are left, undefined ones among them.
    #[tactic(auto, using(crate::proofs::LeftLemmas::none_left, crate::proofs::LeftLemmas::taken, crate::proofs::LeftLemmas::whole_few))]
    pub fn width(&self) -> usize
        ensures { result ≡ length self.now }
    {
        let most = match self.keys {
            Some(flags) => return flags.len(),
            None => self.bytes.len(),
        };
        let mut rest: RecordRef<'_, A> = RecordRef::of(self.bytes);
        for width in 0..most {
            let Some(_) = rest.next_bytes() else {
                return width;
            };
        }
        most
    }

    // A law: the fields that are defined are values. Does nothing at run time.
    pub(crate) fn values(&self)
        ensures { AreFields self.now }
    {
        let _ = &self.bytes;
    }

    // The bytes of all fields, where undefined ones have theirs.
    pub(crate) fn whole(self) -> Result<&'a [u8], Self>
        ensures ok { IfOk result (λ bytes. bytes.now ≡ record_bytes self.entry) }
        ensures err { IfErr result (λ fields. fields ≡ self.entry) }
    {
        match self.keys {
            None => Ok(self.bytes),
            Some(_) => Err(self),
        }
    }
}

impl<'a, A: AllocHandle> Iterator for RecordRef<'a, A> {
    type Item = Option<ValueRef<'a>>;

    ghost next_gives = { TakesFirst field_of };

    ghost remaining = { λ f. at_most (length f) };

    fn next(&mut self) -> Option<Option<ValueRef<'a>>> {
        self.next_field()
    }
}
