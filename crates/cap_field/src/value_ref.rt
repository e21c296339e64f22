//! Values in place.
ghost use Rattle.std.specs.Prelude.{◌≡◌, ◌≤◌, ◌↔◌, IfOk, IsOk, IsTrue};
ghost use Rattle.cap_value.specs.Value.{IsValue, is_null, storage_class, value_cmp, value_eq};
ghost use Rattle.cap_field.specs.FieldReading.{value_of};

use cap_value::{AllocHandle, Fault, OutOfMemory, Value};
use std::cmp::Ordering;

/// A value, as a reference into the bytes of a record, or to a `Value`.
#[derive(Clone, Copy, Debug)]
pub enum ValueRef<'a> {
    /// NULL.
    Null,
    /// An integer.
    Int(i64),
    /// A text.
    Text(&'a str),
    /// A blob.
    Blob(&'a [u8]),
}

impl<'a> ValueRef<'a> {
    /// The reference to a value.
    #[inline(always)]
    pub fn of<A: AllocHandle>(value: &'a Value<A>) -> Self
        ensures value { value_of result ≡ value.now }
        ensures fits { IsValue value.now }
    {
        match value {
            Value::Null => ValueRef::Null,
            Value::Int(number) => ValueRef::Int(*number),
            Value::Text(text) => ValueRef::Text(text.as_str()),
            Value::Blob(blob) => ValueRef::Blob(blob.as_slice()),
        }
    }

    /// The value, which takes memory where it is a text or a blob.
    pub fn own<A: AllocHandle>(self, alloc: A) -> Result<Value<A>, OutOfMemory>
        requires { IsValue {A = A} (value_of self) }
        ensures value { IfOk result (λ value. value ≡ value_of self.entry) }
        ensures no_memory { storage_class {A = A} (value_of self.entry) ≤ 1 → IsOk result }
    {
        let made = match self {
            ValueRef::Null => Ok(Value::Null),
            ValueRef::Int(number) => Ok(Value::Int(number)),
            ValueRef::Text(text) => Value::text(alloc, text),
            ValueRef::Blob(bytes) => Value::blob(alloc, bytes),
        };
        match made {
            Ok(value) => Ok(value),
            Err(Fault::OutOfMemory) => Err(OutOfMemory),
            Err(Fault::Refused(_)) => unreachable!(),
        }
    }

    /// Whether it is NULL.
    #[inline(always)]
    pub fn is_null<A: AllocHandle>(self) -> bool
        ensures { result ≡ is_null {A = A} (value_of self.entry) }
    {
        matches!(self, ValueRef::Null)
    }

    #[inline(always)]
    fn storage_class<A: AllocHandle>(self) -> u8
        ensures { result ≡ storage_class {A = A} (value_of self.entry) }
    {
        match self {
            ValueRef::Null => 0,
            ValueRef::Int(_) => 1,
            ValueRef::Text(_) => 2,
            ValueRef::Blob(_) => 3,
        }
    }

    /// The order of values: NULL, then integers by number, then texts and then blobs by their bytes
    /// (Datatypes In SQLite, "Sort Order").
    #[inline(always)]
    pub fn order<A: AllocHandle>(self, other: ValueRef<'_>) -> Ordering
        ensures { result ≡ value_cmp {A = A} (value_of self.entry) (value_of other.entry) }
    {
        match (self, other) {
            (ValueRef::Null, ValueRef::Null) => Ordering::Equal,
            (ValueRef::Int(a), ValueRef::Int(b)) => a.cmp(&b),
            (ValueRef::Text(a), ValueRef::Text(b)) => a.cmp(b),
            (ValueRef::Blob(a), ValueRef::Blob(b)) => a.cmp(b),
            _ => self.storage_class::<A>().cmp(&other.storage_class::<A>()),
        }
    }

    /// Whether both are the same value.
    #[inline(always)]
    pub fn same<A: AllocHandle>(self, other: ValueRef<'_>) -> bool
        ensures { result ≡ value_eq {A = A} (value_of self.entry) (value_of other.entry) }
    {
        self.order::<A>(other).is_eq()
    }
}
