//! Values of the four storage classes, and their order.
ghost use Rattle.std.specs.Prelude.{◌≡◌, ◌↔◌, List, ℕ, IfOk, IsTrue};
ghost use Rattle.std.specs.Result.{result_err};
ghost use Rattle.cap_value.specs.Memory.{AnswersUnlessMemory, RefusesFirst};

use crate::{AllocHandle, Blob, Exact, Fault, OutOfMemory, Refusal, Text};
use std::cmp::Ordering;

/// A value of a row: SQLite's storage classes without REAL (Datatypes In SQLite, "Storage Classes and
/// Datatypes").
#[derive(Drop)]
#[derive_where(Debug)]
pub enum Value<A: AllocHandle> {
    /// No value. It equals itself here, as in SQLite's sort order.
    Null,
    /// A signed integer of 64 bits.
    Int(i64),
    /// A text in UTF-8.
    Text(Text<A>),
    /// Bytes, as they came.
    Blob(Blob<A>),
}

impl<A: AllocHandle> Value<A> {
    ghost use Rattle.cap_value.specs.Bytes.{within_limit};
    ghost use Rattle.cap_value.specs.Value.{IsValue, value_cmp, storage_class, is_null, text_value};
    ghost use Rattle.cap_value.specs.Value.{blob_value};

    /// A text value. Refused with `TooLong` where it has more than `VALUE_BYTES_MAX` bytes.
    pub fn text(alloc: A, text: &str) -> Result<Self, Fault<Refusal>>
        ensures value { AnswersUnlessMemory result (text_value text.now) }
        ensures first { RefusesFirst (result_err (within_limit text.now)) result }
    {
        Ok(Value::Text(Text::new(alloc, text)?))
    }

    /// A blob value. Refused with `TooLong` where it has more than `VALUE_BYTES_MAX` bytes.
    pub fn blob(alloc: A, bytes: &[u8]) -> Result<Self, Fault<Refusal>>
        ensures value { AnswersUnlessMemory result (blob_value bytes.now) }
        ensures first { RefusesFirst (result_err (within_limit bytes.now)) result }
    {
        Ok(Value::Blob(Blob::new(alloc, bytes)?))
    }

    /// The order of values: NULL, then integers by number, then texts and then blobs by their bytes
    /// (Datatypes In SQLite, "Sort Order").
    #[inline(always)]
    pub fn order(&self, other: &Self) -> Ordering
        ensures order { result ≡ value_cmp self.now other.now }
        ensures equal { (result ≡ Ordering.Equal) ↔ (self.now ≡ other.now) }
    {
        if let (Value::Int(a), Value::Int(b)) = (self, other) {
            return a.cmp(b);
        }
        self.order_of_any(other)
    }

    // Integers are most keys' values, so their order alone is made part of the callers.
    #[inline(never)]
    fn order_of_any(&self, other: &Self) -> Ordering
        ensures order { result ≡ value_cmp self.now other.now }
        ensures equal { (result ≡ Ordering.Equal) ↔ (self.now ≡ other.now) }
    {
        match (self, other) {
            (Value::Null, Value::Null) => Ordering::Equal,
            (Value::Int(a), Value::Int(b)) => a.cmp(b),
            (Value::Text(a), Value::Text(b)) => a.as_str().cmp(b.as_str()),
            (Value::Blob(a), Value::Blob(b)) => a.as_slice().cmp(b.as_slice()),
            _ => self.storage_class().cmp(&other.storage_class()),
        }
    }

    fn storage_class(&self) -> u8
        ensures { result ≡ storage_class self.now }
    {
        match self {
            Value::Null => 0,
            Value::Int(_) => 1,
            Value::Text(_) => 2,
            Value::Blob(_) => 3,
        }
    }

    /// Whether it is NULL.
    pub fn is_null(&self) -> bool
        ensures { result ≡ is_null self.now }
    {
        matches!(self, Value::Null)
    }

    /// Whether both are the same value.
    pub fn same(&self, other: &Self) -> bool
        ensures { IsTrue result ↔ (self.now ≡ other.now) }
    {
        self == other
    }

    /// The value is within the limits of its storage class. This shows it to a proof, and does nothing when
    /// it runs.
    pub fn keeps_limits(&self)
        ensures { IsValue self.now }
    {
        match self {
            Value::Null => {}
            Value::Int(n) => {
                let _n = *n;
            }
            Value::Text(text) => {
                let _text = text.as_str();
            }
            Value::Blob(blob) => {
                let _blob = blob.as_slice();
            }
        }
    }

    /// The same value, which shares its bytes.
    pub fn copy(&self) -> Result<Self, OutOfMemory>
        ensures { IfOk result (λ copy. copy ≡ self.now) }
    {
        match self {
            Value::Null => Ok(Value::Null),
            Value::Int(n) => Ok(Value::Int(*n)),
            Value::Text(text) => Ok(Value::Text(text.copy()?)),
            Value::Blob(blob) => Ok(Value::Blob(blob.copy()?)),
        }
    }
}

impl<A: AllocHandle> PartialEq for Value<A> {
    ghost use Rattle.std.specs.Cmp.{eq_by_cmp_equiv, partial_equiv_from_equiv};
    ghost use Rattle.cap_value.specs.Value.{value_eq, value_cmp_total};

    ghost eq = { value_eq };

    ghost laws = { partial_equiv_from_equiv (eq_by_cmp_equiv value_cmp_total) };

    fn eq(&self, other: &Self) -> bool {
        self.order(other).is_eq()
    }
}

impl<A: AllocHandle> Eq for Value<A> {
    ghost use Rattle.std.specs.Cmp.{eq_by_cmp_equiv};
    ghost use Rattle.cap_value.specs.Value.{value_cmp_total};

    ghost laws = { eq_by_cmp_equiv value_cmp_total };
}

impl<A: AllocHandle> PartialOrd for Value<A> {
    ghost use Rattle.std.proofs.Common.{refl};
    ghost use Rattle.std.specs.Cmp.{partial_order_from_agreeing_total};
    ghost use Rattle.std.specs.Ordering.{as_partial_cmp};
    ghost use Rattle.cap_value.specs.Value.{value_cmp, value_cmp_total};

    ghost partial_cmp = { as_partial_cmp value_cmp };

    ghost laws = { partial_order_from_agreeing_total value_cmp value_cmp_total (λ x y. refl) (λ x y. refl) };

    fn partial_cmp(&self, other: &Self) -> Option<Ordering> {
        Some(self.order(other))
    }
}

impl<A: AllocHandle> Ord for Value<A> {
    ghost use Rattle.std.proofs.Common.{refl};
    ghost use Rattle.cap_value.specs.Value.{value_cmp, value_cmp_total};

    ghost cmp = { value_cmp };

    ghost total = { value_cmp_total };

    ghost matches_partial_cmp = { λ x y. refl };

    ghost matches_eq = { λ x y. refl };

    fn cmp(&self, other: &Self) -> Ordering {
        self.order(other)
    }
}

/// NULL.
impl<A: AllocHandle> Default for Value<A> {
    ghost use Rattle.std.specs.Prelude.{◌≡◌};
    ghost use Rattle.cap_value.specs.declared.value.Value.TheVariants.{Null};

    ghost is_default = { λ value. value ≡ Null };

    fn default() -> Self {
        Value::Null
    }
}

/// The same value, which shares its bytes.
impl<A: AllocHandle> Clone for Value<A> {
    ghost use Rattle.std.specs.Prelude.{◌≡◌};

    ghost is_clone = { λ value clone. clone ≡ value };

    fn clone(&self) -> Result<Self, OutOfMemory> {
        self.copy()
    }
}

impl<A: AllocHandle> Exact for Value<A> {
    ghost exact = { λ value clone same. same };
}
