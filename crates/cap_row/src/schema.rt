//! Schemas: which columns are in the primary key.
ghost use Rattle.std.specs.Prelude.{◌≡◌, ◌≤◌, ◌<◌, ◌↔◌, List, Bool, false, length, IfOk, IsTrue};
ghost use Rattle.std.specs.Prelude.{slice_index_or};
ghost use Rattle.std.specs.List.{list_any};
ghost use Rattle.std.specs.Result.{result_err};
ghost use Rattle.cap_value.specs.Memory.{AnswersUnlessMemory, RefusesFirst};
ghost use Rattle.cap_row.specs.Schema.{schema_of, has_key};

use crate::limits::COLUMNS_MAX;
use cap_value::{AllocHandle, Exact, Fault, OutOfMemory, Refusal};
use std::fmt::{self, Debug, Formatter, Write};
use std::marker::Model;
use std::sync::ArcSlice;

/// The columns of a table: 1 to `COLUMNS_MAX`, each in the primary key or not. Copies share the flags.
#[derive(Drop)]
pub struct Schema<A: AllocHandle> {
    flags: ArcSlice<bool, A>,
}

impl<A: AllocHandle> Model for Schema<A> {
    ghost use Rattle.std.specs.Prelude.{List, Bool, ◌≤◌, length};
    ghost use Rattle.std.specs.Arc.{arc_slice_items};
    ghost use Rattle.cap_row.specs.declared.limits.TheConstants.{COLUMNS_MAX};

    ghost Value = { List Bool };

    ghost view = { λ s. arc_slice_items s.flags };

    ghost invariant = { λ s. (1 ≤ length (arc_slice_items s.flags))
        × (length (arc_slice_items s.flags) ≤ COLUMNS_MAX) };
}

impl<A: AllocHandle> Schema<A> {
    /// The schema with one flag a column, true for a column of the primary key. Refused with `BadSchema`
    /// where there is no column, or more than `COLUMNS_MAX`.
    pub fn new(alloc: A, flags: &[bool]) -> Result<Self, Fault<Refusal>>
        ensures schema { AnswersUnlessMemory result (schema_of flags.now) }
        ensures first { RefusesFirst (result_err (schema_of flags.now)) result }
    {
        if flags.is_empty() || flags.len() > COLUMNS_MAX {
            return Err(Fault::Refused(Refusal::BadSchema));
        }
        Ok(Schema {
            flags: ArcSlice::from_slice(alloc, flags)?,
        })
    }

    /// The flags, one a column.
    pub fn flags(&self) -> &[bool]
        ensures flags { result.now ≡ self.now }
        ensures columns { 1 ≤ length self.now }
        ensures fits { length self.now ≤ COLUMNS_MAX }
    {
        self.flags.as_slice()
    }

    /// How many columns there are.
    pub fn width(&self) -> usize
        ensures columns { result ≡ length self.now }
        ensures some { 1 ≤ result }
        ensures fits { result ≤ COLUMNS_MAX }
    {
        self.flags.len()
    }

    /// Whether the column is in the primary key. False outside the table.
    pub fn is_key(&self, column: usize) -> bool
        ensures { result ≡ slice_index_or self.now column false }
    {
        self.flags().get(column).copied().unwrap_or(false)
    }

    /// Whether any column is in the primary key.
    pub fn has_key(&self) -> bool
        ensures { result ≡ has_key self.now }
    {
        self.flags().iter().any(|flag| *flag)
    }

    /// Whether both have the same columns.
    pub fn same(&self, other: &Self) -> bool
        ensures { IsTrue result ↔ (self.now ≡ other.now) }
    {
        self == other
    }

    /// The same schema, which shares its flags.
    pub fn copy(&self) -> Result<Self, OutOfMemory>
        ensures { IfOk result (λ copy. copy ≡ self.now) }
    {
        Ok(Schema {
            flags: self.flags.clone()?,
        })
    }
}

impl<A: AllocHandle> Debug for Schema<A> {
    fn fmt<W: Write>(&self, f: &mut Formatter<W>) -> fmt::Result {
        f.debug_tuple("Schema").field(&self.flags()).finish()
    }
}

/// The same schema, which shares its flags.
impl<A: AllocHandle> Clone for Schema<A> {
    ghost use Rattle.std.specs.Prelude.{◌≡◌};

    ghost is_clone = { λ schema clone. clone ≡ schema };

    fn clone(&self) -> Result<Self, OutOfMemory> {
        self.copy()
    }
}

impl<A: AllocHandle> Exact for Schema<A> {
    ghost exact = { λ schema clone same. same };
}

/// Column by column.
impl<A: AllocHandle> PartialEq for Schema<A> {
    ghost use Rattle.std.specs.Cmp.{bool_eq_equiv, partial_equiv_from_equiv};
    ghost use Rattle.std.specs.Cmp.Lexicographic.{lists_equiv};
    ghost use Rattle.cap_row.specs.Schema.{flags_eq};

    ghost eq = { flags_eq };

    ghost laws = { partial_equiv_from_equiv (lists_equiv bool_eq_equiv) };

    fn eq(&self, other: &Self) -> bool {
        self.flags() == other.flags()
    }
}

impl<A: AllocHandle> Eq for Schema<A> {
    ghost use Rattle.std.specs.Cmp.{bool_eq_equiv};
    ghost use Rattle.std.specs.Cmp.Lexicographic.{lists_equiv};

    ghost laws = { lists_equiv bool_eq_equiv };
}
