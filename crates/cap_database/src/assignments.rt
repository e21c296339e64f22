//! The columns that an update sets.
ghost use Rattle.std.specs.Prelude.{◌≡◌};

use cap_value::{AllocHandle, Value};
use std::marker::Model;

/// The columns that an update sets, counted from 0, each with its new value.
#[derive(Drop)]
pub struct Assignments<A: AllocHandle> {
    fields: Vec<(usize, Value<A>), A>,
}

impl<A: AllocHandle> Model for Assignments<A> {
    ghost use Rattle.cap_database.specs.Assigned.{Assigned};

    ghost Value = { Assigned A };

    ghost view = { λ a. a.fields.items };
}

impl<A: AllocHandle> Assignments<A> {
    /// These columns with these values.
    pub fn new(fields: Vec<(usize, Value<A>), A>) -> Self
        ensures { result ≡ fields.items }
    {
        Assignments { fields }
    }

    /// The columns and their values, in the order in which they were given.
    pub fn fields(&self) -> &[(usize, Value<A>)]
        ensures { result.now ≡ self.now }
    {
        self.fields.as_slice()
    }
}
