//! Sessions that an application leaves as they are.
ghost use Rattle.std.specs.Prelude.{◌≡◌, []};

use cap_value::AllocHandle;
use std::marker::Model;

/// The numbers of sessions that an application leaves as they are: they record none of its changes.
#[derive(Drop)]
pub struct QuietSessions<A: AllocHandle> {
    numbers: Vec<u64, A>,
}

impl<A: AllocHandle> Model for QuietSessions<A> {
    ghost use Rattle.std.specs.Prelude.{ℕ, List};

    ghost Value = { List ℕ };

    ghost view = { λ q. q.numbers.items };
}

impl<A: AllocHandle> QuietSessions<A> {
    /// No session. Takes no memory.
    pub fn none(alloc: A) -> Self
        ensures { result ≡ [] }
    {
        QuietSessions {
            numbers: Vec::new(alloc),
        }
    }

    /// The sessions with these numbers.
    pub fn new(numbers: Vec<u64, A>) -> Self
        ensures { result ≡ numbers.items }
    {
        QuietSessions { numbers }
    }

    /// Their numbers.
    pub fn numbers(&self) -> &[u64]
        ensures { result.now ≡ self.now }
    {
        self.numbers.as_slice()
    }
}
