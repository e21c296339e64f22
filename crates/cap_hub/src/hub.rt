//! What the clients of one history share.
ghost use Rattle.std.specs.Prelude.{◌≡◌, IfSome};

use crate::held::Held;
use cap_history::Front;
use counted_slot::{Counted, FREE, PRESENT, TAKEN};
use std::alloc::Global;
use std::marker::Model;

// The front word, and a place for the state, which is empty while a call has it.
pub(crate) struct Hub {
    front: Front<Global>,
    place: Counted<Option<Held>>,
}

impl Model for Hub {
    ghost use Rattle.std.specs.Prelude.{◌≡◌};
    ghost use Rattle.logbook.specs.Pages.{Book, book_coded};

    ghost Value = { Book };

    ghost coded = { book_coded };

    ghost view = { λ h. h.front };

    ghost invariant = { λ h. h.place ≡ h.front };
}

impl Hub {
    pub(crate) fn new(front: Front<Global>, held: Held) -> Self
        requires { held ≡ front }
        ensures { result ≡ front }
    {
        let place = Counted::new(Some(held), &front);
        Hub { front, place }
    }

    pub(crate) fn front(&self) -> &Front<Global>
        ensures { result.now ≡ self.now }
    {
        &self.front
    }

    // The state, if no other call has it.
    pub(crate) fn take(&self) -> Option<Held>
        ensures { IfSome result (λ held. held ≡ self.now) }
    {
        let (found, claim) = self.place.turn(FREE, TAKEN);
        if found != FREE {
            claim.done();
            return None;
        }
        claim.put(None, PRESENT)
    }

    // Puts the state back. The place is this call's alone, so it is found at once.
    pub(crate) fn put(&self, held: Held)
        requires { held ≡ self.now }
    {
        for _ in 0..u64::MAX {
            let (found, claim) = self.place.turn(PRESENT, TAKEN);
            if found == PRESENT {
                if let Some(other) = claim.put(Some(held), FREE) {
                    other.end();
                }
                return;
            }
            claim.done();
        }
        held.end();
    }
}

impl Drop for Hub {
    fn drop(self) {
        let Hub { front: _, place } = self;
        if let Some(held) = place.into_inner() {
            held.end();
        }
    }
}
