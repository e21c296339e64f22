//! Opens a new history.
ghost use Rattle.std.specs.Prelude.{◌≡◌, [], length};

use crate::{Front, List};
use cap_value::AllocHandle;
use logbook::{Seen, Start, Word};

/// An empty history.
pub struct Opened<A: AllocHandle> {
    front: Front<A>,
    /// The events seen so far: none.
    pub seen: List<A>,
    ghost empty: { length seen.log ≡ 0 },
    ghost one: { front ≡ seen.book },
}

impl<A: AllocHandle> Opened<A> {
    /// An empty history. It takes no memory.
    pub fn new() -> Self {
        cap_core::laws::legal_histories_grow::<A>();
        cap_core::laws::fitting_histories_grow::<A>();
        let (seen, mut first, _second) = Seen::open(Start::alone(), 0, 0);
        let front = Front {
            word: Word::tracked(0, &mut first),
        };
        Opened {
            front,
            seen: List { len: 0, seen },
        }
    }

    /// Its front word, and an empty list.
    pub fn parts(self) -> (Front<A>, List<A>)
        ensures history { (result.0 ≡ self.seen.book) × (result.1.book ≡ self.seen.book) }
        ensures empty { result.1.log ≡ [] }
    {
        let Opened { front, seen } = self;
        (front, seen)
    }
}
