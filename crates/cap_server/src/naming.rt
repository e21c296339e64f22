//! The parameter that names a history and counts its seats, and the parts of a new history under a name.
ghost use Rattle.std.specs.Prelude.{◌≡◌, ◌<◌, [], IfOk};
ghost use Rattle.cap_history.specs.Seat.{newcomers};

use crate::{Front, List, Seat};
use cap_history::Opened;
use cap_value::{AllocHandle, OutOfMemory};
use std::marker::{Brand, PhantomData};

/// Names a history and the number of its seats. Types of one history share this parameter. A program opens
/// the history in a function over `J: Naming`, called at `Brand`.
pub trait Naming {
    ghost use Rattle.std.specs.Prelude.{ℕ};
    ghost use Rattle.logbook.specs.Pages.{Book};

    ghost book: { Book };

    ghost seats: { ℕ };
}

impl Naming for Brand {
    ghost book = { record { number = 0; log_name = 0; cells_name = 0 } };

    ghost seats = { 0 };
}

/// The front word of a new history under its name, an empty list, and the seats, numbered from 0.
pub fn named<J: Naming, A: AllocHandle>(
    opened: Opened<A>,
    alloc: A,
    seats: u64,
) -> Result<(Front<J, A>, List<J, A>, Vec<Seat<J, A>, A>), OutOfMemory>
    requires history { opened.seen.book ≡ J.book }
    requires seats { seats ≡ J.seats }
    ensures list { IfOk result (λ r. r.1 ≡ []) }
    ensures seats { IfOk result (λ r. r.2.items ≡ newcomers seats) }
{
    let (front, seen) = opened.parts();
    let front = Front {
        front,
        of: PhantomData,
    };
    let list = List {
        list: seen,
        of: PhantomData,
    };
    let seats = seats_of(alloc, &list, seats)?;
    Ok((front, list, seats))
}

// New seats, numbered from 0.
fn seats_of<J: Naming, A: AllocHandle>(
    alloc: A,
    list: &List<J, A>,
    seats: u64,
) -> Result<Vec<Seat<J, A>, A>, OutOfMemory>
    requires empty { list.now ≡ [] }
    requires seats { seats ≡ J.seats }
    ensures { IfOk result (λ made. made.items ≡ newcomers seats) }
{
    let mut made = Vec::new(alloc);
    for number in 0..seats {
        made.push(Seat::new(number, list))?;
    }
    Ok(made)
}
