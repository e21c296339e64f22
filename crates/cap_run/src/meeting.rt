//! The seats meet before and after a block.
ghost use Rattle.std.specs.Prelude.{◌≡◌, ◌<◌, [], All, map, vec_len};
ghost use Rattle.std.specs.List.{AllZip};
ghost use mathlib.Core.List.{IsPrefix};
ghost use Rattle.cap_run.specs.Code.Calls.{EachSawIn, HasMet, first_seen};

use crate::worker::Worker;
use cap_server::{List, Naming};
use cap_value::AllocHandle;

// Lets each worker's seat see what the first seat has seen. It takes no lock.
pub(crate) fn each_meets_first<J: Naming, A: AllocHandle>(workers: &mut Vec<Worker<J, A>, A>)
    requires some { 0 < vec_len workers.old }
    ensures met { AllZip (HasMet (first_seen (map (λ w. w.seat) workers.old.items)))
        (map (λ w. w.seat) workers.old.items) (map (λ w. w.seat) workers.new.items) }
    ensures len { vec_len workers.new ≡ vec_len workers.old }
{
    let first = &workers[0];
    let seen = first.seat.list();
    for place in 0..workers.len() {
        workers[place].seat.see(&seen);
    }
}

// Lets the first seat see what each worker's seat has seen. It takes no lock.
pub(crate) fn first_meets_each<J: Naming, A: AllocHandle>(workers: &mut Vec<Worker<J, A>, A>)
    requires some { 0 < vec_len workers.old }
    ensures met { AllZip (HasMet []) (map (λ w. w.seat) workers.old.items)
        (map (λ w. w.seat) workers.new.items) }
    ensures seen { EachSawIn (first_seen (map (λ w. w.seat) workers.new.items))
        (map (λ w. w.seat) workers.new.items) }
    ensures len { vec_len workers.new ≡ vec_len workers.old }
{
    let mut all = workers[0].seat.list();
    see_each(&mut all, workers.as_slice());
    workers[0].seat.see(&all);
}

// Lets a list see what each worker's seat has seen.
fn see_each<J: Naming, A: AllocHandle>(list: &mut List<J, A>, workers: &[Worker<J, A>])
    ensures list { IsPrefix list.old list.new }
    ensures workers { All (λ w. IsPrefix w.seat.seen list.new) workers.now }
{
    for worker in workers {
        list.meet(&worker.seat.list());
    }
}
