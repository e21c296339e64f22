//! What one call of a hub at a time has.
ghost use Rattle.std.specs.Prelude.{◌≡◌, ◌<◌, ⊤, [], All, IfErr, IfOk, IfSome, length};
ghost use Rattle.std.specs.Prelude.{Ok, OnOk};
ghost use Rattle.cap_history.specs.Seat.{HasCalled};
ghost use Rattle.cap_hub.specs.Code.Held.{IsFree, IsSeatOf};
ghost use Rattle.cap_locked.specs.Hook.{CanAsk, HasLeft, HasRefused};
ghost use Rattle.cap_locked.specs.Fault.{HasCause, LeavesSeat, MatchHookFault};

use cap_core::{Command, CommitHook, Reply};
use cap_history::{Front, List, Seat};
use cap_locked::{CallFault, HookFault, Locked, SEATS_MAX};
use cap_value::OutOfMemory;
use counted_slot::Fits;
use std::alloc::Global;
use std::marker::Model;

// The locked state, and the seats that no client has. It cannot be dropped, so a call has to put it back.
pub(crate) struct Held {
    locked: Locked<Global>,
    // Each has its place by its number.
    free: Vec<Option<Seat<Global>>, Global>,
}

impl Model for Held {
    ghost use Rattle.std.specs.Prelude.{◌≡◌, All, length};
    ghost use Rattle.logbook.specs.Pages.{Book, book_coded};
    ghost use Rattle.cap_hub.specs.Code.Held.{IsFree};

    ghost Value = { Book };

    ghost coded = { book_coded };

    ghost view = { λ h. h.locked.book };

    ghost invariant = { λ h. (h.locked.seats ≡ 64) × (length h.free.items ≡ 64)
        × All (IsFree h.locked.book) h.free.items };
}

impl Fits for Held {
    type Tag = Front<Global>;

    ghost use Rattle.std.specs.Prelude.{◌≡◌};

    ghost fits = { λ front held. held ≡ front };
}

impl Held {
    // An empty state with all seats but the first.
    pub(crate) fn open(alloc: Global, list: List<Global>) -> Result<Self, OutOfMemory>
        requires { list.log ≡ [] }
        ensures { IfOk result (λ held. held ≡ list.book) }
    {
        let free = free_seats(alloc, &list)?;
        let locked = Locked::open(alloc, list, SEATS_MAX)?;
        Ok(Held { locked, free })
    }

    // Carries out a seat's command.
    pub(crate) fn step(
        &mut self,
        front: &Front<Global>,
        seat: &mut Seat<Global>,
        command: &Command<Global>,
    ) -> Result<Reply<Global>, CallFault>
        requires this { self.old ≡ front.now }
        requires that { IsSeatOf front.now seat.old }
        ensures this { self.new ≡ self.old }
        ensures that { IsSeatOf front.now seat.new }
        ensures called { IfOk result (λ reply. HasCalled seat.old.state seat.new.state command.now reply) }
        ensures refused { IfErr result (λ fault. LeavesSeat fault seat.old.state seat.new.state) }
        ensures cause { IfErr result (λ fault. HasCause fault seat.old.state command.now) }
    {
        self.locked.step(front, seat, command)
    }

    // The same with a commit hook.
    pub(crate) fn step_with_hook<C: CommitHook<Global>>(
        &mut self,
        front: &Front<Global>,
        seat: &mut Seat<Global>,
        command: &Command<Global>,
        hook: &mut C,
    ) -> Result<Reply<Global>, HookFault<C::Refusal, CallFault>>
        requires this { self.old ≡ front.now }
        requires that { IsSeatOf front.now seat.old }
        requires can_ask { CanAsk C.can_ask hook.old command.now }
        ensures this { self.new ≡ self.old }
        ensures that { IsSeatOf front.now seat.new }
        ensures called { IfOk result (λ reply. HasCalled seat.old.state seat.new.state command.now reply) }
        ensures allowed { IfOk result (λ reply. C.gives hook.old reply (Ok tt) hook.new) }
        ensures refused { IfErr result (λ fault. MatchHookFault fault (λ why. seat.new ≡ seat.old)
            (λ fault. LeavesSeat fault seat.old.state seat.new.state)) }
        ensures hook { IfErr result (λ fault. MatchHookFault fault
            (λ why. HasRefused C.gives command.now why hook.old hook.new)
            (λ fault. HasLeft C.gives command.now fault hook.old hook.new)) }
        ensures cause { IfErr result (λ fault. MatchHookFault fault (λ why. ⊤)
            (λ fault. HasCause fault seat.old.state command.now)) }
    {
        let _events = self.locked.events();
        self.locked.step_with_hook(front, seat, command, hook)
    }

    // Takes out the free seat with the least number.
    pub(crate) fn take_seat(&mut self) -> Option<Seat<Global>>
        ensures this { self.new ≡ self.old }
        ensures seat { IfSome result (IsSeatOf self.old) }
    {
        let Some(place) = first_free(self.free.as_slice()) else {
            return None;
        };
        self.free[place].take()
    }

    // Takes a seat back.
    pub(crate) fn put_seat(&mut self, seat: Seat<Global>)
        requires seat { IsSeatOf self.old seat }
        ensures this { self.new ≡ self.old }
    {
        let number = seat.number() as usize;
        self.free[number] = Some(seat);
    }

    // Ends the history.
    pub(crate) fn end(self) {
        let Held { locked: _, free: _ } = self;
    }
}

// The seats of a new history but the first, which is the first client's.
fn free_seats(
    alloc: Global,
    list: &List<Global>,
) -> Result<Vec<Option<Seat<Global>>, Global>, OutOfMemory>
    requires empty { list.now.log ≡ [] }
    ensures long { IfOk result (λ free. length free.items ≡ 64) }
    ensures free { IfOk result (λ free. All (IsFree list.now.book) free.items) }
{
    let mut free = Vec::with_capacity(alloc, SEATS_MAX as usize)?;
    free.push(None)?;
    for number in 1..SEATS_MAX {
        free.push(Some(Seat::new(number, list)))?;
    }
    Ok(free)
}

// The first place that has a seat.
fn first_free(free: &[Option<Seat<Global>>]) -> Option<usize>
    ensures { IfSome result (λ place. place < length free.now) }
{
    for place in 0..free.len() {
        if free[place].is_some() {
            return Some(place);
        }
    }
    None
}
