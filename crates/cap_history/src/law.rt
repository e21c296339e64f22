//! The rule of the front word, and the two operations on it.
use cap_core::{Command, Event, Reply};
use cap_value::AllocHandle;
use logbook::{Gain, Plain, Play, Rule};

/// The rule that every operation on the front word keeps: the word is the number of events of a legal
/// history, in which each blob that was applied fits its tables.
pub struct Law;

impl<A: AllocHandle> Rule<Event<A>, u64> for Law {
    ghost use Rattle.std.specs.Prelude.{[]};
    ghost use base.Fml.{ftrue};
    ghost use Rattle.cap_history.specs.Rules.{IsKept};

    ghost holds = { λ cells log. IsKept cells log };

    ghost first = { [] };

    ghost hinted = { λ n log. Unit {0} };

    ghost shows = { λ log. [] };

    ghost keeps = { λ names log. ftrue };

    ghost moves = { λ ask before after answer. Unit {0} };
}

// Callers give and take nothing.
pub(crate) struct Nothing;

impl<A: AllocHandle> Gain<Event<A>, u64> for Nothing {
    ghost use base.Fml.{ftrue};

    ghost after = { λ names about answer. ftrue };
}

// A load.
pub(crate) struct Look;

impl<A: AllocHandle> Play<Event<A>, u64> for Look {
    ghost use Rattle.cap_history.specs.Rules.{Looks};

    ghost then = { Looks };
}

// A load adds no event. The word asks for some event here, and ignores it.
impl<A: AllocHandle> Plain<(), Event<A>, u64> for Look {
    ghost use Rattle.std.specs.Prelude.{None};
    ghost use Rattle.cap_core.specs.Answer.{event_by};
    ghost use Rattle.cap_core.specs.declared.command.Command.TheVariants.{Read};
    ghost use Rattle.cap_core.specs.declared.reply.Reply.TheVariants.{Done};

    ghost ask = { λ nothing. event_by 0 Read Done };

    ghost state = { λ nothing. None };
}

// A compare-and-swap that adds an event.
pub(crate) struct Add;

impl<A: AllocHandle> Play<Event<A>, u64> for Add {
    ghost use Rattle.cap_history.specs.Rules.{Adds};

    ghost then = { Adds };
}

// The event to add. No value of it is made.
#[derive(Drop)]
pub(crate) struct Call<'c, 'r, A: AllocHandle> {
    pub(crate) by: u64,
    pub(crate) command: &'c Command<A>,
    pub(crate) reply: &'r Reply<A>,
}

impl<'c, 'r, A: AllocHandle> Plain<Call<'c, 'r, A>, Event<A>, u64> for Add {
    ghost use Rattle.std.specs.Prelude.{None};
    ghost use Rattle.cap_core.specs.Answer.{event_by};

    ghost ask = { λ call. event_by call.by call.command.now call.reply.now };

    ghost state = { λ call. None };
}
