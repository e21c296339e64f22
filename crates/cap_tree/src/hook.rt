//! Hooks that are shown what a change replaces.
ghost use Rattle.std.specs.Prelude.{Option, Result, ◌≡◌, Ok, Err, IfErr, OnOk};
ghost use Rattle.std.specs.Option.{option_copied};
ghost use Rattle.cap_value.specs.Memory.{MatchFault};

use cap_value::Fault;

/// A hook that is shown the present value of a key and its next one, and allows the change or refuses it. It
/// may change itself.
///
/// A call that takes one asks it once, after all memory is reserved and before anything changes. Once it
/// allows the change, the change cannot fail. If it refuses, nothing changes.
pub trait Hook<V> {
    /// Why the hook refuses.
    type Refusal: Drop;

    // When the hook may be asked, by the present value and the next one.
    ghost can_ask: { Self → Option V → Option V → Type 0 };

    // The hook before the call, the present value, the next one, the answer, and the hook after the call.
    ghost gives: { Self → Option V → Option V → Result Unit Self.Refusal → Self → Type 0 };

    fn before_change(&mut self, present: Option<&V>, next: Option<&V>) -> Result<(), Self::Refusal>
        requires { can_ask self.old (option_copied present) (option_copied next) }
        ensures { gives self.old (option_copied present.entry) (option_copied next.entry) result self.new };
}

// Asks the hook.
pub(crate) fn ask<V, H: Hook<V>>(
    hook: &mut H,
    present: Option<&V>,
    next: Option<&V>,
) -> Result<(), Fault<H::Refusal>>
    requires { H.can_ask hook.old (option_copied present) (option_copied next) }
    ensures allowed { OnOk result
        (H.gives hook.old (option_copied present.entry) (option_copied next.entry) (Ok tt) hook.new) }
    ensures refused { IfErr result (λ fault. MatchFault fault (hook.new ≡ hook.old) (λ why.
        H.gives hook.old (option_copied present.entry) (option_copied next.entry) (Err why) hook.new)) }
{
    match hook.before_change(present, next) {
        Ok(()) => Ok(()),
        Err(why) => Err(Fault::Refused(why)),
    }
}
