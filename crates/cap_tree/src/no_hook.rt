//! Changes without a hook.
use crate::hook::Hook;

// No refusal.
#[derive(Drop)]
pub(crate) enum Never {}

// A hook that allows every change.
#[derive(Drop)]
pub(crate) struct NoHook;

impl<V> Hook<V> for NoHook {
    type Refusal = Never;

    ghost use Rattle.std.specs.Prelude.{IsOk};

    ghost can_ask = { λ hook present next. Unit {0} };

    ghost gives = { λ old present next answer new. IsOk answer };

    fn before_change(&mut self, _present: Option<&V>, _next: Option<&V>) -> Result<(), Never> {
        Ok(())
    }
}
